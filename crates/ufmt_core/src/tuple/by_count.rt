//! Whole tuples by their number of fields. `x generate` writes this file: change its template in tools/data/by_count.
ghost use Rattle.std.specs.Prelude.{◌≡◌, ℕ, List, is_ok, true, [], ◌∷◌};
ghost use Rattle.std.specs.Str.{bytes_eq};
ghost use Rattle.ufmt_core.specs.Alike.{SameDocuments};
ghost use Rattle.ufmt_core.specs.Document.{Documents, documents, tuple_of};
ghost use Rattle.ufmt_core.specs.Formatter.{LaysOut};

use crate::formatter::Formatter;
use crate::uDebug;
use crate::write::uWrite;

impl<W: uWrite> Formatter<W> {
    /// `tuple_of` without fields.
    pub fn tuple_0(&mut self, name: &str) -> Result<(), W::Error>
        ensures lays_out { LaysOut W.seen self.old (tuple_of name.now (documents ([])))
            (is_ok result) self.new }
        ensures alike { (other : List ℕ) (others : Documents) → bytes_eq other name.now ≡ true
            → SameDocuments others (documents ([]))
            → LaysOut W.seen self.old (tuple_of other others) (is_ok result) self.new }
    {
        self.tuple_of(name, &())
    }

    /// `tuple_of` with one field.
    pub fn tuple_1<'a, A: uDebug>(&mut self, name: &str, a: &'a A) -> Result<(), W::Error>
        ensures lays_out { LaysOut W.seen self.old (tuple_of name.now (documents (A.document a.now
            ∷ []))) (is_ok result) self.new }
        ensures alike { (other : List ℕ) (others : Documents) → bytes_eq other name.now ≡ true
            → SameDocuments others (documents (A.document a.now ∷ []))
            → LaysOut W.seen self.old (tuple_of other others) (is_ok result) self.new }
    {
        self.tuple_of(name, &(a, ()))
    }

    /// `tuple_of` with 2 fields.
    pub fn tuple_2<'a, A: uDebug, B: uDebug>(
        &mut self,
        name: &str,
        a: &'a A,
        b: &'a B,
    ) -> Result<(), W::Error>
        ensures lays_out { LaysOut W.seen self.old (tuple_of name.now (documents (A.document a.now
            ∷ B.document b.now ∷ []))) (is_ok result) self.new }
        ensures alike { (other : List ℕ) (others : Documents) → bytes_eq other name.now ≡ true
            → SameDocuments others (documents (A.document a.now ∷ B.document b.now ∷ []))
            → LaysOut W.seen self.old (tuple_of other others) (is_ok result) self.new }
    {
        self.tuple_of(name, &(a, (b, ())))
    }

    /// `tuple_of` with 3 fields.
    pub fn tuple_3<'a, A: uDebug, B: uDebug, C: uDebug>(
        &mut self,
        name: &str,
        a: &'a A,
        b: &'a B,
        c: &'a C,
    ) -> Result<(), W::Error>
        ensures lays_out { LaysOut W.seen self.old (tuple_of name.now (documents (A.document a.now
            ∷ B.document b.now ∷ C.document c.now ∷ []))) (is_ok result) self.new }
        ensures alike { (other : List ℕ) (others : Documents) → bytes_eq other name.now ≡ true
            → SameDocuments others (documents (A.document a.now ∷ B.document b.now
            ∷ C.document c.now ∷ [])) → LaysOut W.seen self.old (tuple_of other others)
            (is_ok result) self.new }
    {
        self.tuple_of(name, &(a, (b, (c, ()))))
    }

    /// `tuple_of` with 4 fields.
    pub fn tuple_4<'a, A: uDebug, B: uDebug, C: uDebug, D: uDebug>(
        &mut self,
        name: &str,
        a: &'a A,
        b: &'a B,
        c: &'a C,
        d: &'a D,
    ) -> Result<(), W::Error>
        ensures lays_out { LaysOut W.seen self.old (tuple_of name.now (documents (A.document a.now
            ∷ B.document b.now ∷ C.document c.now ∷ D.document d.now ∷ []))) (is_ok result)
            self.new }
        ensures alike { (other : List ℕ) (others : Documents) → bytes_eq other name.now ≡ true
            → SameDocuments others (documents (A.document a.now ∷ B.document b.now
            ∷ C.document c.now ∷ D.document d.now ∷ []))
            → LaysOut W.seen self.old (tuple_of other others) (is_ok result) self.new }
    {
        self.tuple_of(name, &(a, (b, (c, (d, ())))))
    }

    /// `tuple_of` with 5 fields.
    pub fn tuple_5<'a, A: uDebug, B: uDebug, C: uDebug, D: uDebug, E: uDebug>(
        &mut self,
        name: &str,
        a: &'a A,
        b: &'a B,
        c: &'a C,
        d: &'a D,
        e: &'a E,
    ) -> Result<(), W::Error>
        ensures lays_out { LaysOut W.seen self.old (tuple_of name.now (documents (A.document a.now
            ∷ B.document b.now ∷ C.document c.now ∷ D.document d.now ∷ E.document e.now ∷ [])))
            (is_ok result) self.new }
        ensures alike { (other : List ℕ) (others : Documents) → bytes_eq other name.now ≡ true
            → SameDocuments others (documents (A.document a.now ∷ B.document b.now
            ∷ C.document c.now ∷ D.document d.now ∷ E.document e.now ∷ []))
            → LaysOut W.seen self.old (tuple_of other others) (is_ok result) self.new }
    {
        self.tuple_of(name, &(a, (b, (c, (d, (e, ()))))))
    }

    /// `tuple_of` with 6 fields.
    pub fn tuple_6<'a, A: uDebug, B: uDebug, C: uDebug, D: uDebug, E: uDebug, F: uDebug>(
        &mut self,
        name: &str,
        a: &'a A,
        b: &'a B,
        c: &'a C,
        d: &'a D,
        e: &'a E,
        f: &'a F,
    ) -> Result<(), W::Error>
        ensures lays_out { LaysOut W.seen self.old (tuple_of name.now (documents (A.document a.now
            ∷ B.document b.now ∷ C.document c.now ∷ D.document d.now ∷ E.document e.now
            ∷ F.document f.now ∷ []))) (is_ok result) self.new }
        ensures alike { (other : List ℕ) (others : Documents) → bytes_eq other name.now ≡ true
            → SameDocuments others (documents (A.document a.now ∷ B.document b.now
            ∷ C.document c.now ∷ D.document d.now ∷ E.document e.now ∷ F.document f.now ∷ []))
            → LaysOut W.seen self.old (tuple_of other others) (is_ok result) self.new }
    {
        self.tuple_of(name, &(a, (b, (c, (d, (e, (f, ())))))))
    }

    /// `tuple_of` with 7 fields.
    pub fn tuple_7<'a, A: uDebug, B: uDebug, C: uDebug, D: uDebug, E: uDebug, F: uDebug, G: uDebug>(
        &mut self,
        name: &str,
        a: &'a A,
        b: &'a B,
        c: &'a C,
        d: &'a D,
        e: &'a E,
        f: &'a F,
        g: &'a G,
    ) -> Result<(), W::Error>
        ensures lays_out { LaysOut W.seen self.old (tuple_of name.now (documents (A.document a.now
            ∷ B.document b.now ∷ C.document c.now ∷ D.document d.now ∷ E.document e.now
            ∷ F.document f.now ∷ G.document g.now ∷ []))) (is_ok result) self.new }
        ensures alike { (other : List ℕ) (others : Documents) → bytes_eq other name.now ≡ true
            → SameDocuments others (documents (A.document a.now ∷ B.document b.now
            ∷ C.document c.now ∷ D.document d.now ∷ E.document e.now ∷ F.document f.now
            ∷ G.document g.now ∷ [])) → LaysOut W.seen self.old (tuple_of other others)
            (is_ok result) self.new }
    {
        self.tuple_of(name, &(a, (b, (c, (d, (e, (f, (g, ()))))))))
    }

    /// `tuple_of` with 8 fields.
    pub fn tuple_8<
        'a,
        A: uDebug,
        B: uDebug,
        C: uDebug,
        D: uDebug,
        E: uDebug,
        F: uDebug,
        G: uDebug,
        H: uDebug,
    >(
        &mut self,
        name: &str,
        a: &'a A,
        b: &'a B,
        c: &'a C,
        d: &'a D,
        e: &'a E,
        f: &'a F,
        g: &'a G,
        h: &'a H,
    ) -> Result<(), W::Error>
        ensures lays_out { LaysOut W.seen self.old (tuple_of name.now (documents (A.document a.now
            ∷ B.document b.now ∷ C.document c.now ∷ D.document d.now ∷ E.document e.now
            ∷ F.document f.now ∷ G.document g.now ∷ H.document h.now ∷ []))) (is_ok result)
            self.new }
        ensures alike { (other : List ℕ) (others : Documents) → bytes_eq other name.now ≡ true
            → SameDocuments others (documents (A.document a.now ∷ B.document b.now
            ∷ C.document c.now ∷ D.document d.now ∷ E.document e.now ∷ F.document f.now
            ∷ G.document g.now ∷ H.document h.now ∷ []))
            → LaysOut W.seen self.old (tuple_of other others) (is_ok result) self.new }
    {
        self.tuple_of(name, &(a, (b, (c, (d, (e, (f, (g, (h, ())))))))))
    }

    /// `tuple_of` with 9 fields.
    pub fn tuple_9<
        'a,
        A: uDebug,
        B: uDebug,
        C: uDebug,
        D: uDebug,
        E: uDebug,
        F: uDebug,
        G: uDebug,
        H: uDebug,
        I: uDebug,
    >(
        &mut self,
        name: &str,
        a: &'a A,
        b: &'a B,
        c: &'a C,
        d: &'a D,
        e: &'a E,
        f: &'a F,
        g: &'a G,
        h: &'a H,
        i: &'a I,
    ) -> Result<(), W::Error>
        ensures lays_out { LaysOut W.seen self.old (tuple_of name.now (documents (A.document a.now
            ∷ B.document b.now ∷ C.document c.now ∷ D.document d.now ∷ E.document e.now
            ∷ F.document f.now ∷ G.document g.now ∷ H.document h.now ∷ I.document i.now ∷ [])))
            (is_ok result) self.new }
        ensures alike { (other : List ℕ) (others : Documents) → bytes_eq other name.now ≡ true
            → SameDocuments others (documents (A.document a.now ∷ B.document b.now
            ∷ C.document c.now ∷ D.document d.now ∷ E.document e.now ∷ F.document f.now
            ∷ G.document g.now ∷ H.document h.now ∷ I.document i.now ∷ []))
            → LaysOut W.seen self.old (tuple_of other others) (is_ok result) self.new }
    {
        self.tuple_of(name, &(a, (b, (c, (d, (e, (f, (g, (h, (i, ()))))))))))
    }

    /// `tuple_of` with 10 fields.
    pub fn tuple_10<
        'a,
        A: uDebug,
        B: uDebug,
        C: uDebug,
        D: uDebug,
        E: uDebug,
        F: uDebug,
        G: uDebug,
        H: uDebug,
        I: uDebug,
        J: uDebug,
    >(
        &mut self,
        name: &str,
        a: &'a A,
        b: &'a B,
        c: &'a C,
        d: &'a D,
        e: &'a E,
        f: &'a F,
        g: &'a G,
        h: &'a H,
        i: &'a I,
        j: &'a J,
    ) -> Result<(), W::Error>
        ensures lays_out { LaysOut W.seen self.old (tuple_of name.now (documents (A.document a.now
            ∷ B.document b.now ∷ C.document c.now ∷ D.document d.now ∷ E.document e.now
            ∷ F.document f.now ∷ G.document g.now ∷ H.document h.now ∷ I.document i.now
            ∷ J.document j.now ∷ []))) (is_ok result) self.new }
        ensures alike { (other : List ℕ) (others : Documents) → bytes_eq other name.now ≡ true
            → SameDocuments others (documents (A.document a.now ∷ B.document b.now
            ∷ C.document c.now ∷ D.document d.now ∷ E.document e.now ∷ F.document f.now
            ∷ G.document g.now ∷ H.document h.now ∷ I.document i.now ∷ J.document j.now ∷ []))
            → LaysOut W.seen self.old (tuple_of other others) (is_ok result) self.new }
    {
        self.tuple_of(name, &(a, (b, (c, (d, (e, (f, (g, (h, (i, (j, ())))))))))))
    }

    /// `tuple_of` with 11 fields.
    pub fn tuple_11<
        'a,
        A: uDebug,
        B: uDebug,
        C: uDebug,
        D: uDebug,
        E: uDebug,
        F: uDebug,
        G: uDebug,
        H: uDebug,
        I: uDebug,
        J: uDebug,
        K: uDebug,
    >(
        &mut self,
        name: &str,
        a: &'a A,
        b: &'a B,
        c: &'a C,
        d: &'a D,
        e: &'a E,
        f: &'a F,
        g: &'a G,
        h: &'a H,
        i: &'a I,
        j: &'a J,
        k: &'a K,
    ) -> Result<(), W::Error>
        ensures lays_out { LaysOut W.seen self.old (tuple_of name.now (documents (A.document a.now
            ∷ B.document b.now ∷ C.document c.now ∷ D.document d.now ∷ E.document e.now
            ∷ F.document f.now ∷ G.document g.now ∷ H.document h.now ∷ I.document i.now
            ∷ J.document j.now ∷ K.document k.now ∷ []))) (is_ok result) self.new }
        ensures alike { (other : List ℕ) (others : Documents) → bytes_eq other name.now ≡ true
            → SameDocuments others (documents (A.document a.now ∷ B.document b.now
            ∷ C.document c.now ∷ D.document d.now ∷ E.document e.now ∷ F.document f.now
            ∷ G.document g.now ∷ H.document h.now ∷ I.document i.now ∷ J.document j.now
            ∷ K.document k.now ∷ [])) → LaysOut W.seen self.old (tuple_of other others)
            (is_ok result) self.new }
    {
        self.tuple_of(
            name,
            &(a, (b, (c, (d, (e, (f, (g, (h, (i, (j, (k, ()))))))))))),
        )
    }

    /// `tuple_of` with 12 fields.
    pub fn tuple_12<
        'a,
        A: uDebug,
        B: uDebug,
        C: uDebug,
        D: uDebug,
        E: uDebug,
        F: uDebug,
        G: uDebug,
        H: uDebug,
        I: uDebug,
        J: uDebug,
        K: uDebug,
        L: uDebug,
    >(
        &mut self,
        name: &str,
        a: &'a A,
        b: &'a B,
        c: &'a C,
        d: &'a D,
        e: &'a E,
        f: &'a F,
        g: &'a G,
        h: &'a H,
        i: &'a I,
        j: &'a J,
        k: &'a K,
        l: &'a L,
    ) -> Result<(), W::Error>
        ensures lays_out { LaysOut W.seen self.old (tuple_of name.now (documents (A.document a.now
            ∷ B.document b.now ∷ C.document c.now ∷ D.document d.now ∷ E.document e.now
            ∷ F.document f.now ∷ G.document g.now ∷ H.document h.now ∷ I.document i.now
            ∷ J.document j.now ∷ K.document k.now ∷ L.document l.now ∷ []))) (is_ok result)
            self.new }
        ensures alike { (other : List ℕ) (others : Documents) → bytes_eq other name.now ≡ true
            → SameDocuments others (documents (A.document a.now ∷ B.document b.now
            ∷ C.document c.now ∷ D.document d.now ∷ E.document e.now ∷ F.document f.now
            ∷ G.document g.now ∷ H.document h.now ∷ I.document i.now ∷ J.document j.now
            ∷ K.document k.now ∷ L.document l.now ∷ []))
            → LaysOut W.seen self.old (tuple_of other others) (is_ok result) self.new }
    {
        self.tuple_of(
            name,
            &(a, (b, (c, (d, (e, (f, (g, (h, (i, (j, (k, (l, ())))))))))))),
        )
    }
}
