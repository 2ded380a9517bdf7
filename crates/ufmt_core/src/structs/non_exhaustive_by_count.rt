//! Structs that end in `..`, by their number of fields. `x generate` writes this file: change its template in tools/data/by_count.
ghost use Rattle.std.specs.Prelude.{◌≡◌, ℕ, List, is_ok, true, [], ◌∷◌};
ghost use Rattle.std.specs.Str.{bytes_eq};
ghost use Rattle.ufmt_core.specs.Alike.{SameFields};
ghost use Rattle.ufmt_core.specs.Document.{Fields, fields_of, non_exhaustive_of};
ghost use Rattle.ufmt_core.specs.Formatter.{LaysOut};

use crate::formatter::Formatter;
use crate::uDebug;
use crate::write::uWrite;

impl<W: uWrite> Formatter<W> {
    /// `non_exhaustive_of` without fields.
    #[inline(always)]
    pub fn non_exhaustive_0(&mut self, name: &str) -> Result<(), W::Error>
        ensures lays_out { LaysOut W.seen self.old (non_exhaustive_of name.now (fields_of ([])))
            (is_ok result) self.new }
        ensures alike { (other : List ℕ) (others : Fields) → bytes_eq other name.now ≡ true
            → SameFields others (fields_of ([]))
            → LaysOut W.seen self.old (non_exhaustive_of other others) (is_ok result) self.new }
    {
        self.non_exhaustive_of(name, &())
    }

    /// `non_exhaustive_of` with one field.
    #[inline(always)]
    pub fn non_exhaustive_1<'a, A: uDebug>(
        &mut self,
        name: &str,
        a: &'a str,
        a_value: &'a A,
    ) -> Result<(), W::Error>
        ensures lays_out { LaysOut W.seen self.old (non_exhaustive_of name.now (fields_of
            ((a.now, A.document a_value.now) ∷ []))) (is_ok result) self.new }
        ensures alike { (other : List ℕ) (others : Fields) → bytes_eq other name.now ≡ true
            → SameFields others (fields_of ((a.now, A.document a_value.now) ∷ []))
            → LaysOut W.seen self.old (non_exhaustive_of other others) (is_ok result) self.new }
    {
        let fields = field_chain!(a: a_value,);
        self.non_exhaustive_of(name, &fields)
    }

    /// `non_exhaustive_of` with 2 fields.
    #[inline(always)]
    pub fn non_exhaustive_2<'a, A: uDebug, B: uDebug>(
        &mut self,
        name: &str,
        a: &'a str,
        a_value: &'a A,
        b: &'a str,
        b_value: &'a B,
    ) -> Result<(), W::Error>
        ensures lays_out { LaysOut W.seen self.old (non_exhaustive_of name.now (fields_of
            ((a.now, A.document a_value.now) ∷ (b.now, B.document b_value.now) ∷ [])))
            (is_ok result) self.new }
        ensures alike { (other : List ℕ) (others : Fields) → bytes_eq other name.now ≡ true
            → SameFields others (fields_of ((a.now, A.document a_value.now)
            ∷ (b.now, B.document b_value.now) ∷ []))
            → LaysOut W.seen self.old (non_exhaustive_of other others) (is_ok result) self.new }
    {
        let fields = field_chain!(a: a_value, b: b_value,);
        self.non_exhaustive_of(name, &fields)
    }

    /// `non_exhaustive_of` with 3 fields.
    #[inline(always)]
    pub fn non_exhaustive_3<'a, A: uDebug, B: uDebug, C: uDebug>(
        &mut self,
        name: &str,
        a: &'a str,
        a_value: &'a A,
        b: &'a str,
        b_value: &'a B,
        c: &'a str,
        c_value: &'a C,
    ) -> Result<(), W::Error>
        ensures lays_out { LaysOut W.seen self.old (non_exhaustive_of name.now (fields_of
            ((a.now, A.document a_value.now) ∷ (b.now, B.document b_value.now)
            ∷ (c.now, C.document c_value.now) ∷ []))) (is_ok result) self.new }
        ensures alike { (other : List ℕ) (others : Fields) → bytes_eq other name.now ≡ true
            → SameFields others (fields_of ((a.now, A.document a_value.now)
            ∷ (b.now, B.document b_value.now) ∷ (c.now, C.document c_value.now) ∷ []))
            → LaysOut W.seen self.old (non_exhaustive_of other others) (is_ok result) self.new }
    {
        let fields = field_chain!(a: a_value, b: b_value, c: c_value,);
        self.non_exhaustive_of(name, &fields)
    }

    /// `non_exhaustive_of` with 4 fields.
    #[inline(always)]
    pub fn non_exhaustive_4<'a, A: uDebug, B: uDebug, C: uDebug, D: uDebug>(
        &mut self,
        name: &str,
        a: &'a str,
        a_value: &'a A,
        b: &'a str,
        b_value: &'a B,
        c: &'a str,
        c_value: &'a C,
        d: &'a str,
        d_value: &'a D,
    ) -> Result<(), W::Error>
        ensures lays_out { LaysOut W.seen self.old (non_exhaustive_of name.now (fields_of
            ((a.now, A.document a_value.now) ∷ (b.now, B.document b_value.now)
            ∷ (c.now, C.document c_value.now) ∷ (d.now, D.document d_value.now) ∷ [])))
            (is_ok result) self.new }
        ensures alike { (other : List ℕ) (others : Fields) → bytes_eq other name.now ≡ true
            → SameFields others (fields_of ((a.now, A.document a_value.now)
            ∷ (b.now, B.document b_value.now) ∷ (c.now, C.document c_value.now)
            ∷ (d.now, D.document d_value.now) ∷ []))
            → LaysOut W.seen self.old (non_exhaustive_of other others) (is_ok result) self.new }
    {
        let fields = field_chain!(a: a_value, b: b_value, c: c_value, d: d_value,);
        self.non_exhaustive_of(name, &fields)
    }

    /// `non_exhaustive_of` with 5 fields.
    #[inline(always)]
    pub fn non_exhaustive_5<'a, A: uDebug, B: uDebug, C: uDebug, D: uDebug, E: uDebug>(
        &mut self,
        name: &str,
        a: &'a str,
        a_value: &'a A,
        b: &'a str,
        b_value: &'a B,
        c: &'a str,
        c_value: &'a C,
        d: &'a str,
        d_value: &'a D,
        e: &'a str,
        e_value: &'a E,
    ) -> Result<(), W::Error>
        ensures lays_out { LaysOut W.seen self.old (non_exhaustive_of name.now (fields_of
            ((a.now, A.document a_value.now) ∷ (b.now, B.document b_value.now)
            ∷ (c.now, C.document c_value.now) ∷ (d.now, D.document d_value.now)
            ∷ (e.now, E.document e_value.now) ∷ []))) (is_ok result) self.new }
        ensures alike { (other : List ℕ) (others : Fields) → bytes_eq other name.now ≡ true
            → SameFields others (fields_of ((a.now, A.document a_value.now)
            ∷ (b.now, B.document b_value.now) ∷ (c.now, C.document c_value.now)
            ∷ (d.now, D.document d_value.now) ∷ (e.now, E.document e_value.now) ∷ []))
            → LaysOut W.seen self.old (non_exhaustive_of other others) (is_ok result) self.new }
    {
        let fields = field_chain!(a: a_value, b: b_value, c: c_value, d: d_value, e: e_value,);
        self.non_exhaustive_of(name, &fields)
    }

    /// `non_exhaustive_of` with 6 fields.
    #[inline(always)]
    pub fn non_exhaustive_6<'a, A: uDebug, B: uDebug, C: uDebug, D: uDebug, E: uDebug, F: uDebug>(
        &mut self,
        name: &str,
        a: &'a str,
        a_value: &'a A,
        b: &'a str,
        b_value: &'a B,
        c: &'a str,
        c_value: &'a C,
        d: &'a str,
        d_value: &'a D,
        e: &'a str,
        e_value: &'a E,
        f: &'a str,
        f_value: &'a F,
    ) -> Result<(), W::Error>
        ensures lays_out { LaysOut W.seen self.old (non_exhaustive_of name.now (fields_of
            ((a.now, A.document a_value.now) ∷ (b.now, B.document b_value.now)
            ∷ (c.now, C.document c_value.now) ∷ (d.now, D.document d_value.now)
            ∷ (e.now, E.document e_value.now) ∷ (f.now, F.document f_value.now) ∷ [])))
            (is_ok result) self.new }
        ensures alike { (other : List ℕ) (others : Fields) → bytes_eq other name.now ≡ true
            → SameFields others (fields_of ((a.now, A.document a_value.now)
            ∷ (b.now, B.document b_value.now) ∷ (c.now, C.document c_value.now)
            ∷ (d.now, D.document d_value.now) ∷ (e.now, E.document e_value.now)
            ∷ (f.now, F.document f_value.now) ∷ []))
            → LaysOut W.seen self.old (non_exhaustive_of other others) (is_ok result) self.new }
    {
        let fields = field_chain!(
            a: a_value, b: b_value, c: c_value, d: d_value, e: e_value, f: f_value,
        );
        self.non_exhaustive_of(name, &fields)
    }

    /// `non_exhaustive_of` with 7 fields.
    #[inline(always)]
    pub fn non_exhaustive_7<
        'a,
        A: uDebug,
        B: uDebug,
        C: uDebug,
        D: uDebug,
        E: uDebug,
        F: uDebug,
        G: uDebug,
    >(
        &mut self,
        name: &str,
        a: &'a str,
        a_value: &'a A,
        b: &'a str,
        b_value: &'a B,
        c: &'a str,
        c_value: &'a C,
        d: &'a str,
        d_value: &'a D,
        e: &'a str,
        e_value: &'a E,
        f: &'a str,
        f_value: &'a F,
        g: &'a str,
        g_value: &'a G,
    ) -> Result<(), W::Error>
        ensures lays_out { LaysOut W.seen self.old (non_exhaustive_of name.now (fields_of
            ((a.now, A.document a_value.now) ∷ (b.now, B.document b_value.now)
            ∷ (c.now, C.document c_value.now) ∷ (d.now, D.document d_value.now)
            ∷ (e.now, E.document e_value.now) ∷ (f.now, F.document f_value.now)
            ∷ (g.now, G.document g_value.now) ∷ []))) (is_ok result) self.new }
        ensures alike { (other : List ℕ) (others : Fields) → bytes_eq other name.now ≡ true
            → SameFields others (fields_of ((a.now, A.document a_value.now)
            ∷ (b.now, B.document b_value.now) ∷ (c.now, C.document c_value.now)
            ∷ (d.now, D.document d_value.now) ∷ (e.now, E.document e_value.now)
            ∷ (f.now, F.document f_value.now) ∷ (g.now, G.document g_value.now) ∷ []))
            → LaysOut W.seen self.old (non_exhaustive_of other others) (is_ok result) self.new }
    {
        let fields = field_chain!(
            a: a_value, b: b_value, c: c_value, d: d_value, e: e_value, f: f_value,
            g: g_value,
        );
        self.non_exhaustive_of(name, &fields)
    }

    /// `non_exhaustive_of` with 8 fields.
    #[inline(always)]
    pub fn non_exhaustive_8<
        'a,
        A: uDebug,
        B: uDebug,
        C: uDebug,
        D: uDebug,
        E: uDebug,
        F: uDebug,
        G: uDebug,
        H: uDebug,
    >(
        &mut self,
        name: &str,
        a: &'a str,
        a_value: &'a A,
        b: &'a str,
        b_value: &'a B,
        c: &'a str,
        c_value: &'a C,
        d: &'a str,
        d_value: &'a D,
        e: &'a str,
        e_value: &'a E,
        f: &'a str,
        f_value: &'a F,
        g: &'a str,
        g_value: &'a G,
        h: &'a str,
        h_value: &'a H,
    ) -> Result<(), W::Error>
        ensures lays_out { LaysOut W.seen self.old (non_exhaustive_of name.now (fields_of
            ((a.now, A.document a_value.now) ∷ (b.now, B.document b_value.now)
            ∷ (c.now, C.document c_value.now) ∷ (d.now, D.document d_value.now)
            ∷ (e.now, E.document e_value.now) ∷ (f.now, F.document f_value.now)
            ∷ (g.now, G.document g_value.now) ∷ (h.now, H.document h_value.now) ∷ [])))
            (is_ok result) self.new }
        ensures alike { (other : List ℕ) (others : Fields) → bytes_eq other name.now ≡ true
            → SameFields others (fields_of ((a.now, A.document a_value.now)
            ∷ (b.now, B.document b_value.now) ∷ (c.now, C.document c_value.now)
            ∷ (d.now, D.document d_value.now) ∷ (e.now, E.document e_value.now)
            ∷ (f.now, F.document f_value.now) ∷ (g.now, G.document g_value.now)
            ∷ (h.now, H.document h_value.now) ∷ []))
            → LaysOut W.seen self.old (non_exhaustive_of other others) (is_ok result) self.new }
    {
        let fields = field_chain!(
            a: a_value, b: b_value, c: c_value, d: d_value, e: e_value, f: f_value,
            g: g_value, h: h_value,
        );
        self.non_exhaustive_of(name, &fields)
    }

    /// `non_exhaustive_of` with 9 fields.
    #[inline(always)]
    pub fn non_exhaustive_9<
        'a,
        A: uDebug,
        B: uDebug,
        C: uDebug,
        D: uDebug,
        E: uDebug,
        F: uDebug,
        G: uDebug,
        H: uDebug,
        I: uDebug,
    >(
        &mut self,
        name: &str,
        a: &'a str,
        a_value: &'a A,
        b: &'a str,
        b_value: &'a B,
        c: &'a str,
        c_value: &'a C,
        d: &'a str,
        d_value: &'a D,
        e: &'a str,
        e_value: &'a E,
        f: &'a str,
        f_value: &'a F,
        g: &'a str,
        g_value: &'a G,
        h: &'a str,
        h_value: &'a H,
        i: &'a str,
        i_value: &'a I,
    ) -> Result<(), W::Error>
        ensures lays_out { LaysOut W.seen self.old (non_exhaustive_of name.now (fields_of
            ((a.now, A.document a_value.now) ∷ (b.now, B.document b_value.now)
            ∷ (c.now, C.document c_value.now) ∷ (d.now, D.document d_value.now)
            ∷ (e.now, E.document e_value.now) ∷ (f.now, F.document f_value.now)
            ∷ (g.now, G.document g_value.now) ∷ (h.now, H.document h_value.now)
            ∷ (i.now, I.document i_value.now) ∷ []))) (is_ok result) self.new }
        ensures alike { (other : List ℕ) (others : Fields) → bytes_eq other name.now ≡ true
            → SameFields others (fields_of ((a.now, A.document a_value.now)
            ∷ (b.now, B.document b_value.now) ∷ (c.now, C.document c_value.now)
            ∷ (d.now, D.document d_value.now) ∷ (e.now, E.document e_value.now)
            ∷ (f.now, F.document f_value.now) ∷ (g.now, G.document g_value.now)
            ∷ (h.now, H.document h_value.now) ∷ (i.now, I.document i_value.now) ∷ []))
            → LaysOut W.seen self.old (non_exhaustive_of other others) (is_ok result) self.new }
    {
        let fields = field_chain!(
            a: a_value, b: b_value, c: c_value, d: d_value, e: e_value, f: f_value,
            g: g_value, h: h_value, i: i_value,
        );
        self.non_exhaustive_of(name, &fields)
    }

    /// `non_exhaustive_of` with 10 fields.
    #[inline(always)]
    pub fn non_exhaustive_10<
        'a,
        A: uDebug,
        B: uDebug,
        C: uDebug,
        D: uDebug,
        E: uDebug,
        F: uDebug,
        G: uDebug,
        H: uDebug,
        I: uDebug,
        J: uDebug,
    >(
        &mut self,
        name: &str,
        a: &'a str,
        a_value: &'a A,
        b: &'a str,
        b_value: &'a B,
        c: &'a str,
        c_value: &'a C,
        d: &'a str,
        d_value: &'a D,
        e: &'a str,
        e_value: &'a E,
        f: &'a str,
        f_value: &'a F,
        g: &'a str,
        g_value: &'a G,
        h: &'a str,
        h_value: &'a H,
        i: &'a str,
        i_value: &'a I,
        j: &'a str,
        j_value: &'a J,
    ) -> Result<(), W::Error>
        ensures lays_out { LaysOut W.seen self.old (non_exhaustive_of name.now (fields_of
            ((a.now, A.document a_value.now) ∷ (b.now, B.document b_value.now)
            ∷ (c.now, C.document c_value.now) ∷ (d.now, D.document d_value.now)
            ∷ (e.now, E.document e_value.now) ∷ (f.now, F.document f_value.now)
            ∷ (g.now, G.document g_value.now) ∷ (h.now, H.document h_value.now)
            ∷ (i.now, I.document i_value.now) ∷ (j.now, J.document j_value.now) ∷ [])))
            (is_ok result) self.new }
        ensures alike { (other : List ℕ) (others : Fields) → bytes_eq other name.now ≡ true
            → SameFields others (fields_of ((a.now, A.document a_value.now)
            ∷ (b.now, B.document b_value.now) ∷ (c.now, C.document c_value.now)
            ∷ (d.now, D.document d_value.now) ∷ (e.now, E.document e_value.now)
            ∷ (f.now, F.document f_value.now) ∷ (g.now, G.document g_value.now)
            ∷ (h.now, H.document h_value.now) ∷ (i.now, I.document i_value.now)
            ∷ (j.now, J.document j_value.now) ∷ []))
            → LaysOut W.seen self.old (non_exhaustive_of other others) (is_ok result) self.new }
    {
        let fields = field_chain!(
            a: a_value, b: b_value, c: c_value, d: d_value, e: e_value, f: f_value,
            g: g_value, h: h_value, i: i_value, j: j_value,
        );
        self.non_exhaustive_of(name, &fields)
    }

    /// `non_exhaustive_of` with 11 fields.
    #[inline(always)]
    pub fn non_exhaustive_11<
        'a,
        A: uDebug,
        B: uDebug,
        C: uDebug,
        D: uDebug,
        E: uDebug,
        F: uDebug,
        G: uDebug,
        H: uDebug,
        I: uDebug,
        J: uDebug,
        K: uDebug,
    >(
        &mut self,
        name: &str,
        a: &'a str,
        a_value: &'a A,
        b: &'a str,
        b_value: &'a B,
        c: &'a str,
        c_value: &'a C,
        d: &'a str,
        d_value: &'a D,
        e: &'a str,
        e_value: &'a E,
        f: &'a str,
        f_value: &'a F,
        g: &'a str,
        g_value: &'a G,
        h: &'a str,
        h_value: &'a H,
        i: &'a str,
        i_value: &'a I,
        j: &'a str,
        j_value: &'a J,
        k: &'a str,
        k_value: &'a K,
    ) -> Result<(), W::Error>
        ensures lays_out { LaysOut W.seen self.old (non_exhaustive_of name.now (fields_of
            ((a.now, A.document a_value.now) ∷ (b.now, B.document b_value.now)
            ∷ (c.now, C.document c_value.now) ∷ (d.now, D.document d_value.now)
            ∷ (e.now, E.document e_value.now) ∷ (f.now, F.document f_value.now)
            ∷ (g.now, G.document g_value.now) ∷ (h.now, H.document h_value.now)
            ∷ (i.now, I.document i_value.now) ∷ (j.now, J.document j_value.now)
            ∷ (k.now, K.document k_value.now) ∷ []))) (is_ok result) self.new }
        ensures alike { (other : List ℕ) (others : Fields) → bytes_eq other name.now ≡ true
            → SameFields others (fields_of ((a.now, A.document a_value.now)
            ∷ (b.now, B.document b_value.now) ∷ (c.now, C.document c_value.now)
            ∷ (d.now, D.document d_value.now) ∷ (e.now, E.document e_value.now)
            ∷ (f.now, F.document f_value.now) ∷ (g.now, G.document g_value.now)
            ∷ (h.now, H.document h_value.now) ∷ (i.now, I.document i_value.now)
            ∷ (j.now, J.document j_value.now) ∷ (k.now, K.document k_value.now) ∷ []))
            → LaysOut W.seen self.old (non_exhaustive_of other others) (is_ok result) self.new }
    {
        let fields = field_chain!(
            a: a_value, b: b_value, c: c_value, d: d_value, e: e_value, f: f_value,
            g: g_value, h: h_value, i: i_value, j: j_value, k: k_value,
        );
        self.non_exhaustive_of(name, &fields)
    }

    /// `non_exhaustive_of` with 12 fields.
    #[inline(always)]
    pub fn non_exhaustive_12<
        'a,
        A: uDebug,
        B: uDebug,
        C: uDebug,
        D: uDebug,
        E: uDebug,
        F: uDebug,
        G: uDebug,
        H: uDebug,
        I: uDebug,
        J: uDebug,
        K: uDebug,
        L: uDebug,
    >(
        &mut self,
        name: &str,
        a: &'a str,
        a_value: &'a A,
        b: &'a str,
        b_value: &'a B,
        c: &'a str,
        c_value: &'a C,
        d: &'a str,
        d_value: &'a D,
        e: &'a str,
        e_value: &'a E,
        f: &'a str,
        f_value: &'a F,
        g: &'a str,
        g_value: &'a G,
        h: &'a str,
        h_value: &'a H,
        i: &'a str,
        i_value: &'a I,
        j: &'a str,
        j_value: &'a J,
        k: &'a str,
        k_value: &'a K,
        l: &'a str,
        l_value: &'a L,
    ) -> Result<(), W::Error>
        ensures lays_out { LaysOut W.seen self.old (non_exhaustive_of name.now (fields_of
            ((a.now, A.document a_value.now) ∷ (b.now, B.document b_value.now)
            ∷ (c.now, C.document c_value.now) ∷ (d.now, D.document d_value.now)
            ∷ (e.now, E.document e_value.now) ∷ (f.now, F.document f_value.now)
            ∷ (g.now, G.document g_value.now) ∷ (h.now, H.document h_value.now)
            ∷ (i.now, I.document i_value.now) ∷ (j.now, J.document j_value.now)
            ∷ (k.now, K.document k_value.now) ∷ (l.now, L.document l_value.now) ∷ [])))
            (is_ok result) self.new }
        ensures alike { (other : List ℕ) (others : Fields) → bytes_eq other name.now ≡ true
            → SameFields others (fields_of ((a.now, A.document a_value.now)
            ∷ (b.now, B.document b_value.now) ∷ (c.now, C.document c_value.now)
            ∷ (d.now, D.document d_value.now) ∷ (e.now, E.document e_value.now)
            ∷ (f.now, F.document f_value.now) ∷ (g.now, G.document g_value.now)
            ∷ (h.now, H.document h_value.now) ∷ (i.now, I.document i_value.now)
            ∷ (j.now, J.document j_value.now) ∷ (k.now, K.document k_value.now)
            ∷ (l.now, L.document l_value.now) ∷ []))
            → LaysOut W.seen self.old (non_exhaustive_of other others) (is_ok result) self.new }
    {
        let fields = field_chain!(
            a: a_value, b: b_value, c: c_value, d: d_value, e: e_value, f: f_value,
            g: g_value, h: h_value, i: i_value, j: j_value, k: k_value, l: l_value,
        );
        self.non_exhaustive_of(name, &fields)
    }
}
