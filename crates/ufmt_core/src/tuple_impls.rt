//! Tuples of one to twelve. `x generate` writes this file: change its template in tools/data/by_count.
ghost use Rattle.std.specs.Prelude.{[], ◌∷◌};
ghost use Rattle.ufmt_core.specs.Document.{documents, tuple_of};

use crate::formatter::Formatter;
use crate::uDebug;
use crate::write::uWrite;

impl<A: uDebug> uDebug for (A,) {
    ghost document = { λ t. tuple_of [] (documents (A.document t.0 ∷ [])) };

    fn fmt<W: uWrite>(&self, f: &mut Formatter<W>) -> Result<(), W::Error> {
        f.tuple_1("", &self.0)
    }
}

impl<A: uDebug, B: uDebug> uDebug for (A, B) {
    ghost document = { λ t. tuple_of [] (documents (A.document t.0 ∷ B.document t.1 ∷ [])) };

    fn fmt<W: uWrite>(&self, f: &mut Formatter<W>) -> Result<(), W::Error> {
        f.tuple_2("", &self.0, &self.1)
    }
}

impl<A: uDebug, B: uDebug, C: uDebug> uDebug for (A, B, C) {
    ghost document = { λ t. tuple_of [] (documents (A.document t.0 ∷ B.document t.1 ∷ C.document t.2
        ∷ [])) };

    fn fmt<W: uWrite>(&self, f: &mut Formatter<W>) -> Result<(), W::Error> {
        f.tuple_3("", &self.0, &self.1, &self.2)
    }
}

impl<A: uDebug, B: uDebug, C: uDebug, D: uDebug> uDebug for (A, B, C, D) {
    ghost document = { λ t. tuple_of [] (documents (A.document t.0 ∷ B.document t.1 ∷ C.document t.2
        ∷ D.document t.3 ∷ [])) };

    fn fmt<W: uWrite>(&self, f: &mut Formatter<W>) -> Result<(), W::Error> {
        f.tuple_4("", &self.0, &self.1, &self.2, &self.3)
    }
}

impl<A: uDebug, B: uDebug, C: uDebug, D: uDebug, E: uDebug> uDebug for (A, B, C, D, E) {
    ghost document = { λ t. tuple_of [] (documents (A.document t.0 ∷ B.document t.1 ∷ C.document t.2
        ∷ D.document t.3 ∷ E.document t.4 ∷ [])) };

    fn fmt<W: uWrite>(&self, f: &mut Formatter<W>) -> Result<(), W::Error> {
        f.tuple_5("", &self.0, &self.1, &self.2, &self.3, &self.4)
    }
}

impl<A: uDebug, B: uDebug, C: uDebug, D: uDebug, E: uDebug, F: uDebug> uDebug
    for (A, B, C, D, E, F) {
    ghost document = { λ t. tuple_of [] (documents (A.document t.0 ∷ B.document t.1 ∷ C.document t.2
        ∷ D.document t.3 ∷ E.document t.4 ∷ F.document t.5 ∷ [])) };

    fn fmt<W: uWrite>(&self, f: &mut Formatter<W>) -> Result<(), W::Error> {
        f.tuple_6("", &self.0, &self.1, &self.2, &self.3, &self.4, &self.5)
    }
}

impl<A: uDebug, B: uDebug, C: uDebug, D: uDebug, E: uDebug, F: uDebug, G: uDebug> uDebug
    for (A, B, C, D, E, F, G) {
    ghost document = { λ t. tuple_of [] (documents (A.document t.0 ∷ B.document t.1 ∷ C.document t.2
        ∷ D.document t.3 ∷ E.document t.4 ∷ F.document t.5 ∷ G.document t.6 ∷ [])) };

    fn fmt<W: uWrite>(&self, f: &mut Formatter<W>) -> Result<(), W::Error> {
        f.tuple_7(
            "", &self.0, &self.1, &self.2, &self.3, &self.4, &self.5, &self.6,
        )
    }
}

impl<A: uDebug, B: uDebug, C: uDebug, D: uDebug, E: uDebug, F: uDebug, G: uDebug, H: uDebug> uDebug
    for (A, B, C, D, E, F, G, H) {
    ghost document = { λ t. tuple_of [] (documents (A.document t.0 ∷ B.document t.1 ∷ C.document t.2
        ∷ D.document t.3 ∷ E.document t.4 ∷ F.document t.5 ∷ G.document t.6 ∷ H.document t.7
        ∷ [])) };

    fn fmt<W: uWrite>(&self, f: &mut Formatter<W>) -> Result<(), W::Error> {
        f.tuple_8(
            "", &self.0, &self.1, &self.2, &self.3, &self.4, &self.5, &self.6, &self.7,
        )
    }
}

impl<
    A: uDebug,
    B: uDebug,
    C: uDebug,
    D: uDebug,
    E: uDebug,
    F: uDebug,
    G: uDebug,
    H: uDebug,
    I: uDebug,
> uDebug for (A, B, C, D, E, F, G, H, I) {
    ghost document = { λ t. tuple_of [] (documents (A.document t.0 ∷ B.document t.1 ∷ C.document t.2
        ∷ D.document t.3 ∷ E.document t.4 ∷ F.document t.5 ∷ G.document t.6 ∷ H.document t.7
        ∷ I.document t.8 ∷ [])) };

    fn fmt<W: uWrite>(&self, f: &mut Formatter<W>) -> Result<(), W::Error> {
        f.tuple_9(
            "", &self.0, &self.1, &self.2, &self.3, &self.4, &self.5, &self.6, &self.7, &self.8,
        )
    }
}

impl<
    A: uDebug,
    B: uDebug,
    C: uDebug,
    D: uDebug,
    E: uDebug,
    F: uDebug,
    G: uDebug,
    H: uDebug,
    I: uDebug,
    J: uDebug,
> uDebug for (A, B, C, D, E, F, G, H, I, J) {
    ghost document = { λ t. tuple_of [] (documents (A.document t.0 ∷ B.document t.1 ∷ C.document t.2
        ∷ D.document t.3 ∷ E.document t.4 ∷ F.document t.5 ∷ G.document t.6 ∷ H.document t.7
        ∷ I.document t.8 ∷ J.document t.9 ∷ [])) };

    fn fmt<W: uWrite>(&self, f: &mut Formatter<W>) -> Result<(), W::Error> {
        f.tuple_10(
            "", &self.0, &self.1, &self.2, &self.3, &self.4, &self.5, &self.6, &self.7, &self.8,
            &self.9,
        )
    }
}

impl<
    A: uDebug,
    B: uDebug,
    C: uDebug,
    D: uDebug,
    E: uDebug,
    F: uDebug,
    G: uDebug,
    H: uDebug,
    I: uDebug,
    J: uDebug,
    K: uDebug,
> uDebug for (A, B, C, D, E, F, G, H, I, J, K) {
    ghost document = { λ t. tuple_of [] (documents (A.document t.0 ∷ B.document t.1 ∷ C.document t.2
        ∷ D.document t.3 ∷ E.document t.4 ∷ F.document t.5 ∷ G.document t.6 ∷ H.document t.7
        ∷ I.document t.8 ∷ J.document t.9 ∷ K.document t.10 ∷ [])) };

    fn fmt<W: uWrite>(&self, f: &mut Formatter<W>) -> Result<(), W::Error> {
        f.tuple_11(
            "", &self.0, &self.1, &self.2, &self.3, &self.4, &self.5, &self.6, &self.7, &self.8,
            &self.9, &self.10,
        )
    }
}

impl<
    A: uDebug,
    B: uDebug,
    C: uDebug,
    D: uDebug,
    E: uDebug,
    F: uDebug,
    G: uDebug,
    H: uDebug,
    I: uDebug,
    J: uDebug,
    K: uDebug,
    L: uDebug,
> uDebug for (A, B, C, D, E, F, G, H, I, J, K, L) {
    ghost document = { λ t. tuple_of [] (documents (A.document t.0 ∷ B.document t.1 ∷ C.document t.2
        ∷ D.document t.3 ∷ E.document t.4 ∷ F.document t.5 ∷ G.document t.6 ∷ H.document t.7
        ∷ I.document t.8 ∷ J.document t.9 ∷ K.document t.10 ∷ L.document t.11 ∷ [])) };

    fn fmt<W: uWrite>(&self, f: &mut Formatter<W>) -> Result<(), W::Error> {
        f.tuple_12(
            "", &self.0, &self.1, &self.2, &self.3, &self.4, &self.5, &self.6, &self.7, &self.8,
            &self.9, &self.10, &self.11,
        )
    }
}
