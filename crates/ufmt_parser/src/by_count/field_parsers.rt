//! Tuples of one to 12 parsers, each of a field. `x generate` writes this file: change its template in tools/data/by_count.
ghost use Rattle.std.specs.Prelude.{[], ◌∷◌, ⊤};

use crate::fields::{FieldParsers, parse_first};
use crate::mode::ParseMode;
use crate::parser::{Fault, Parser};
use crate::parses_by::ParsesBy;
use ufmt_core::layout::{Count, Kind};
use ufmt_core::uDebug;

impl<'p, Alloc: Copy, M: ParseMode, A: uDebug + Drop, P: ParsesBy<Alloc, M, A>> FieldParsers<
    Alloc,
    M,
    (A,),
> for (&'p P,) {
    ghost is_value = { λ v. P.is_value v.0 × ⊤ };

    ghost holds_no_memory = { P.holds_no_memory × ⊤ };

    ghost documents = { λ v. A.document v.0 ∷ [] };

    ghost ready = { λ fields blocks. P.ready fields.0.now blocks };

    #[inline(always)]
    fn parse_rest(
        &self,
        alloc: Alloc,
        parser: &mut Parser<'_, M>,
        kind: Kind,
        count: Count,
        names: &[&'static str],
    ) -> Result<(A,), Fault> {
        let (a, ()) = tri!(parse_first(alloc, parser, kind, count, names, self.0, &()));
        Ok((a,))
    }
}

impl<
    'p,
    Alloc: Copy,
    M: ParseMode,
    A: uDebug + Drop,
    B: uDebug + Drop,
    P: ParsesBy<Alloc, M, A>,
    Q: ParsesBy<Alloc, M, B>,
> FieldParsers<Alloc, M, (A, B)> for (&'p P, &'p Q) {
    ghost is_value = { λ v. P.is_value v.0 × (Q.is_value v.1 × ⊤) };

    ghost holds_no_memory = { P.holds_no_memory × (Q.holds_no_memory × ⊤) };

    ghost documents = { λ v. A.document v.0 ∷ B.document v.1 ∷ [] };

    ghost ready = { λ fields blocks. P.ready fields.0.now blocks × Q.ready fields.1.now blocks };

    #[inline(always)]
    fn parse_rest(
        &self,
        alloc: Alloc,
        parser: &mut Parser<'_, M>,
        kind: Kind,
        count: Count,
        names: &[&'static str],
    ) -> Result<(A, B), Fault> {
        let (a, (b,)) = tri!(parse_first(alloc, parser, kind, count, names, self.0, &(self.1,)));
        Ok((a, b))
    }
}

impl<
    'p,
    Alloc: Copy,
    M: ParseMode,
    A: uDebug + Drop,
    B: uDebug + Drop,
    C: uDebug + Drop,
    P: ParsesBy<Alloc, M, A>,
    Q: ParsesBy<Alloc, M, B>,
    R: ParsesBy<Alloc, M, C>,
> FieldParsers<Alloc, M, (A, B, C)> for (&'p P, &'p Q, &'p R) {
    ghost is_value = { λ v. P.is_value v.0 × (Q.is_value v.1 × (R.is_value v.2 × ⊤)) };

    ghost holds_no_memory = { P.holds_no_memory × (Q.holds_no_memory × (R.holds_no_memory × ⊤)) };

    ghost documents = { λ v. A.document v.0 ∷ B.document v.1 ∷ C.document v.2 ∷ [] };

    ghost ready = { λ fields blocks. P.ready fields.0.now blocks × Q.ready fields.1.now blocks × R.ready fields.2.now blocks };

    #[inline(always)]
    fn parse_rest(
        &self,
        alloc: Alloc,
        parser: &mut Parser<'_, M>,
        kind: Kind,
        count: Count,
        names: &[&'static str],
    ) -> Result<(A, B, C), Fault> {
        let (a, (b, c)) = tri!(parse_first(
            alloc,
            parser,
            kind,
            count,
            names,
            self.0,
            &(self.1, self.2)
        ));
        Ok((a, b, c))
    }
}

impl<
    'p,
    Alloc: Copy,
    M: ParseMode,
    A: uDebug + Drop,
    B: uDebug + Drop,
    C: uDebug + Drop,
    D: uDebug + Drop,
    P: ParsesBy<Alloc, M, A>,
    Q: ParsesBy<Alloc, M, B>,
    R: ParsesBy<Alloc, M, C>,
    S: ParsesBy<Alloc, M, D>,
> FieldParsers<Alloc, M, (A, B, C, D)> for (&'p P, &'p Q, &'p R, &'p S) {
    ghost is_value = { λ v. P.is_value v.0 × (Q.is_value v.1 × (R.is_value v.2 × (S.is_value v.3 × ⊤))) };

    ghost holds_no_memory = { P.holds_no_memory × (Q.holds_no_memory × (R.holds_no_memory × (S.holds_no_memory × ⊤))) };

    ghost documents = { λ v. A.document v.0 ∷ B.document v.1 ∷ C.document v.2 ∷ D.document v.3 ∷ [] };

    ghost ready = { λ fields blocks. P.ready fields.0.now blocks × Q.ready fields.1.now blocks × R.ready fields.2.now blocks × S.ready fields.3.now blocks };

    #[inline(always)]
    fn parse_rest(
        &self,
        alloc: Alloc,
        parser: &mut Parser<'_, M>,
        kind: Kind,
        count: Count,
        names: &[&'static str],
    ) -> Result<(A, B, C, D), Fault> {
        let (a, (b, c, d)) = tri!(parse_first(
            alloc,
            parser,
            kind,
            count,
            names,
            self.0,
            &(self.1, self.2, self.3)
        ));
        Ok((a, b, c, d))
    }
}

impl<
    'p,
    Alloc: Copy,
    M: ParseMode,
    A: uDebug + Drop,
    B: uDebug + Drop,
    C: uDebug + Drop,
    D: uDebug + Drop,
    E: uDebug + Drop,
    P: ParsesBy<Alloc, M, A>,
    Q: ParsesBy<Alloc, M, B>,
    R: ParsesBy<Alloc, M, C>,
    S: ParsesBy<Alloc, M, D>,
    T: ParsesBy<Alloc, M, E>,
> FieldParsers<Alloc, M, (A, B, C, D, E)> for (&'p P, &'p Q, &'p R, &'p S, &'p T) {
    ghost is_value = { λ v. P.is_value v.0 × (Q.is_value v.1 × (R.is_value v.2 × (S.is_value v.3 × (T.is_value v.4 × ⊤)))) };

    ghost holds_no_memory = { P.holds_no_memory × (Q.holds_no_memory × (R.holds_no_memory × (S.holds_no_memory × (T.holds_no_memory × ⊤)))) };

    ghost documents = { λ v. A.document v.0 ∷ B.document v.1 ∷ C.document v.2 ∷ D.document v.3 ∷ E.document v.4 ∷ [] };

    ghost ready = { λ fields blocks. P.ready fields.0.now blocks × Q.ready fields.1.now blocks × R.ready fields.2.now blocks × S.ready fields.3.now blocks × T.ready fields.4.now blocks };

    #[inline(always)]
    fn parse_rest(
        &self,
        alloc: Alloc,
        parser: &mut Parser<'_, M>,
        kind: Kind,
        count: Count,
        names: &[&'static str],
    ) -> Result<(A, B, C, D, E), Fault> {
        let (a, (b, c, d, e)) = tri!(parse_first(
            alloc,
            parser,
            kind,
            count,
            names,
            self.0,
            &(self.1, self.2, self.3, self.4)
        ));
        Ok((a, b, c, d, e))
    }
}

impl<
    'p,
    Alloc: Copy,
    M: ParseMode,
    A: uDebug + Drop,
    B: uDebug + Drop,
    C: uDebug + Drop,
    D: uDebug + Drop,
    E: uDebug + Drop,
    F: uDebug + Drop,
    P: ParsesBy<Alloc, M, A>,
    Q: ParsesBy<Alloc, M, B>,
    R: ParsesBy<Alloc, M, C>,
    S: ParsesBy<Alloc, M, D>,
    T: ParsesBy<Alloc, M, E>,
    U: ParsesBy<Alloc, M, F>,
> FieldParsers<Alloc, M, (A, B, C, D, E, F)> for (&'p P, &'p Q, &'p R, &'p S, &'p T, &'p U) {
    ghost is_value = { λ v. P.is_value v.0 × (Q.is_value v.1 × (R.is_value v.2 × (S.is_value v.3 × (T.is_value v.4 × (U.is_value v.5 × ⊤))))) };

    ghost holds_no_memory = { P.holds_no_memory × (Q.holds_no_memory × (R.holds_no_memory × (S.holds_no_memory × (T.holds_no_memory × (U.holds_no_memory × ⊤))))) };

    ghost documents = { λ v. A.document v.0 ∷ B.document v.1 ∷ C.document v.2 ∷ D.document v.3 ∷ E.document v.4 ∷ F.document v.5 ∷ [] };

    ghost ready = { λ fields blocks. P.ready fields.0.now blocks × Q.ready fields.1.now blocks × R.ready fields.2.now blocks × S.ready fields.3.now blocks × T.ready fields.4.now blocks × U.ready fields.5.now blocks };

    #[inline(always)]
    fn parse_rest(
        &self,
        alloc: Alloc,
        parser: &mut Parser<'_, M>,
        kind: Kind,
        count: Count,
        names: &[&'static str],
    ) -> Result<(A, B, C, D, E, F), Fault> {
        let (a, (b, c, d, e, f)) = tri!(parse_first(
            alloc,
            parser,
            kind,
            count,
            names,
            self.0,
            &(self.1, self.2, self.3, self.4, self.5)
        ));
        Ok((a, b, c, d, e, f))
    }
}

impl<
    'p,
    Alloc: Copy,
    M: ParseMode,
    A: uDebug + Drop,
    B: uDebug + Drop,
    C: uDebug + Drop,
    D: uDebug + Drop,
    E: uDebug + Drop,
    F: uDebug + Drop,
    G: uDebug + Drop,
    P: ParsesBy<Alloc, M, A>,
    Q: ParsesBy<Alloc, M, B>,
    R: ParsesBy<Alloc, M, C>,
    S: ParsesBy<Alloc, M, D>,
    T: ParsesBy<Alloc, M, E>,
    U: ParsesBy<Alloc, M, F>,
    V: ParsesBy<Alloc, M, G>,
> FieldParsers<Alloc, M, (A, B, C, D, E, F, G)>
    for (&'p P, &'p Q, &'p R, &'p S, &'p T, &'p U, &'p V) {
    ghost is_value = { λ v. P.is_value v.0 × (Q.is_value v.1 × (R.is_value v.2 × (S.is_value v.3 × (T.is_value v.4 × (U.is_value v.5 × (V.is_value v.6 × ⊤)))))) };

    ghost holds_no_memory = { P.holds_no_memory × (Q.holds_no_memory × (R.holds_no_memory × (S.holds_no_memory × (T.holds_no_memory × (U.holds_no_memory × (V.holds_no_memory × ⊤)))))) };

    ghost documents = { λ v. A.document v.0 ∷ B.document v.1 ∷ C.document v.2 ∷ D.document v.3 ∷ E.document v.4 ∷ F.document v.5 ∷ G.document v.6 ∷ [] };

    ghost ready = { λ fields blocks. P.ready fields.0.now blocks × Q.ready fields.1.now blocks × R.ready fields.2.now blocks × S.ready fields.3.now blocks × T.ready fields.4.now blocks × U.ready fields.5.now blocks × V.ready fields.6.now blocks };

    #[inline(always)]
    fn parse_rest(
        &self,
        alloc: Alloc,
        parser: &mut Parser<'_, M>,
        kind: Kind,
        count: Count,
        names: &[&'static str],
    ) -> Result<(A, B, C, D, E, F, G), Fault> {
        let (a, (b, c, d, e, f, g)) = tri!(parse_first(
            alloc,
            parser,
            kind,
            count,
            names,
            self.0,
            &(self.1, self.2, self.3, self.4, self.5, self.6)
        ));
        Ok((a, b, c, d, e, f, g))
    }
}

impl<
    'p,
    Alloc: Copy,
    M: ParseMode,
    A: uDebug + Drop,
    B: uDebug + Drop,
    C: uDebug + Drop,
    D: uDebug + Drop,
    E: uDebug + Drop,
    F: uDebug + Drop,
    G: uDebug + Drop,
    H: uDebug + Drop,
    P: ParsesBy<Alloc, M, A>,
    Q: ParsesBy<Alloc, M, B>,
    R: ParsesBy<Alloc, M, C>,
    S: ParsesBy<Alloc, M, D>,
    T: ParsesBy<Alloc, M, E>,
    U: ParsesBy<Alloc, M, F>,
    V: ParsesBy<Alloc, M, G>,
    W: ParsesBy<Alloc, M, H>,
> FieldParsers<Alloc, M, (A, B, C, D, E, F, G, H)>
    for (&'p P, &'p Q, &'p R, &'p S, &'p T, &'p U, &'p V, &'p W) {
    ghost is_value = { λ v. P.is_value v.0 × (Q.is_value v.1 × (R.is_value v.2 × (S.is_value v.3 × (T.is_value v.4 × (U.is_value v.5 × (V.is_value v.6 × (W.is_value v.7 × ⊤))))))) };

    ghost holds_no_memory = { P.holds_no_memory × (Q.holds_no_memory × (R.holds_no_memory × (S.holds_no_memory × (T.holds_no_memory × (U.holds_no_memory × (V.holds_no_memory × (W.holds_no_memory × ⊤))))))) };

    ghost documents = { λ v. A.document v.0 ∷ B.document v.1 ∷ C.document v.2 ∷ D.document v.3 ∷ E.document v.4 ∷ F.document v.5 ∷ G.document v.6 ∷ H.document v.7 ∷ [] };

    ghost ready = { λ fields blocks. P.ready fields.0.now blocks × Q.ready fields.1.now blocks × R.ready fields.2.now blocks × S.ready fields.3.now blocks × T.ready fields.4.now blocks × U.ready fields.5.now blocks × V.ready fields.6.now blocks × W.ready fields.7.now blocks };

    #[inline(always)]
    fn parse_rest(
        &self,
        alloc: Alloc,
        parser: &mut Parser<'_, M>,
        kind: Kind,
        count: Count,
        names: &[&'static str],
    ) -> Result<(A, B, C, D, E, F, G, H), Fault> {
        let (a, (b, c, d, e, f, g, h)) = tri!(parse_first(
            alloc,
            parser,
            kind,
            count,
            names,
            self.0,
            &(self.1, self.2, self.3, self.4, self.5, self.6, self.7)
        ));
        Ok((a, b, c, d, e, f, g, h))
    }
}

impl<
    'p,
    Alloc: Copy,
    M: ParseMode,
    A: uDebug + Drop,
    B: uDebug + Drop,
    C: uDebug + Drop,
    D: uDebug + Drop,
    E: uDebug + Drop,
    F: uDebug + Drop,
    G: uDebug + Drop,
    H: uDebug + Drop,
    I: uDebug + Drop,
    P: ParsesBy<Alloc, M, A>,
    Q: ParsesBy<Alloc, M, B>,
    R: ParsesBy<Alloc, M, C>,
    S: ParsesBy<Alloc, M, D>,
    T: ParsesBy<Alloc, M, E>,
    U: ParsesBy<Alloc, M, F>,
    V: ParsesBy<Alloc, M, G>,
    W: ParsesBy<Alloc, M, H>,
    X: ParsesBy<Alloc, M, I>,
> FieldParsers<Alloc, M, (A, B, C, D, E, F, G, H, I)>
    for (
        &'p P,
        &'p Q,
        &'p R,
        &'p S,
        &'p T,
        &'p U,
        &'p V,
        &'p W,
        &'p X,
    ) {
    ghost is_value = { λ v. P.is_value v.0 × (Q.is_value v.1 × (R.is_value v.2 × (S.is_value v.3 × (T.is_value v.4 × (U.is_value v.5 × (V.is_value v.6 × (W.is_value v.7 × (X.is_value v.8 × ⊤)))))))) };

    ghost holds_no_memory = { P.holds_no_memory × (Q.holds_no_memory × (R.holds_no_memory × (S.holds_no_memory × (T.holds_no_memory × (U.holds_no_memory × (V.holds_no_memory × (W.holds_no_memory × (X.holds_no_memory × ⊤)))))))) };

    ghost documents = { λ v. A.document v.0 ∷ B.document v.1 ∷ C.document v.2 ∷ D.document v.3 ∷ E.document v.4 ∷ F.document v.5 ∷ G.document v.6 ∷ H.document v.7 ∷ I.document v.8 ∷ [] };

    ghost ready = { λ fields blocks. P.ready fields.0.now blocks × Q.ready fields.1.now blocks × R.ready fields.2.now blocks × S.ready fields.3.now blocks × T.ready fields.4.now blocks × U.ready fields.5.now blocks × V.ready fields.6.now blocks × W.ready fields.7.now blocks × X.ready fields.8.now blocks };

    #[inline(always)]
    fn parse_rest(
        &self,
        alloc: Alloc,
        parser: &mut Parser<'_, M>,
        kind: Kind,
        count: Count,
        names: &[&'static str],
    ) -> Result<(A, B, C, D, E, F, G, H, I), Fault> {
        let (a, (b, c, d, e, f, g, h, i)) = tri!(parse_first(
            alloc,
            parser,
            kind,
            count,
            names,
            self.0,
            &(
                self.1, self.2, self.3, self.4, self.5, self.6, self.7, self.8
            )
        ));
        Ok((a, b, c, d, e, f, g, h, i))
    }
}

impl<
    'p,
    Alloc: Copy,
    M: ParseMode,
    A: uDebug + Drop,
    B: uDebug + Drop,
    C: uDebug + Drop,
    D: uDebug + Drop,
    E: uDebug + Drop,
    F: uDebug + Drop,
    G: uDebug + Drop,
    H: uDebug + Drop,
    I: uDebug + Drop,
    J: uDebug + Drop,
    P: ParsesBy<Alloc, M, A>,
    Q: ParsesBy<Alloc, M, B>,
    R: ParsesBy<Alloc, M, C>,
    S: ParsesBy<Alloc, M, D>,
    T: ParsesBy<Alloc, M, E>,
    U: ParsesBy<Alloc, M, F>,
    V: ParsesBy<Alloc, M, G>,
    W: ParsesBy<Alloc, M, H>,
    X: ParsesBy<Alloc, M, I>,
    Y: ParsesBy<Alloc, M, J>,
> FieldParsers<Alloc, M, (A, B, C, D, E, F, G, H, I, J)>
    for (
        &'p P,
        &'p Q,
        &'p R,
        &'p S,
        &'p T,
        &'p U,
        &'p V,
        &'p W,
        &'p X,
        &'p Y,
    ) {
    ghost is_value = { λ v. P.is_value v.0 × (Q.is_value v.1 × (R.is_value v.2 × (S.is_value v.3 × (T.is_value v.4 × (U.is_value v.5 × (V.is_value v.6 × (W.is_value v.7 × (X.is_value v.8 × (Y.is_value v.9 × ⊤))))))))) };

    ghost holds_no_memory = { P.holds_no_memory × (Q.holds_no_memory × (R.holds_no_memory × (S.holds_no_memory × (T.holds_no_memory × (U.holds_no_memory × (V.holds_no_memory × (W.holds_no_memory × (X.holds_no_memory × (Y.holds_no_memory × ⊤))))))))) };

    ghost documents = { λ v. A.document v.0 ∷ B.document v.1 ∷ C.document v.2 ∷ D.document v.3 ∷ E.document v.4 ∷ F.document v.5 ∷ G.document v.6 ∷ H.document v.7 ∷ I.document v.8 ∷ J.document v.9 ∷ [] };

    ghost ready = { λ fields blocks. P.ready fields.0.now blocks × Q.ready fields.1.now blocks × R.ready fields.2.now blocks × S.ready fields.3.now blocks × T.ready fields.4.now blocks × U.ready fields.5.now blocks × V.ready fields.6.now blocks × W.ready fields.7.now blocks × X.ready fields.8.now blocks × Y.ready fields.9.now blocks };

    #[inline(always)]
    fn parse_rest(
        &self,
        alloc: Alloc,
        parser: &mut Parser<'_, M>,
        kind: Kind,
        count: Count,
        names: &[&'static str],
    ) -> Result<(A, B, C, D, E, F, G, H, I, J), Fault> {
        let (a, (b, c, d, e, f, g, h, i, j)) = tri!(parse_first(
            alloc,
            parser,
            kind,
            count,
            names,
            self.0,
            &(
                self.1, self.2, self.3, self.4, self.5, self.6, self.7, self.8, self.9
            )
        ));
        Ok((a, b, c, d, e, f, g, h, i, j))
    }
}

impl<
    'p,
    Alloc: Copy,
    M: ParseMode,
    A: uDebug + Drop,
    B: uDebug + Drop,
    C: uDebug + Drop,
    D: uDebug + Drop,
    E: uDebug + Drop,
    F: uDebug + Drop,
    G: uDebug + Drop,
    H: uDebug + Drop,
    I: uDebug + Drop,
    J: uDebug + Drop,
    K: uDebug + Drop,
    P: ParsesBy<Alloc, M, A>,
    Q: ParsesBy<Alloc, M, B>,
    R: ParsesBy<Alloc, M, C>,
    S: ParsesBy<Alloc, M, D>,
    T: ParsesBy<Alloc, M, E>,
    U: ParsesBy<Alloc, M, F>,
    V: ParsesBy<Alloc, M, G>,
    W: ParsesBy<Alloc, M, H>,
    X: ParsesBy<Alloc, M, I>,
    Y: ParsesBy<Alloc, M, J>,
    Z: ParsesBy<Alloc, M, K>,
> FieldParsers<Alloc, M, (A, B, C, D, E, F, G, H, I, J, K)>
    for (
        &'p P,
        &'p Q,
        &'p R,
        &'p S,
        &'p T,
        &'p U,
        &'p V,
        &'p W,
        &'p X,
        &'p Y,
        &'p Z,
    ) {
    ghost is_value = { λ v. P.is_value v.0 × (Q.is_value v.1 × (R.is_value v.2 × (S.is_value v.3 × (T.is_value v.4 × (U.is_value v.5 × (V.is_value v.6 × (W.is_value v.7 × (X.is_value v.8 × (Y.is_value v.9 × (Z.is_value v.10 × ⊤)))))))))) };

    ghost holds_no_memory = { P.holds_no_memory × (Q.holds_no_memory × (R.holds_no_memory × (S.holds_no_memory × (T.holds_no_memory × (U.holds_no_memory × (V.holds_no_memory × (W.holds_no_memory × (X.holds_no_memory × (Y.holds_no_memory × (Z.holds_no_memory × ⊤)))))))))) };

    ghost documents = { λ v. A.document v.0 ∷ B.document v.1 ∷ C.document v.2 ∷ D.document v.3 ∷ E.document v.4 ∷ F.document v.5 ∷ G.document v.6 ∷ H.document v.7 ∷ I.document v.8 ∷ J.document v.9 ∷ K.document v.10 ∷ [] };

    ghost ready = { λ fields blocks. P.ready fields.0.now blocks × Q.ready fields.1.now blocks × R.ready fields.2.now blocks × S.ready fields.3.now blocks × T.ready fields.4.now blocks × U.ready fields.5.now blocks × V.ready fields.6.now blocks × W.ready fields.7.now blocks × X.ready fields.8.now blocks × Y.ready fields.9.now blocks × Z.ready fields.10.now blocks };

    #[inline(always)]
    fn parse_rest(
        &self,
        alloc: Alloc,
        parser: &mut Parser<'_, M>,
        kind: Kind,
        count: Count,
        names: &[&'static str],
    ) -> Result<(A, B, C, D, E, F, G, H, I, J, K), Fault> {
        let (a, (b, c, d, e, f, g, h, i, j, k)) = tri!(parse_first(
            alloc,
            parser,
            kind,
            count,
            names,
            self.0,
            &(
                self.1, self.2, self.3, self.4, self.5, self.6, self.7, self.8, self.9, self.10
            )
        ));
        Ok((a, b, c, d, e, f, g, h, i, j, k))
    }
}

impl<
    'p,
    Alloc: Copy,
    M: ParseMode,
    A: uDebug + Drop,
    B: uDebug + Drop,
    C: uDebug + Drop,
    D: uDebug + Drop,
    E: uDebug + Drop,
    F: uDebug + Drop,
    G: uDebug + Drop,
    H: uDebug + Drop,
    I: uDebug + Drop,
    J: uDebug + Drop,
    K: uDebug + Drop,
    L: uDebug + Drop,
    P: ParsesBy<Alloc, M, A>,
    Q: ParsesBy<Alloc, M, B>,
    R: ParsesBy<Alloc, M, C>,
    S: ParsesBy<Alloc, M, D>,
    T: ParsesBy<Alloc, M, E>,
    U: ParsesBy<Alloc, M, F>,
    V: ParsesBy<Alloc, M, G>,
    W: ParsesBy<Alloc, M, H>,
    X: ParsesBy<Alloc, M, I>,
    Y: ParsesBy<Alloc, M, J>,
    Z: ParsesBy<Alloc, M, K>,
    N: ParsesBy<Alloc, M, L>,
> FieldParsers<Alloc, M, (A, B, C, D, E, F, G, H, I, J, K, L)>
    for (
        &'p P,
        &'p Q,
        &'p R,
        &'p S,
        &'p T,
        &'p U,
        &'p V,
        &'p W,
        &'p X,
        &'p Y,
        &'p Z,
        &'p N,
    ) {
    ghost is_value = { λ v. P.is_value v.0 × (Q.is_value v.1 × (R.is_value v.2 × (S.is_value v.3 × (T.is_value v.4 × (U.is_value v.5 × (V.is_value v.6 × (W.is_value v.7 × (X.is_value v.8 × (Y.is_value v.9 × (Z.is_value v.10 × (N.is_value v.11 × ⊤))))))))))) };

    ghost holds_no_memory = { P.holds_no_memory × (Q.holds_no_memory × (R.holds_no_memory × (S.holds_no_memory × (T.holds_no_memory × (U.holds_no_memory × (V.holds_no_memory × (W.holds_no_memory × (X.holds_no_memory × (Y.holds_no_memory × (Z.holds_no_memory × (N.holds_no_memory × ⊤))))))))))) };

    ghost documents = { λ v. A.document v.0 ∷ B.document v.1 ∷ C.document v.2 ∷ D.document v.3 ∷ E.document v.4 ∷ F.document v.5 ∷ G.document v.6 ∷ H.document v.7 ∷ I.document v.8 ∷ J.document v.9 ∷ K.document v.10 ∷ L.document v.11 ∷ [] };

    ghost ready = { λ fields blocks. P.ready fields.0.now blocks × Q.ready fields.1.now blocks × R.ready fields.2.now blocks × S.ready fields.3.now blocks × T.ready fields.4.now blocks × U.ready fields.5.now blocks × V.ready fields.6.now blocks × W.ready fields.7.now blocks × X.ready fields.8.now blocks × Y.ready fields.9.now blocks × Z.ready fields.10.now blocks × N.ready fields.11.now blocks };

    #[inline(always)]
    fn parse_rest(
        &self,
        alloc: Alloc,
        parser: &mut Parser<'_, M>,
        kind: Kind,
        count: Count,
        names: &[&'static str],
    ) -> Result<(A, B, C, D, E, F, G, H, I, J, K, L), Fault> {
        let (a, (b, c, d, e, f, g, h, i, j, k, l)) = tri!(parse_first(
            alloc,
            parser,
            kind,
            count,
            names,
            self.0,
            &(
                self.1, self.2, self.3, self.4, self.5, self.6, self.7, self.8, self.9, self.10,
                self.11
            )
        ));
        Ok((a, b, c, d, e, f, g, h, i, j, k, l))
    }
}
