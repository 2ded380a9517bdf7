//! Tuples of one to 12. `x generate` writes this file: change its template in tools/data/by_count.
use crate::uparse::{ByType, uParse};
use ufmt_parser::fields::parse_tuple;
use ufmt_parser::mode::ParseMode;
use ufmt_parser::parser::{Fault, Parser};

impl<Alloc: Copy, A: uParse<Alloc>> uParse<Alloc> for (A,) {
    ghost is_value = { λ t. A.is_value t.0 };

    ghost holds_no_memory = { A.holds_no_memory };

    fn prove_value(&self) {
        self.0.prove_value();
    }

    #[inline(always)]
    fn parse_from<M: ParseMode>(alloc: Alloc, parser: &mut Parser<'_, M>) -> Result<(A,), Fault> {
        parse_tuple(alloc, parser, "", &(&ByType,))
    }
}

impl<Alloc: Copy, A: uParse<Alloc>, B: uParse<Alloc>> uParse<Alloc> for (A, B) {
    ghost is_value = { λ t. A.is_value t.0 × B.is_value t.1 };

    ghost holds_no_memory = { A.holds_no_memory × B.holds_no_memory };

    fn prove_value(&self) {
        self.0.prove_value();
        self.1.prove_value();
    }

    #[inline(always)]
    fn parse_from<M: ParseMode>(alloc: Alloc, parser: &mut Parser<'_, M>) -> Result<(A, B), Fault> {
        parse_tuple(alloc, parser, "", &(&ByType, &ByType))
    }
}

impl<Alloc: Copy, A: uParse<Alloc>, B: uParse<Alloc>, C: uParse<Alloc>> uParse<Alloc>
    for (A, B, C) {
    ghost is_value = { λ t. A.is_value t.0 × B.is_value t.1 × C.is_value t.2 };

    ghost holds_no_memory = { A.holds_no_memory × B.holds_no_memory × C.holds_no_memory };

    fn prove_value(&self) {
        self.0.prove_value();
        self.1.prove_value();
        self.2.prove_value();
    }

    #[inline(always)]
    fn parse_from<M: ParseMode>(
        alloc: Alloc,
        parser: &mut Parser<'_, M>,
    ) -> Result<(A, B, C), Fault> {
        parse_tuple(alloc, parser, "", &(&ByType, &ByType, &ByType))
    }
}

impl<Alloc: Copy, A: uParse<Alloc>, B: uParse<Alloc>, C: uParse<Alloc>, D: uParse<Alloc>> uParse<
    Alloc,
> for (A, B, C, D) {
    ghost is_value = { λ t. A.is_value t.0 × B.is_value t.1 × C.is_value t.2 × D.is_value t.3 };

    ghost holds_no_memory = { A.holds_no_memory × B.holds_no_memory × C.holds_no_memory × D.holds_no_memory };

    fn prove_value(&self) {
        self.0.prove_value();
        self.1.prove_value();
        self.2.prove_value();
        self.3.prove_value();
    }

    #[inline(always)]
    fn parse_from<M: ParseMode>(
        alloc: Alloc,
        parser: &mut Parser<'_, M>,
    ) -> Result<(A, B, C, D), Fault> {
        parse_tuple(alloc, parser, "", &(&ByType, &ByType, &ByType, &ByType))
    }
}

impl<
    Alloc: Copy,
    A: uParse<Alloc>,
    B: uParse<Alloc>,
    C: uParse<Alloc>,
    D: uParse<Alloc>,
    E: uParse<Alloc>,
> uParse<Alloc> for (A, B, C, D, E) {
    ghost is_value = { λ t. A.is_value t.0 × B.is_value t.1 × C.is_value t.2 × D.is_value t.3 × E.is_value t.4 };

    ghost holds_no_memory = { A.holds_no_memory × B.holds_no_memory × C.holds_no_memory × D.holds_no_memory × E.holds_no_memory };

    fn prove_value(&self) {
        self.0.prove_value();
        self.1.prove_value();
        self.2.prove_value();
        self.3.prove_value();
        self.4.prove_value();
    }

    #[inline(always)]
    fn parse_from<M: ParseMode>(
        alloc: Alloc,
        parser: &mut Parser<'_, M>,
    ) -> Result<(A, B, C, D, E), Fault> {
        parse_tuple(
            alloc,
            parser,
            "",
            &(&ByType, &ByType, &ByType, &ByType, &ByType),
        )
    }
}

impl<
    Alloc: Copy,
    A: uParse<Alloc>,
    B: uParse<Alloc>,
    C: uParse<Alloc>,
    D: uParse<Alloc>,
    E: uParse<Alloc>,
    F: uParse<Alloc>,
> uParse<Alloc> for (A, B, C, D, E, F) {
    ghost is_value = { λ t. A.is_value t.0 × B.is_value t.1 × C.is_value t.2 × D.is_value t.3 × E.is_value t.4 × F.is_value t.5 };

    ghost holds_no_memory = { A.holds_no_memory × B.holds_no_memory × C.holds_no_memory × D.holds_no_memory × E.holds_no_memory × F.holds_no_memory };

    fn prove_value(&self) {
        self.0.prove_value();
        self.1.prove_value();
        self.2.prove_value();
        self.3.prove_value();
        self.4.prove_value();
        self.5.prove_value();
    }

    #[inline(always)]
    fn parse_from<M: ParseMode>(
        alloc: Alloc,
        parser: &mut Parser<'_, M>,
    ) -> Result<(A, B, C, D, E, F), Fault> {
        parse_tuple(
            alloc,
            parser,
            "",
            &(&ByType, &ByType, &ByType, &ByType, &ByType, &ByType),
        )
    }
}

impl<
    Alloc: Copy,
    A: uParse<Alloc>,
    B: uParse<Alloc>,
    C: uParse<Alloc>,
    D: uParse<Alloc>,
    E: uParse<Alloc>,
    F: uParse<Alloc>,
    G: uParse<Alloc>,
> uParse<Alloc> for (A, B, C, D, E, F, G) {
    ghost is_value = { λ t. A.is_value t.0 × B.is_value t.1 × C.is_value t.2 × D.is_value t.3 × E.is_value t.4 × F.is_value t.5 × G.is_value t.6 };

    ghost holds_no_memory = { A.holds_no_memory × B.holds_no_memory × C.holds_no_memory × D.holds_no_memory × E.holds_no_memory × F.holds_no_memory × G.holds_no_memory };

    fn prove_value(&self) {
        self.0.prove_value();
        self.1.prove_value();
        self.2.prove_value();
        self.3.prove_value();
        self.4.prove_value();
        self.5.prove_value();
        self.6.prove_value();
    }

    #[inline(always)]
    fn parse_from<M: ParseMode>(
        alloc: Alloc,
        parser: &mut Parser<'_, M>,
    ) -> Result<(A, B, C, D, E, F, G), Fault> {
        parse_tuple(
            alloc,
            parser,
            "",
            &(
                &ByType, &ByType, &ByType, &ByType, &ByType, &ByType, &ByType,
            ),
        )
    }
}

impl<
    Alloc: Copy,
    A: uParse<Alloc>,
    B: uParse<Alloc>,
    C: uParse<Alloc>,
    D: uParse<Alloc>,
    E: uParse<Alloc>,
    F: uParse<Alloc>,
    G: uParse<Alloc>,
    H: uParse<Alloc>,
> uParse<Alloc> for (A, B, C, D, E, F, G, H) {
    ghost is_value = { λ t. A.is_value t.0 × B.is_value t.1 × C.is_value t.2 × D.is_value t.3 × E.is_value t.4 × F.is_value t.5 × G.is_value t.6 × H.is_value t.7 };

    ghost holds_no_memory = { A.holds_no_memory × B.holds_no_memory × C.holds_no_memory × D.holds_no_memory × E.holds_no_memory × F.holds_no_memory × G.holds_no_memory × H.holds_no_memory };

    fn prove_value(&self) {
        self.0.prove_value();
        self.1.prove_value();
        self.2.prove_value();
        self.3.prove_value();
        self.4.prove_value();
        self.5.prove_value();
        self.6.prove_value();
        self.7.prove_value();
    }

    #[inline(always)]
    fn parse_from<M: ParseMode>(
        alloc: Alloc,
        parser: &mut Parser<'_, M>,
    ) -> Result<(A, B, C, D, E, F, G, H), Fault> {
        parse_tuple(
            alloc,
            parser,
            "",
            &(
                &ByType, &ByType, &ByType, &ByType, &ByType, &ByType, &ByType, &ByType,
            ),
        )
    }
}

impl<
    Alloc: Copy,
    A: uParse<Alloc>,
    B: uParse<Alloc>,
    C: uParse<Alloc>,
    D: uParse<Alloc>,
    E: uParse<Alloc>,
    F: uParse<Alloc>,
    G: uParse<Alloc>,
    H: uParse<Alloc>,
    I: uParse<Alloc>,
> uParse<Alloc> for (A, B, C, D, E, F, G, H, I) {
    ghost is_value = { λ t. A.is_value t.0 × B.is_value t.1 × C.is_value t.2 × D.is_value t.3 × E.is_value t.4 × F.is_value t.5 × G.is_value t.6 × H.is_value t.7 × I.is_value t.8 };

    ghost holds_no_memory = { A.holds_no_memory × B.holds_no_memory × C.holds_no_memory × D.holds_no_memory × E.holds_no_memory × F.holds_no_memory × G.holds_no_memory × H.holds_no_memory × I.holds_no_memory };

    fn prove_value(&self) {
        self.0.prove_value();
        self.1.prove_value();
        self.2.prove_value();
        self.3.prove_value();
        self.4.prove_value();
        self.5.prove_value();
        self.6.prove_value();
        self.7.prove_value();
        self.8.prove_value();
    }

    #[inline(always)]
    fn parse_from<M: ParseMode>(
        alloc: Alloc,
        parser: &mut Parser<'_, M>,
    ) -> Result<(A, B, C, D, E, F, G, H, I), Fault> {
        parse_tuple(
            alloc,
            parser,
            "",
            &(
                &ByType, &ByType, &ByType, &ByType, &ByType, &ByType, &ByType, &ByType, &ByType,
            ),
        )
    }
}

impl<
    Alloc: Copy,
    A: uParse<Alloc>,
    B: uParse<Alloc>,
    C: uParse<Alloc>,
    D: uParse<Alloc>,
    E: uParse<Alloc>,
    F: uParse<Alloc>,
    G: uParse<Alloc>,
    H: uParse<Alloc>,
    I: uParse<Alloc>,
    J: uParse<Alloc>,
> uParse<Alloc> for (A, B, C, D, E, F, G, H, I, J) {
    ghost is_value = { λ t. A.is_value t.0 × B.is_value t.1 × C.is_value t.2 × D.is_value t.3 × E.is_value t.4 × F.is_value t.5 × G.is_value t.6 × H.is_value t.7 × I.is_value t.8 × J.is_value t.9 };

    ghost holds_no_memory = { A.holds_no_memory × B.holds_no_memory × C.holds_no_memory × D.holds_no_memory × E.holds_no_memory × F.holds_no_memory × G.holds_no_memory × H.holds_no_memory × I.holds_no_memory × J.holds_no_memory };

    fn prove_value(&self) {
        self.0.prove_value();
        self.1.prove_value();
        self.2.prove_value();
        self.3.prove_value();
        self.4.prove_value();
        self.5.prove_value();
        self.6.prove_value();
        self.7.prove_value();
        self.8.prove_value();
        self.9.prove_value();
    }

    #[inline(always)]
    fn parse_from<M: ParseMode>(
        alloc: Alloc,
        parser: &mut Parser<'_, M>,
    ) -> Result<(A, B, C, D, E, F, G, H, I, J), Fault> {
        parse_tuple(
            alloc,
            parser,
            "",
            &(
                &ByType, &ByType, &ByType, &ByType, &ByType, &ByType, &ByType, &ByType, &ByType,
                &ByType,
            ),
        )
    }
}

impl<
    Alloc: Copy,
    A: uParse<Alloc>,
    B: uParse<Alloc>,
    C: uParse<Alloc>,
    D: uParse<Alloc>,
    E: uParse<Alloc>,
    F: uParse<Alloc>,
    G: uParse<Alloc>,
    H: uParse<Alloc>,
    I: uParse<Alloc>,
    J: uParse<Alloc>,
    K: uParse<Alloc>,
> uParse<Alloc> for (A, B, C, D, E, F, G, H, I, J, K) {
    ghost is_value = { λ t. A.is_value t.0 × B.is_value t.1 × C.is_value t.2 × D.is_value t.3 × E.is_value t.4 × F.is_value t.5 × G.is_value t.6 × H.is_value t.7 × I.is_value t.8 × J.is_value t.9 × K.is_value t.10 };

    ghost holds_no_memory = { A.holds_no_memory × B.holds_no_memory × C.holds_no_memory × D.holds_no_memory × E.holds_no_memory × F.holds_no_memory × G.holds_no_memory × H.holds_no_memory × I.holds_no_memory × J.holds_no_memory × K.holds_no_memory };

    fn prove_value(&self) {
        self.0.prove_value();
        self.1.prove_value();
        self.2.prove_value();
        self.3.prove_value();
        self.4.prove_value();
        self.5.prove_value();
        self.6.prove_value();
        self.7.prove_value();
        self.8.prove_value();
        self.9.prove_value();
        self.10.prove_value();
    }

    #[inline(always)]
    fn parse_from<M: ParseMode>(
        alloc: Alloc,
        parser: &mut Parser<'_, M>,
    ) -> Result<(A, B, C, D, E, F, G, H, I, J, K), Fault> {
        parse_tuple(
            alloc,
            parser,
            "",
            &(
                &ByType, &ByType, &ByType, &ByType, &ByType, &ByType, &ByType, &ByType, &ByType,
                &ByType, &ByType,
            ),
        )
    }
}

impl<
    Alloc: Copy,
    A: uParse<Alloc>,
    B: uParse<Alloc>,
    C: uParse<Alloc>,
    D: uParse<Alloc>,
    E: uParse<Alloc>,
    F: uParse<Alloc>,
    G: uParse<Alloc>,
    H: uParse<Alloc>,
    I: uParse<Alloc>,
    J: uParse<Alloc>,
    K: uParse<Alloc>,
    L: uParse<Alloc>,
> uParse<Alloc> for (A, B, C, D, E, F, G, H, I, J, K, L) {
    ghost is_value = { λ t. A.is_value t.0 × B.is_value t.1 × C.is_value t.2 × D.is_value t.3 × E.is_value t.4 × F.is_value t.5 × G.is_value t.6 × H.is_value t.7 × I.is_value t.8 × J.is_value t.9 × K.is_value t.10 × L.is_value t.11 };

    ghost holds_no_memory = { A.holds_no_memory × B.holds_no_memory × C.holds_no_memory × D.holds_no_memory × E.holds_no_memory × F.holds_no_memory × G.holds_no_memory × H.holds_no_memory × I.holds_no_memory × J.holds_no_memory × K.holds_no_memory × L.holds_no_memory };

    fn prove_value(&self) {
        self.0.prove_value();
        self.1.prove_value();
        self.2.prove_value();
        self.3.prove_value();
        self.4.prove_value();
        self.5.prove_value();
        self.6.prove_value();
        self.7.prove_value();
        self.8.prove_value();
        self.9.prove_value();
        self.10.prove_value();
        self.11.prove_value();
    }

    #[inline(always)]
    fn parse_from<M: ParseMode>(
        alloc: Alloc,
        parser: &mut Parser<'_, M>,
    ) -> Result<(A, B, C, D, E, F, G, H, I, J, K, L), Fault> {
        parse_tuple(
            alloc,
            parser,
            "",
            &(
                &ByType, &ByType, &ByType, &ByType, &ByType, &ByType, &ByType, &ByType, &ByType,
                &ByType, &ByType, &ByType,
            ),
        )
    }
}
