//! Tuples of 7 to 12 fields, each parsed by a parser. `x generate` writes this file: change its template in tools/data/by_count.
ghost use Rattle.std.specs.Prelude.{◌≤◌, ◌<◌, length, [], ◌∷◌, ◌≡◌, List, ℕ, suc, true, IfOk, IfErr};
ghost use Rattle.std.specs.Str.{bytes_eq};
ghost use Rattle.ufmt_core.specs.Alike.{SameDocuments};
ghost use Rattle.ufmt_core.specs.Document.{Documents, documents, tuple_of};
ghost use Rattle.ufmt_parser.specs.Naming.{is_debug_name_or_empty};
ghost use Rattle.ufmt_parser.specs.Next.{IsNotNext, NextLeaves};
ghost use Rattle.ufmt_parser.specs.Taking.{IsTaken, open_blocks, rest};

use crate::fields::parse_tuple;
use crate::mode::ParseMode;
use crate::parser::{Fault, Parser};
use crate::parses_by::ParsesBy;
use ufmt_core::uDebug;

/// Parses a tuple, each of its 7 fields by a parser.
#[inline(always)]
pub fn parse_tuple_7<
    Alloc: Copy,
    M: ParseMode,
    A: uDebug + Drop,
    B: uDebug + Drop,
    C: uDebug + Drop,
    D: uDebug + Drop,
    E: uDebug + Drop,
    F: uDebug + Drop,
    G: uDebug + Drop,
    P: ParsesBy<Alloc, M, A>,
    Q: ParsesBy<Alloc, M, B>,
    R: ParsesBy<Alloc, M, C>,
    S: ParsesBy<Alloc, M, D>,
    T: ParsesBy<Alloc, M, E>,
    U: ParsesBy<Alloc, M, F>,
    V: ParsesBy<Alloc, M, G>,
>(
    alloc: Alloc,
    parser: &mut Parser<'_, M>,
    name: &'static str,
    a_by: &P,
    b_by: &Q,
    c_by: &R,
    d_by: &S,
    e_by: &T,
    f_by: &U,
    g_by: &V,
) -> Result<(A, B, C, D, E, F, G), Fault>
    requires named { is_debug_name_or_empty name.now ≡ true }
    requires ready { open_blocks parser.old < 255 → P.ready a_by.now (suc (open_blocks parser.old))
        × Q.ready b_by.now (suc (open_blocks parser.old))
        × R.ready c_by.now (suc (open_blocks parser.old))
        × S.ready d_by.now (suc (open_blocks parser.old))
        × T.ready e_by.now (suc (open_blocks parser.old))
        × U.ready f_by.now (suc (open_blocks parser.old))
        × V.ready g_by.now (suc (open_blocks parser.old)) }
    ensures values { IfOk result (λ v. P.is_value v.0 × Q.is_value v.1 × R.is_value v.2 × S.is_value v.3 × T.is_value v.4 × U.is_value v.5 × V.is_value v.6) }
    ensures taken { IfOk result (λ v. IsTaken M.mode parser.old (tuple_of name.now (documents
        (A.document v.0 ∷ B.document v.1 ∷ C.document v.2 ∷ D.document v.3 ∷ E.document v.4
        ∷ F.document v.5 ∷ G.document v.6 ∷ []))) parser.new) }
    ensures only { IfOk result (λ _. (block_name : List ℕ) (a_value : A) (b_value : B) (c_value : C)
        (d_value : D) (e_value : E) (f_value : F) (g_value : G)
        → bytes_eq block_name name.now ≡ true → P.is_value a_value → Q.is_value b_value
        → R.is_value c_value → S.is_value d_value → T.is_value e_value → U.is_value f_value
        → V.is_value g_value → NextLeaves M.mode parser.old (tuple_of block_name (documents
        (A.document a_value ∷ B.document b_value ∷ C.document c_value ∷ D.document d_value
        ∷ E.document e_value ∷ F.document f_value ∷ G.document g_value ∷ []))) parser.new) }
    ensures none { IfErr result (λ fault. fault ≡ Fault.NotText → (block_name : List ℕ)
        (a_value : A) (b_value : B) (c_value : C) (d_value : D) (e_value : E) (f_value : F)
        (g_value : G) → bytes_eq block_name name.now ≡ true → P.is_value a_value
        → Q.is_value b_value → R.is_value c_value → S.is_value d_value → T.is_value e_value
        → U.is_value f_value → V.is_value g_value → IsNotNext M.mode parser.old
        (tuple_of block_name (documents (A.document a_value ∷ B.document b_value
        ∷ C.document c_value ∷ D.document d_value ∷ E.document e_value ∷ F.document f_value
        ∷ G.document g_value ∷ [])))) }
    ensures alike { IfErr result (λ fault. fault ≡ Fault.NotText → (other : List ℕ)
        (others : Documents) (a_value : A) (b_value : B) (c_value : C) (d_value : D) (e_value : E)
        (f_value : F) (g_value : G) → bytes_eq other name.now ≡ true → SameDocuments others
        (documents (A.document a_value ∷ B.document b_value ∷ C.document c_value
        ∷ D.document d_value ∷ E.document e_value ∷ F.document f_value ∷ G.document g_value ∷ []))
        → P.is_value a_value → Q.is_value b_value → R.is_value c_value → S.is_value d_value
        → T.is_value e_value → U.is_value f_value → V.is_value g_value → IsNotNext M.mode parser.old
        (tuple_of other others)) }
    ensures memory { P.holds_no_memory × Q.holds_no_memory × R.holds_no_memory × S.holds_no_memory
        × T.holds_no_memory × U.holds_no_memory × V.holds_no_memory → IfErr result (λ fault.
        fault ≡ Fault.NotText) }
    ensures blocks { IfOk result (λ _. open_blocks parser.new ≡ open_blocks parser.old) }
    ensures shrinks { length (rest parser.new) ≤ length (rest parser.old) }
{
    parse_tuple(
        alloc,
        parser,
        name,
        &(a_by, b_by, c_by, d_by, e_by, f_by, g_by),
    )
}

/// Parses a tuple, each of its 8 fields by a parser.
#[inline(always)]
pub fn parse_tuple_8<
    Alloc: Copy,
    M: ParseMode,
    A: uDebug + Drop,
    B: uDebug + Drop,
    C: uDebug + Drop,
    D: uDebug + Drop,
    E: uDebug + Drop,
    F: uDebug + Drop,
    G: uDebug + Drop,
    H: uDebug + Drop,
    P: ParsesBy<Alloc, M, A>,
    Q: ParsesBy<Alloc, M, B>,
    R: ParsesBy<Alloc, M, C>,
    S: ParsesBy<Alloc, M, D>,
    T: ParsesBy<Alloc, M, E>,
    U: ParsesBy<Alloc, M, F>,
    V: ParsesBy<Alloc, M, G>,
    W: ParsesBy<Alloc, M, H>,
>(
    alloc: Alloc,
    parser: &mut Parser<'_, M>,
    name: &'static str,
    a_by: &P,
    b_by: &Q,
    c_by: &R,
    d_by: &S,
    e_by: &T,
    f_by: &U,
    g_by: &V,
    h_by: &W,
) -> Result<(A, B, C, D, E, F, G, H), Fault>
    requires named { is_debug_name_or_empty name.now ≡ true }
    requires ready { open_blocks parser.old < 255 → P.ready a_by.now (suc (open_blocks parser.old))
        × Q.ready b_by.now (suc (open_blocks parser.old))
        × R.ready c_by.now (suc (open_blocks parser.old))
        × S.ready d_by.now (suc (open_blocks parser.old))
        × T.ready e_by.now (suc (open_blocks parser.old))
        × U.ready f_by.now (suc (open_blocks parser.old))
        × V.ready g_by.now (suc (open_blocks parser.old))
        × W.ready h_by.now (suc (open_blocks parser.old)) }
    ensures values { IfOk result (λ v. P.is_value v.0 × Q.is_value v.1 × R.is_value v.2 × S.is_value v.3 × T.is_value v.4 × U.is_value v.5 × V.is_value v.6 × W.is_value v.7) }
    ensures taken { IfOk result (λ v. IsTaken M.mode parser.old (tuple_of name.now (documents
        (A.document v.0 ∷ B.document v.1 ∷ C.document v.2 ∷ D.document v.3 ∷ E.document v.4
        ∷ F.document v.5 ∷ G.document v.6 ∷ H.document v.7 ∷ []))) parser.new) }
    ensures only { IfOk result (λ _. (block_name : List ℕ) (a_value : A) (b_value : B) (c_value : C)
        (d_value : D) (e_value : E) (f_value : F) (g_value : G) (h_value : H)
        → bytes_eq block_name name.now ≡ true → P.is_value a_value → Q.is_value b_value
        → R.is_value c_value → S.is_value d_value → T.is_value e_value → U.is_value f_value
        → V.is_value g_value → W.is_value h_value → NextLeaves M.mode parser.old
        (tuple_of block_name (documents (A.document a_value ∷ B.document b_value
        ∷ C.document c_value ∷ D.document d_value ∷ E.document e_value ∷ F.document f_value
        ∷ G.document g_value ∷ H.document h_value ∷ []))) parser.new) }
    ensures none { IfErr result (λ fault. fault ≡ Fault.NotText → (block_name : List ℕ)
        (a_value : A) (b_value : B) (c_value : C) (d_value : D) (e_value : E) (f_value : F)
        (g_value : G) (h_value : H) → bytes_eq block_name name.now ≡ true → P.is_value a_value
        → Q.is_value b_value → R.is_value c_value → S.is_value d_value → T.is_value e_value
        → U.is_value f_value → V.is_value g_value → W.is_value h_value → IsNotNext M.mode parser.old
        (tuple_of block_name (documents (A.document a_value ∷ B.document b_value
        ∷ C.document c_value ∷ D.document d_value ∷ E.document e_value ∷ F.document f_value
        ∷ G.document g_value ∷ H.document h_value ∷ [])))) }
    ensures alike { IfErr result (λ fault. fault ≡ Fault.NotText → (other : List ℕ)
        (others : Documents) (a_value : A) (b_value : B) (c_value : C) (d_value : D) (e_value : E)
        (f_value : F) (g_value : G) (h_value : H) → bytes_eq other name.now ≡ true
        → SameDocuments others (documents (A.document a_value ∷ B.document b_value
        ∷ C.document c_value ∷ D.document d_value ∷ E.document e_value ∷ F.document f_value
        ∷ G.document g_value ∷ H.document h_value ∷ [])) → P.is_value a_value → Q.is_value b_value
        → R.is_value c_value → S.is_value d_value → T.is_value e_value → U.is_value f_value
        → V.is_value g_value → W.is_value h_value → IsNotNext M.mode parser.old
        (tuple_of other others)) }
    ensures memory { P.holds_no_memory × Q.holds_no_memory × R.holds_no_memory × S.holds_no_memory
        × T.holds_no_memory × U.holds_no_memory × V.holds_no_memory × W.holds_no_memory
        → IfErr result (λ fault. fault ≡ Fault.NotText) }
    ensures blocks { IfOk result (λ _. open_blocks parser.new ≡ open_blocks parser.old) }
    ensures shrinks { length (rest parser.new) ≤ length (rest parser.old) }
{
    parse_tuple(
        alloc,
        parser,
        name,
        &(a_by, b_by, c_by, d_by, e_by, f_by, g_by, h_by),
    )
}

/// Parses a tuple, each of its 9 fields by a parser.
#[inline(always)]
pub fn parse_tuple_9<
    Alloc: Copy,
    M: ParseMode,
    A: uDebug + Drop,
    B: uDebug + Drop,
    C: uDebug + Drop,
    D: uDebug + Drop,
    E: uDebug + Drop,
    F: uDebug + Drop,
    G: uDebug + Drop,
    H: uDebug + Drop,
    I: uDebug + Drop,
    P: ParsesBy<Alloc, M, A>,
    Q: ParsesBy<Alloc, M, B>,
    R: ParsesBy<Alloc, M, C>,
    S: ParsesBy<Alloc, M, D>,
    T: ParsesBy<Alloc, M, E>,
    U: ParsesBy<Alloc, M, F>,
    V: ParsesBy<Alloc, M, G>,
    W: ParsesBy<Alloc, M, H>,
    X: ParsesBy<Alloc, M, I>,
>(
    alloc: Alloc,
    parser: &mut Parser<'_, M>,
    name: &'static str,
    a_by: &P,
    b_by: &Q,
    c_by: &R,
    d_by: &S,
    e_by: &T,
    f_by: &U,
    g_by: &V,
    h_by: &W,
    i_by: &X,
) -> Result<(A, B, C, D, E, F, G, H, I), Fault>
    requires named { is_debug_name_or_empty name.now ≡ true }
    requires ready { open_blocks parser.old < 255 → P.ready a_by.now (suc (open_blocks parser.old))
        × Q.ready b_by.now (suc (open_blocks parser.old))
        × R.ready c_by.now (suc (open_blocks parser.old))
        × S.ready d_by.now (suc (open_blocks parser.old))
        × T.ready e_by.now (suc (open_blocks parser.old))
        × U.ready f_by.now (suc (open_blocks parser.old))
        × V.ready g_by.now (suc (open_blocks parser.old))
        × W.ready h_by.now (suc (open_blocks parser.old))
        × X.ready i_by.now (suc (open_blocks parser.old)) }
    ensures values { IfOk result (λ v. P.is_value v.0 × Q.is_value v.1 × R.is_value v.2 × S.is_value v.3 × T.is_value v.4 × U.is_value v.5 × V.is_value v.6 × W.is_value v.7 × X.is_value v.8) }
    ensures taken { IfOk result (λ v. IsTaken M.mode parser.old (tuple_of name.now (documents
        (A.document v.0 ∷ B.document v.1 ∷ C.document v.2 ∷ D.document v.3 ∷ E.document v.4
        ∷ F.document v.5 ∷ G.document v.6 ∷ H.document v.7 ∷ I.document v.8 ∷ []))) parser.new) }
    ensures only { IfOk result (λ _. (block_name : List ℕ) (a_value : A) (b_value : B) (c_value : C)
        (d_value : D) (e_value : E) (f_value : F) (g_value : G) (h_value : H) (i_value : I)
        → bytes_eq block_name name.now ≡ true → P.is_value a_value → Q.is_value b_value
        → R.is_value c_value → S.is_value d_value → T.is_value e_value → U.is_value f_value
        → V.is_value g_value → W.is_value h_value → X.is_value i_value
        → NextLeaves M.mode parser.old (tuple_of block_name (documents (A.document a_value
        ∷ B.document b_value ∷ C.document c_value ∷ D.document d_value ∷ E.document e_value
        ∷ F.document f_value ∷ G.document g_value ∷ H.document h_value ∷ I.document i_value ∷ [])))
        parser.new) }
    ensures none { IfErr result (λ fault. fault ≡ Fault.NotText → (block_name : List ℕ)
        (a_value : A) (b_value : B) (c_value : C) (d_value : D) (e_value : E) (f_value : F)
        (g_value : G) (h_value : H) (i_value : I) → bytes_eq block_name name.now ≡ true
        → P.is_value a_value → Q.is_value b_value → R.is_value c_value → S.is_value d_value
        → T.is_value e_value → U.is_value f_value → V.is_value g_value → W.is_value h_value
        → X.is_value i_value → IsNotNext M.mode parser.old (tuple_of block_name (documents
        (A.document a_value ∷ B.document b_value ∷ C.document c_value ∷ D.document d_value
        ∷ E.document e_value ∷ F.document f_value ∷ G.document g_value ∷ H.document h_value
        ∷ I.document i_value ∷ [])))) }
    ensures alike { IfErr result (λ fault. fault ≡ Fault.NotText → (other : List ℕ)
        (others : Documents) (a_value : A) (b_value : B) (c_value : C) (d_value : D) (e_value : E)
        (f_value : F) (g_value : G) (h_value : H) (i_value : I) → bytes_eq other name.now ≡ true
        → SameDocuments others (documents (A.document a_value ∷ B.document b_value
        ∷ C.document c_value ∷ D.document d_value ∷ E.document e_value ∷ F.document f_value
        ∷ G.document g_value ∷ H.document h_value ∷ I.document i_value ∷ [])) → P.is_value a_value
        → Q.is_value b_value → R.is_value c_value → S.is_value d_value → T.is_value e_value
        → U.is_value f_value → V.is_value g_value → W.is_value h_value → X.is_value i_value
        → IsNotNext M.mode parser.old (tuple_of other others)) }
    ensures memory { P.holds_no_memory × Q.holds_no_memory × R.holds_no_memory × S.holds_no_memory
        × T.holds_no_memory × U.holds_no_memory × V.holds_no_memory × W.holds_no_memory
        × X.holds_no_memory → IfErr result (λ fault. fault ≡ Fault.NotText) }
    ensures blocks { IfOk result (λ _. open_blocks parser.new ≡ open_blocks parser.old) }
    ensures shrinks { length (rest parser.new) ≤ length (rest parser.old) }
{
    parse_tuple(
        alloc,
        parser,
        name,
        &(a_by, b_by, c_by, d_by, e_by, f_by, g_by, h_by, i_by),
    )
}

/// Parses a tuple, each of its 10 fields by a parser.
#[inline(always)]
pub fn parse_tuple_10<
    Alloc: Copy,
    M: ParseMode,
    A: uDebug + Drop,
    B: uDebug + Drop,
    C: uDebug + Drop,
    D: uDebug + Drop,
    E: uDebug + Drop,
    F: uDebug + Drop,
    G: uDebug + Drop,
    H: uDebug + Drop,
    I: uDebug + Drop,
    J: uDebug + Drop,
    P: ParsesBy<Alloc, M, A>,
    Q: ParsesBy<Alloc, M, B>,
    R: ParsesBy<Alloc, M, C>,
    S: ParsesBy<Alloc, M, D>,
    T: ParsesBy<Alloc, M, E>,
    U: ParsesBy<Alloc, M, F>,
    V: ParsesBy<Alloc, M, G>,
    W: ParsesBy<Alloc, M, H>,
    X: ParsesBy<Alloc, M, I>,
    Y: ParsesBy<Alloc, M, J>,
>(
    alloc: Alloc,
    parser: &mut Parser<'_, M>,
    name: &'static str,
    a_by: &P,
    b_by: &Q,
    c_by: &R,
    d_by: &S,
    e_by: &T,
    f_by: &U,
    g_by: &V,
    h_by: &W,
    i_by: &X,
    j_by: &Y,
) -> Result<(A, B, C, D, E, F, G, H, I, J), Fault>
    requires named { is_debug_name_or_empty name.now ≡ true }
    requires ready { open_blocks parser.old < 255 → P.ready a_by.now (suc (open_blocks parser.old))
        × Q.ready b_by.now (suc (open_blocks parser.old))
        × R.ready c_by.now (suc (open_blocks parser.old))
        × S.ready d_by.now (suc (open_blocks parser.old))
        × T.ready e_by.now (suc (open_blocks parser.old))
        × U.ready f_by.now (suc (open_blocks parser.old))
        × V.ready g_by.now (suc (open_blocks parser.old))
        × W.ready h_by.now (suc (open_blocks parser.old))
        × X.ready i_by.now (suc (open_blocks parser.old))
        × Y.ready j_by.now (suc (open_blocks parser.old)) }
    ensures values { IfOk result (λ v. P.is_value v.0 × Q.is_value v.1 × R.is_value v.2 × S.is_value v.3 × T.is_value v.4 × U.is_value v.5 × V.is_value v.6 × W.is_value v.7 × X.is_value v.8 × Y.is_value v.9) }
    ensures taken { IfOk result (λ v. IsTaken M.mode parser.old (tuple_of name.now (documents
        (A.document v.0 ∷ B.document v.1 ∷ C.document v.2 ∷ D.document v.3 ∷ E.document v.4
        ∷ F.document v.5 ∷ G.document v.6 ∷ H.document v.7 ∷ I.document v.8 ∷ J.document v.9 ∷ [])))
        parser.new) }
    ensures only { IfOk result (λ _. (block_name : List ℕ) (a_value : A) (b_value : B) (c_value : C)
        (d_value : D) (e_value : E) (f_value : F) (g_value : G) (h_value : H) (i_value : I)
        (j_value : J) → bytes_eq block_name name.now ≡ true → P.is_value a_value
        → Q.is_value b_value → R.is_value c_value → S.is_value d_value → T.is_value e_value
        → U.is_value f_value → V.is_value g_value → W.is_value h_value → X.is_value i_value
        → Y.is_value j_value → NextLeaves M.mode parser.old (tuple_of block_name (documents
        (A.document a_value ∷ B.document b_value ∷ C.document c_value ∷ D.document d_value
        ∷ E.document e_value ∷ F.document f_value ∷ G.document g_value ∷ H.document h_value
        ∷ I.document i_value ∷ J.document j_value ∷ []))) parser.new) }
    ensures none { IfErr result (λ fault. fault ≡ Fault.NotText → (block_name : List ℕ)
        (a_value : A) (b_value : B) (c_value : C) (d_value : D) (e_value : E) (f_value : F)
        (g_value : G) (h_value : H) (i_value : I) (j_value : J)
        → bytes_eq block_name name.now ≡ true → P.is_value a_value → Q.is_value b_value
        → R.is_value c_value → S.is_value d_value → T.is_value e_value → U.is_value f_value
        → V.is_value g_value → W.is_value h_value → X.is_value i_value → Y.is_value j_value
        → IsNotNext M.mode parser.old (tuple_of block_name (documents (A.document a_value
        ∷ B.document b_value ∷ C.document c_value ∷ D.document d_value ∷ E.document e_value
        ∷ F.document f_value ∷ G.document g_value ∷ H.document h_value ∷ I.document i_value
        ∷ J.document j_value ∷ [])))) }
    ensures alike { IfErr result (λ fault. fault ≡ Fault.NotText → (other : List ℕ)
        (others : Documents) (a_value : A) (b_value : B) (c_value : C) (d_value : D) (e_value : E)
        (f_value : F) (g_value : G) (h_value : H) (i_value : I) (j_value : J)
        → bytes_eq other name.now ≡ true → SameDocuments others (documents (A.document a_value
        ∷ B.document b_value ∷ C.document c_value ∷ D.document d_value ∷ E.document e_value
        ∷ F.document f_value ∷ G.document g_value ∷ H.document h_value ∷ I.document i_value
        ∷ J.document j_value ∷ [])) → P.is_value a_value → Q.is_value b_value → R.is_value c_value
        → S.is_value d_value → T.is_value e_value → U.is_value f_value → V.is_value g_value
        → W.is_value h_value → X.is_value i_value → Y.is_value j_value → IsNotNext M.mode parser.old
        (tuple_of other others)) }
    ensures memory { P.holds_no_memory × Q.holds_no_memory × R.holds_no_memory × S.holds_no_memory
        × T.holds_no_memory × U.holds_no_memory × V.holds_no_memory × W.holds_no_memory
        × X.holds_no_memory × Y.holds_no_memory → IfErr result (λ fault. fault ≡ Fault.NotText) }
    ensures blocks { IfOk result (λ _. open_blocks parser.new ≡ open_blocks parser.old) }
    ensures shrinks { length (rest parser.new) ≤ length (rest parser.old) }
{
    parse_tuple(
        alloc,
        parser,
        name,
        &(a_by, b_by, c_by, d_by, e_by, f_by, g_by, h_by, i_by, j_by),
    )
}

/// Parses a tuple, each of its 11 fields by a parser.
#[inline(always)]
pub fn parse_tuple_11<
    Alloc: Copy,
    M: ParseMode,
    A: uDebug + Drop,
    B: uDebug + Drop,
    C: uDebug + Drop,
    D: uDebug + Drop,
    E: uDebug + Drop,
    F: uDebug + Drop,
    G: uDebug + Drop,
    H: uDebug + Drop,
    I: uDebug + Drop,
    J: uDebug + Drop,
    K: uDebug + Drop,
    P: ParsesBy<Alloc, M, A>,
    Q: ParsesBy<Alloc, M, B>,
    R: ParsesBy<Alloc, M, C>,
    S: ParsesBy<Alloc, M, D>,
    T: ParsesBy<Alloc, M, E>,
    U: ParsesBy<Alloc, M, F>,
    V: ParsesBy<Alloc, M, G>,
    W: ParsesBy<Alloc, M, H>,
    X: ParsesBy<Alloc, M, I>,
    Y: ParsesBy<Alloc, M, J>,
    Z: ParsesBy<Alloc, M, K>,
>(
    alloc: Alloc,
    parser: &mut Parser<'_, M>,
    name: &'static str,
    a_by: &P,
    b_by: &Q,
    c_by: &R,
    d_by: &S,
    e_by: &T,
    f_by: &U,
    g_by: &V,
    h_by: &W,
    i_by: &X,
    j_by: &Y,
    k_by: &Z,
) -> Result<(A, B, C, D, E, F, G, H, I, J, K), Fault>
    requires named { is_debug_name_or_empty name.now ≡ true }
    requires ready { open_blocks parser.old < 255 → P.ready a_by.now (suc (open_blocks parser.old))
        × Q.ready b_by.now (suc (open_blocks parser.old))
        × R.ready c_by.now (suc (open_blocks parser.old))
        × S.ready d_by.now (suc (open_blocks parser.old))
        × T.ready e_by.now (suc (open_blocks parser.old))
        × U.ready f_by.now (suc (open_blocks parser.old))
        × V.ready g_by.now (suc (open_blocks parser.old))
        × W.ready h_by.now (suc (open_blocks parser.old))
        × X.ready i_by.now (suc (open_blocks parser.old))
        × Y.ready j_by.now (suc (open_blocks parser.old))
        × Z.ready k_by.now (suc (open_blocks parser.old)) }
    ensures values { IfOk result (λ v. P.is_value v.0 × Q.is_value v.1 × R.is_value v.2 × S.is_value v.3 × T.is_value v.4 × U.is_value v.5 × V.is_value v.6 × W.is_value v.7 × X.is_value v.8 × Y.is_value v.9 × Z.is_value v.10) }
    ensures taken { IfOk result (λ v. IsTaken M.mode parser.old (tuple_of name.now (documents
        (A.document v.0 ∷ B.document v.1 ∷ C.document v.2 ∷ D.document v.3 ∷ E.document v.4
        ∷ F.document v.5 ∷ G.document v.6 ∷ H.document v.7 ∷ I.document v.8 ∷ J.document v.9
        ∷ K.document v.10 ∷ []))) parser.new) }
    ensures only { IfOk result (λ _. (block_name : List ℕ) (a_value : A) (b_value : B) (c_value : C)
        (d_value : D) (e_value : E) (f_value : F) (g_value : G) (h_value : H) (i_value : I)
        (j_value : J) (k_value : K) → bytes_eq block_name name.now ≡ true → P.is_value a_value
        → Q.is_value b_value → R.is_value c_value → S.is_value d_value → T.is_value e_value
        → U.is_value f_value → V.is_value g_value → W.is_value h_value → X.is_value i_value
        → Y.is_value j_value → Z.is_value k_value → NextLeaves M.mode parser.old
        (tuple_of block_name (documents (A.document a_value ∷ B.document b_value
        ∷ C.document c_value ∷ D.document d_value ∷ E.document e_value ∷ F.document f_value
        ∷ G.document g_value ∷ H.document h_value ∷ I.document i_value ∷ J.document j_value
        ∷ K.document k_value ∷ []))) parser.new) }
    ensures none { IfErr result (λ fault. fault ≡ Fault.NotText → (block_name : List ℕ)
        (a_value : A) (b_value : B) (c_value : C) (d_value : D) (e_value : E) (f_value : F)
        (g_value : G) (h_value : H) (i_value : I) (j_value : J) (k_value : K)
        → bytes_eq block_name name.now ≡ true → P.is_value a_value → Q.is_value b_value
        → R.is_value c_value → S.is_value d_value → T.is_value e_value → U.is_value f_value
        → V.is_value g_value → W.is_value h_value → X.is_value i_value → Y.is_value j_value
        → Z.is_value k_value → IsNotNext M.mode parser.old (tuple_of block_name (documents
        (A.document a_value ∷ B.document b_value ∷ C.document c_value ∷ D.document d_value
        ∷ E.document e_value ∷ F.document f_value ∷ G.document g_value ∷ H.document h_value
        ∷ I.document i_value ∷ J.document j_value ∷ K.document k_value ∷ [])))) }
    ensures alike { IfErr result (λ fault. fault ≡ Fault.NotText → (other : List ℕ)
        (others : Documents) (a_value : A) (b_value : B) (c_value : C) (d_value : D) (e_value : E)
        (f_value : F) (g_value : G) (h_value : H) (i_value : I) (j_value : J) (k_value : K)
        → bytes_eq other name.now ≡ true → SameDocuments others (documents (A.document a_value
        ∷ B.document b_value ∷ C.document c_value ∷ D.document d_value ∷ E.document e_value
        ∷ F.document f_value ∷ G.document g_value ∷ H.document h_value ∷ I.document i_value
        ∷ J.document j_value ∷ K.document k_value ∷ [])) → P.is_value a_value → Q.is_value b_value
        → R.is_value c_value → S.is_value d_value → T.is_value e_value → U.is_value f_value
        → V.is_value g_value → W.is_value h_value → X.is_value i_value → Y.is_value j_value
        → Z.is_value k_value → IsNotNext M.mode parser.old (tuple_of other others)) }
    ensures memory { P.holds_no_memory × Q.holds_no_memory × R.holds_no_memory × S.holds_no_memory
        × T.holds_no_memory × U.holds_no_memory × V.holds_no_memory × W.holds_no_memory
        × X.holds_no_memory × Y.holds_no_memory × Z.holds_no_memory → IfErr result (λ fault.
        fault ≡ Fault.NotText) }
    ensures blocks { IfOk result (λ _. open_blocks parser.new ≡ open_blocks parser.old) }
    ensures shrinks { length (rest parser.new) ≤ length (rest parser.old) }
{
    parse_tuple(
        alloc,
        parser,
        name,
        &(
            a_by, b_by, c_by, d_by, e_by, f_by, g_by, h_by, i_by, j_by, k_by,
        ),
    )
}

/// Parses a tuple, each of its 12 fields by a parser.
#[inline(always)]
pub fn parse_tuple_12<
    Alloc: Copy,
    M: ParseMode,
    A: uDebug + Drop,
    B: uDebug + Drop,
    C: uDebug + Drop,
    D: uDebug + Drop,
    E: uDebug + Drop,
    F: uDebug + Drop,
    G: uDebug + Drop,
    H: uDebug + Drop,
    I: uDebug + Drop,
    J: uDebug + Drop,
    K: uDebug + Drop,
    L: uDebug + Drop,
    P: ParsesBy<Alloc, M, A>,
    Q: ParsesBy<Alloc, M, B>,
    R: ParsesBy<Alloc, M, C>,
    S: ParsesBy<Alloc, M, D>,
    T: ParsesBy<Alloc, M, E>,
    U: ParsesBy<Alloc, M, F>,
    V: ParsesBy<Alloc, M, G>,
    W: ParsesBy<Alloc, M, H>,
    X: ParsesBy<Alloc, M, I>,
    Y: ParsesBy<Alloc, M, J>,
    Z: ParsesBy<Alloc, M, K>,
    N: ParsesBy<Alloc, M, L>,
>(
    alloc: Alloc,
    parser: &mut Parser<'_, M>,
    name: &'static str,
    a_by: &P,
    b_by: &Q,
    c_by: &R,
    d_by: &S,
    e_by: &T,
    f_by: &U,
    g_by: &V,
    h_by: &W,
    i_by: &X,
    j_by: &Y,
    k_by: &Z,
    l_by: &N,
) -> Result<(A, B, C, D, E, F, G, H, I, J, K, L), Fault>
    requires named { is_debug_name_or_empty name.now ≡ true }
    requires ready { open_blocks parser.old < 255 → P.ready a_by.now (suc (open_blocks parser.old))
        × Q.ready b_by.now (suc (open_blocks parser.old))
        × R.ready c_by.now (suc (open_blocks parser.old))
        × S.ready d_by.now (suc (open_blocks parser.old))
        × T.ready e_by.now (suc (open_blocks parser.old))
        × U.ready f_by.now (suc (open_blocks parser.old))
        × V.ready g_by.now (suc (open_blocks parser.old))
        × W.ready h_by.now (suc (open_blocks parser.old))
        × X.ready i_by.now (suc (open_blocks parser.old))
        × Y.ready j_by.now (suc (open_blocks parser.old))
        × Z.ready k_by.now (suc (open_blocks parser.old))
        × N.ready l_by.now (suc (open_blocks parser.old)) }
    ensures values { IfOk result (λ v. P.is_value v.0 × Q.is_value v.1 × R.is_value v.2 × S.is_value v.3 × T.is_value v.4 × U.is_value v.5 × V.is_value v.6 × W.is_value v.7 × X.is_value v.8 × Y.is_value v.9 × Z.is_value v.10 × N.is_value v.11) }
    ensures taken { IfOk result (λ v. IsTaken M.mode parser.old (tuple_of name.now (documents
        (A.document v.0 ∷ B.document v.1 ∷ C.document v.2 ∷ D.document v.3 ∷ E.document v.4
        ∷ F.document v.5 ∷ G.document v.6 ∷ H.document v.7 ∷ I.document v.8 ∷ J.document v.9
        ∷ K.document v.10 ∷ L.document v.11 ∷ []))) parser.new) }
    ensures only { IfOk result (λ _. (block_name : List ℕ) (a_value : A) (b_value : B) (c_value : C)
        (d_value : D) (e_value : E) (f_value : F) (g_value : G) (h_value : H) (i_value : I)
        (j_value : J) (k_value : K) (l_value : L) → bytes_eq block_name name.now ≡ true
        → P.is_value a_value → Q.is_value b_value → R.is_value c_value → S.is_value d_value
        → T.is_value e_value → U.is_value f_value → V.is_value g_value → W.is_value h_value
        → X.is_value i_value → Y.is_value j_value → Z.is_value k_value → N.is_value l_value
        → NextLeaves M.mode parser.old (tuple_of block_name (documents (A.document a_value
        ∷ B.document b_value ∷ C.document c_value ∷ D.document d_value ∷ E.document e_value
        ∷ F.document f_value ∷ G.document g_value ∷ H.document h_value ∷ I.document i_value
        ∷ J.document j_value ∷ K.document k_value ∷ L.document l_value ∷ []))) parser.new) }
    ensures none { IfErr result (λ fault. fault ≡ Fault.NotText → (block_name : List ℕ)
        (a_value : A) (b_value : B) (c_value : C) (d_value : D) (e_value : E) (f_value : F)
        (g_value : G) (h_value : H) (i_value : I) (j_value : J) (k_value : K) (l_value : L)
        → bytes_eq block_name name.now ≡ true → P.is_value a_value → Q.is_value b_value
        → R.is_value c_value → S.is_value d_value → T.is_value e_value → U.is_value f_value
        → V.is_value g_value → W.is_value h_value → X.is_value i_value → Y.is_value j_value
        → Z.is_value k_value → N.is_value l_value → IsNotNext M.mode parser.old
        (tuple_of block_name (documents (A.document a_value ∷ B.document b_value
        ∷ C.document c_value ∷ D.document d_value ∷ E.document e_value ∷ F.document f_value
        ∷ G.document g_value ∷ H.document h_value ∷ I.document i_value ∷ J.document j_value
        ∷ K.document k_value ∷ L.document l_value ∷ [])))) }
    ensures alike { IfErr result (λ fault. fault ≡ Fault.NotText → (other : List ℕ)
        (others : Documents) (a_value : A) (b_value : B) (c_value : C) (d_value : D) (e_value : E)
        (f_value : F) (g_value : G) (h_value : H) (i_value : I) (j_value : J) (k_value : K)
        (l_value : L) → bytes_eq other name.now ≡ true → SameDocuments others (documents
        (A.document a_value ∷ B.document b_value ∷ C.document c_value ∷ D.document d_value
        ∷ E.document e_value ∷ F.document f_value ∷ G.document g_value ∷ H.document h_value
        ∷ I.document i_value ∷ J.document j_value ∷ K.document k_value ∷ L.document l_value ∷ []))
        → P.is_value a_value → Q.is_value b_value → R.is_value c_value → S.is_value d_value
        → T.is_value e_value → U.is_value f_value → V.is_value g_value → W.is_value h_value
        → X.is_value i_value → Y.is_value j_value → Z.is_value k_value → N.is_value l_value
        → IsNotNext M.mode parser.old (tuple_of other others)) }
    ensures memory { P.holds_no_memory × Q.holds_no_memory × R.holds_no_memory × S.holds_no_memory
        × T.holds_no_memory × U.holds_no_memory × V.holds_no_memory × W.holds_no_memory
        × X.holds_no_memory × Y.holds_no_memory × Z.holds_no_memory × N.holds_no_memory
        → IfErr result (λ fault. fault ≡ Fault.NotText) }
    ensures blocks { IfOk result (λ _. open_blocks parser.new ≡ open_blocks parser.old) }
    ensures shrinks { length (rest parser.new) ≤ length (rest parser.old) }
{
    parse_tuple(
        alloc,
        parser,
        name,
        &(
            a_by, b_by, c_by, d_by, e_by, f_by, g_by, h_by, i_by, j_by, k_by, l_by,
        ),
    )
}
