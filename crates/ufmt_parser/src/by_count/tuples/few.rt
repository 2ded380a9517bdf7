//! Tuples of 1 to 6 fields, each parsed by a parser. `x generate` writes this file: change its template in tools/data/by_count.
ghost use Rattle.std.specs.Prelude.{◌≤◌, ◌<◌, length, [], ◌∷◌, ◌≡◌, List, ℕ, suc, true, IfOk, IfErr};
ghost use Rattle.std.specs.Str.{bytes_eq};
ghost use Rattle.ufmt_core.specs.Alike.{SameDocuments};
ghost use Rattle.ufmt_core.specs.Document.{Documents, documents, tuple_of};
ghost use Rattle.ufmt_parser.specs.Naming.{is_debug_name_or_empty};
ghost use Rattle.ufmt_parser.specs.Next.{IsNotNext, NextLeaves};
ghost use Rattle.ufmt_parser.specs.Taking.{IsTaken, open_blocks, rest};

use crate::fields::parse_tuple;
use crate::mode::ParseMode;
use crate::parser::{Fault, Parser};
use crate::parses_by::ParsesBy;
use ufmt_core::uDebug;

/// Parses a tuple, its field by a parser.
pub fn parse_tuple_1<Alloc: Copy, M: ParseMode, A: uDebug + Drop, P: ParsesBy<Alloc, M, A>>(
    alloc: Alloc,
    parser: &mut Parser<'_, M>,
    name: &'static str,
    a_by: &P,
) -> Result<A, Fault>
    requires named { is_debug_name_or_empty name.now ≡ true }
    requires ready { open_blocks parser.old < 255 → P.ready a_by.now (suc (open_blocks parser.old)) }
    ensures values { IfOk result (λ v. P.is_value v) }
    ensures taken { IfOk result (λ v. IsTaken M.mode parser.old (tuple_of name.now (documents
        (A.document v ∷ []))) parser.new) }
    ensures only { IfOk result (λ _. (block_name : List ℕ) (a_value : A)
        → bytes_eq block_name name.now ≡ true → P.is_value a_value → NextLeaves M.mode parser.old
        (tuple_of block_name (documents (A.document a_value ∷ []))) parser.new) }
    ensures none { IfErr result (λ fault. fault ≡ Fault.NotText → (block_name : List ℕ)
        (a_value : A) → bytes_eq block_name name.now ≡ true → P.is_value a_value
        → IsNotNext M.mode parser.old (tuple_of block_name (documents (A.document a_value ∷ [])))) }
    ensures alike { IfErr result (λ fault. fault ≡ Fault.NotText → (other : List ℕ)
        (others : Documents) (a_value : A) → bytes_eq other name.now ≡ true → SameDocuments others
        (documents (A.document a_value ∷ [])) → P.is_value a_value → IsNotNext M.mode parser.old
        (tuple_of other others)) }
    ensures memory { P.holds_no_memory → IfErr result (λ fault. fault ≡ Fault.NotText) }
    ensures blocks { IfOk result (λ _. open_blocks parser.new ≡ open_blocks parser.old) }
    ensures shrinks { length (rest parser.new) ≤ length (rest parser.old) }
{
    match parse_tuple(alloc, parser, name, &(a_by,)) {
        Err(fault) => Err(fault),
        Ok((a_value,)) => Ok(a_value),
    }
}

/// Parses a tuple, each of its 2 fields by a parser.
#[inline(always)]
pub fn parse_tuple_2<
    Alloc: Copy,
    M: ParseMode,
    A: uDebug + Drop,
    B: uDebug + Drop,
    P: ParsesBy<Alloc, M, A>,
    Q: ParsesBy<Alloc, M, B>,
>(
    alloc: Alloc,
    parser: &mut Parser<'_, M>,
    name: &'static str,
    a_by: &P,
    b_by: &Q,
) -> Result<(A, B), Fault>
    requires named { is_debug_name_or_empty name.now ≡ true }
    requires ready { open_blocks parser.old < 255 → P.ready a_by.now (suc (open_blocks parser.old))
        × Q.ready b_by.now (suc (open_blocks parser.old)) }
    ensures values { IfOk result (λ v. P.is_value v.0 × Q.is_value v.1) }
    ensures taken { IfOk result (λ v. IsTaken M.mode parser.old (tuple_of name.now (documents
        (A.document v.0 ∷ B.document v.1 ∷ []))) parser.new) }
    ensures only { IfOk result (λ _. (block_name : List ℕ) (a_value : A) (b_value : B)
        → bytes_eq block_name name.now ≡ true → P.is_value a_value → Q.is_value b_value
        → NextLeaves M.mode parser.old (tuple_of block_name (documents (A.document a_value
        ∷ B.document b_value ∷ []))) parser.new) }
    ensures none { IfErr result (λ fault. fault ≡ Fault.NotText → (block_name : List ℕ)
        (a_value : A) (b_value : B) → bytes_eq block_name name.now ≡ true → P.is_value a_value
        → Q.is_value b_value → IsNotNext M.mode parser.old (tuple_of block_name (documents
        (A.document a_value ∷ B.document b_value ∷ [])))) }
    ensures alike { IfErr result (λ fault. fault ≡ Fault.NotText → (other : List ℕ)
        (others : Documents) (a_value : A) (b_value : B) → bytes_eq other name.now ≡ true
        → SameDocuments others (documents (A.document a_value ∷ B.document b_value ∷ []))
        → P.is_value a_value → Q.is_value b_value → IsNotNext M.mode parser.old
        (tuple_of other others)) }
    ensures memory { P.holds_no_memory × Q.holds_no_memory → IfErr result (λ fault.
        fault ≡ Fault.NotText) }
    ensures blocks { IfOk result (λ _. open_blocks parser.new ≡ open_blocks parser.old) }
    ensures shrinks { length (rest parser.new) ≤ length (rest parser.old) }
{
    parse_tuple(alloc, parser, name, &(a_by, b_by))
}

/// Parses a tuple, each of its 3 fields by a parser.
#[inline(always)]
pub fn parse_tuple_3<
    Alloc: Copy,
    M: ParseMode,
    A: uDebug + Drop,
    B: uDebug + Drop,
    C: uDebug + Drop,
    P: ParsesBy<Alloc, M, A>,
    Q: ParsesBy<Alloc, M, B>,
    R: ParsesBy<Alloc, M, C>,
>(
    alloc: Alloc,
    parser: &mut Parser<'_, M>,
    name: &'static str,
    a_by: &P,
    b_by: &Q,
    c_by: &R,
) -> Result<(A, B, C), Fault>
    requires named { is_debug_name_or_empty name.now ≡ true }
    requires ready { open_blocks parser.old < 255 → P.ready a_by.now (suc (open_blocks parser.old))
        × Q.ready b_by.now (suc (open_blocks parser.old))
        × R.ready c_by.now (suc (open_blocks parser.old)) }
    ensures values { IfOk result (λ v. P.is_value v.0 × Q.is_value v.1 × R.is_value v.2) }
    ensures taken { IfOk result (λ v. IsTaken M.mode parser.old (tuple_of name.now (documents
        (A.document v.0 ∷ B.document v.1 ∷ C.document v.2 ∷ []))) parser.new) }
    ensures only { IfOk result (λ _. (block_name : List ℕ) (a_value : A) (b_value : B) (c_value : C)
        → bytes_eq block_name name.now ≡ true → P.is_value a_value → Q.is_value b_value
        → R.is_value c_value → NextLeaves M.mode parser.old (tuple_of block_name (documents
        (A.document a_value ∷ B.document b_value ∷ C.document c_value ∷ []))) parser.new) }
    ensures none { IfErr result (λ fault. fault ≡ Fault.NotText → (block_name : List ℕ)
        (a_value : A) (b_value : B) (c_value : C) → bytes_eq block_name name.now ≡ true
        → P.is_value a_value → Q.is_value b_value → R.is_value c_value → IsNotNext M.mode parser.old
        (tuple_of block_name (documents (A.document a_value ∷ B.document b_value
        ∷ C.document c_value ∷ [])))) }
    ensures alike { IfErr result (λ fault. fault ≡ Fault.NotText → (other : List ℕ)
        (others : Documents) (a_value : A) (b_value : B) (c_value : C)
        → bytes_eq other name.now ≡ true → SameDocuments others (documents (A.document a_value
        ∷ B.document b_value ∷ C.document c_value ∷ [])) → P.is_value a_value → Q.is_value b_value
        → R.is_value c_value → IsNotNext M.mode parser.old (tuple_of other others)) }
    ensures memory { P.holds_no_memory × Q.holds_no_memory × R.holds_no_memory
        → IfErr result (λ fault. fault ≡ Fault.NotText) }
    ensures blocks { IfOk result (λ _. open_blocks parser.new ≡ open_blocks parser.old) }
    ensures shrinks { length (rest parser.new) ≤ length (rest parser.old) }
{
    parse_tuple(alloc, parser, name, &(a_by, b_by, c_by))
}

/// Parses a tuple, each of its 4 fields by a parser.
#[inline(always)]
pub fn parse_tuple_4<
    Alloc: Copy,
    M: ParseMode,
    A: uDebug + Drop,
    B: uDebug + Drop,
    C: uDebug + Drop,
    D: uDebug + Drop,
    P: ParsesBy<Alloc, M, A>,
    Q: ParsesBy<Alloc, M, B>,
    R: ParsesBy<Alloc, M, C>,
    S: ParsesBy<Alloc, M, D>,
>(
    alloc: Alloc,
    parser: &mut Parser<'_, M>,
    name: &'static str,
    a_by: &P,
    b_by: &Q,
    c_by: &R,
    d_by: &S,
) -> Result<(A, B, C, D), Fault>
    requires named { is_debug_name_or_empty name.now ≡ true }
    requires ready { open_blocks parser.old < 255 → P.ready a_by.now (suc (open_blocks parser.old))
        × Q.ready b_by.now (suc (open_blocks parser.old))
        × R.ready c_by.now (suc (open_blocks parser.old))
        × S.ready d_by.now (suc (open_blocks parser.old)) }
    ensures values { IfOk result (λ v. P.is_value v.0 × Q.is_value v.1 × R.is_value v.2 × S.is_value v.3) }
    ensures taken { IfOk result (λ v. IsTaken M.mode parser.old (tuple_of name.now (documents
        (A.document v.0 ∷ B.document v.1 ∷ C.document v.2 ∷ D.document v.3 ∷ []))) parser.new) }
    ensures only { IfOk result (λ _. (block_name : List ℕ) (a_value : A) (b_value : B) (c_value : C)
        (d_value : D) → bytes_eq block_name name.now ≡ true → P.is_value a_value
        → Q.is_value b_value → R.is_value c_value → S.is_value d_value
        → NextLeaves M.mode parser.old (tuple_of block_name (documents (A.document a_value
        ∷ B.document b_value ∷ C.document c_value ∷ D.document d_value ∷ []))) parser.new) }
    ensures none { IfErr result (λ fault. fault ≡ Fault.NotText → (block_name : List ℕ)
        (a_value : A) (b_value : B) (c_value : C) (d_value : D)
        → bytes_eq block_name name.now ≡ true → P.is_value a_value → Q.is_value b_value
        → R.is_value c_value → S.is_value d_value → IsNotNext M.mode parser.old
        (tuple_of block_name (documents (A.document a_value ∷ B.document b_value
        ∷ C.document c_value ∷ D.document d_value ∷ [])))) }
    ensures alike { IfErr result (λ fault. fault ≡ Fault.NotText → (other : List ℕ)
        (others : Documents) (a_value : A) (b_value : B) (c_value : C) (d_value : D)
        → bytes_eq other name.now ≡ true → SameDocuments others (documents (A.document a_value
        ∷ B.document b_value ∷ C.document c_value ∷ D.document d_value ∷ [])) → P.is_value a_value
        → Q.is_value b_value → R.is_value c_value → S.is_value d_value → IsNotNext M.mode parser.old
        (tuple_of other others)) }
    ensures memory { P.holds_no_memory × Q.holds_no_memory × R.holds_no_memory × S.holds_no_memory
        → IfErr result (λ fault. fault ≡ Fault.NotText) }
    ensures blocks { IfOk result (λ _. open_blocks parser.new ≡ open_blocks parser.old) }
    ensures shrinks { length (rest parser.new) ≤ length (rest parser.old) }
{
    parse_tuple(alloc, parser, name, &(a_by, b_by, c_by, d_by))
}

/// Parses a tuple, each of its 5 fields by a parser.
#[inline(always)]
pub fn parse_tuple_5<
    Alloc: Copy,
    M: ParseMode,
    A: uDebug + Drop,
    B: uDebug + Drop,
    C: uDebug + Drop,
    D: uDebug + Drop,
    E: uDebug + Drop,
    P: ParsesBy<Alloc, M, A>,
    Q: ParsesBy<Alloc, M, B>,
    R: ParsesBy<Alloc, M, C>,
    S: ParsesBy<Alloc, M, D>,
    T: ParsesBy<Alloc, M, E>,
>(
    alloc: Alloc,
    parser: &mut Parser<'_, M>,
    name: &'static str,
    a_by: &P,
    b_by: &Q,
    c_by: &R,
    d_by: &S,
    e_by: &T,
) -> Result<(A, B, C, D, E), Fault>
    requires named { is_debug_name_or_empty name.now ≡ true }
    requires ready { open_blocks parser.old < 255 → P.ready a_by.now (suc (open_blocks parser.old))
        × Q.ready b_by.now (suc (open_blocks parser.old))
        × R.ready c_by.now (suc (open_blocks parser.old))
        × S.ready d_by.now (suc (open_blocks parser.old))
        × T.ready e_by.now (suc (open_blocks parser.old)) }
    ensures values { IfOk result (λ v. P.is_value v.0 × Q.is_value v.1 × R.is_value v.2 × S.is_value v.3 × T.is_value v.4) }
    ensures taken { IfOk result (λ v. IsTaken M.mode parser.old (tuple_of name.now (documents
        (A.document v.0 ∷ B.document v.1 ∷ C.document v.2 ∷ D.document v.3 ∷ E.document v.4 ∷ [])))
        parser.new) }
    ensures only { IfOk result (λ _. (block_name : List ℕ) (a_value : A) (b_value : B) (c_value : C)
        (d_value : D) (e_value : E) → bytes_eq block_name name.now ≡ true → P.is_value a_value
        → Q.is_value b_value → R.is_value c_value → S.is_value d_value → T.is_value e_value
        → NextLeaves M.mode parser.old (tuple_of block_name (documents (A.document a_value
        ∷ B.document b_value ∷ C.document c_value ∷ D.document d_value ∷ E.document e_value ∷ [])))
        parser.new) }
    ensures none { IfErr result (λ fault. fault ≡ Fault.NotText → (block_name : List ℕ)
        (a_value : A) (b_value : B) (c_value : C) (d_value : D) (e_value : E)
        → bytes_eq block_name name.now ≡ true → P.is_value a_value → Q.is_value b_value
        → R.is_value c_value → S.is_value d_value → T.is_value e_value → IsNotNext M.mode parser.old
        (tuple_of block_name (documents (A.document a_value ∷ B.document b_value
        ∷ C.document c_value ∷ D.document d_value ∷ E.document e_value ∷ [])))) }
    ensures alike { IfErr result (λ fault. fault ≡ Fault.NotText → (other : List ℕ)
        (others : Documents) (a_value : A) (b_value : B) (c_value : C) (d_value : D) (e_value : E)
        → bytes_eq other name.now ≡ true → SameDocuments others (documents (A.document a_value
        ∷ B.document b_value ∷ C.document c_value ∷ D.document d_value ∷ E.document e_value ∷ []))
        → P.is_value a_value → Q.is_value b_value → R.is_value c_value → S.is_value d_value
        → T.is_value e_value → IsNotNext M.mode parser.old (tuple_of other others)) }
    ensures memory { P.holds_no_memory × Q.holds_no_memory × R.holds_no_memory × S.holds_no_memory
        × T.holds_no_memory → IfErr result (λ fault. fault ≡ Fault.NotText) }
    ensures blocks { IfOk result (λ _. open_blocks parser.new ≡ open_blocks parser.old) }
    ensures shrinks { length (rest parser.new) ≤ length (rest parser.old) }
{
    parse_tuple(alloc, parser, name, &(a_by, b_by, c_by, d_by, e_by))
}

/// Parses a tuple, each of its 6 fields by a parser.
#[inline(always)]
pub fn parse_tuple_6<
    Alloc: Copy,
    M: ParseMode,
    A: uDebug + Drop,
    B: uDebug + Drop,
    C: uDebug + Drop,
    D: uDebug + Drop,
    E: uDebug + Drop,
    F: uDebug + Drop,
    P: ParsesBy<Alloc, M, A>,
    Q: ParsesBy<Alloc, M, B>,
    R: ParsesBy<Alloc, M, C>,
    S: ParsesBy<Alloc, M, D>,
    T: ParsesBy<Alloc, M, E>,
    U: ParsesBy<Alloc, M, F>,
>(
    alloc: Alloc,
    parser: &mut Parser<'_, M>,
    name: &'static str,
    a_by: &P,
    b_by: &Q,
    c_by: &R,
    d_by: &S,
    e_by: &T,
    f_by: &U,
) -> Result<(A, B, C, D, E, F), Fault>
    requires named { is_debug_name_or_empty name.now ≡ true }
    requires ready { open_blocks parser.old < 255 → P.ready a_by.now (suc (open_blocks parser.old))
        × Q.ready b_by.now (suc (open_blocks parser.old))
        × R.ready c_by.now (suc (open_blocks parser.old))
        × S.ready d_by.now (suc (open_blocks parser.old))
        × T.ready e_by.now (suc (open_blocks parser.old))
        × U.ready f_by.now (suc (open_blocks parser.old)) }
    ensures values { IfOk result (λ v. P.is_value v.0 × Q.is_value v.1 × R.is_value v.2 × S.is_value v.3 × T.is_value v.4 × U.is_value v.5) }
    ensures taken { IfOk result (λ v. IsTaken M.mode parser.old (tuple_of name.now (documents
        (A.document v.0 ∷ B.document v.1 ∷ C.document v.2 ∷ D.document v.3 ∷ E.document v.4
        ∷ F.document v.5 ∷ []))) parser.new) }
    ensures only { IfOk result (λ _. (block_name : List ℕ) (a_value : A) (b_value : B) (c_value : C)
        (d_value : D) (e_value : E) (f_value : F) → bytes_eq block_name name.now ≡ true
        → P.is_value a_value → Q.is_value b_value → R.is_value c_value → S.is_value d_value
        → T.is_value e_value → U.is_value f_value → NextLeaves M.mode parser.old
        (tuple_of block_name (documents (A.document a_value ∷ B.document b_value
        ∷ C.document c_value ∷ D.document d_value ∷ E.document e_value ∷ F.document f_value ∷ [])))
        parser.new) }
    ensures none { IfErr result (λ fault. fault ≡ Fault.NotText → (block_name : List ℕ)
        (a_value : A) (b_value : B) (c_value : C) (d_value : D) (e_value : E) (f_value : F)
        → bytes_eq block_name name.now ≡ true → P.is_value a_value → Q.is_value b_value
        → R.is_value c_value → S.is_value d_value → T.is_value e_value → U.is_value f_value
        → IsNotNext M.mode parser.old (tuple_of block_name (documents (A.document a_value
        ∷ B.document b_value ∷ C.document c_value ∷ D.document d_value ∷ E.document e_value
        ∷ F.document f_value ∷ [])))) }
    ensures alike { IfErr result (λ fault. fault ≡ Fault.NotText → (other : List ℕ)
        (others : Documents) (a_value : A) (b_value : B) (c_value : C) (d_value : D) (e_value : E)
        (f_value : F) → bytes_eq other name.now ≡ true → SameDocuments others (documents
        (A.document a_value ∷ B.document b_value ∷ C.document c_value ∷ D.document d_value
        ∷ E.document e_value ∷ F.document f_value ∷ [])) → P.is_value a_value → Q.is_value b_value
        → R.is_value c_value → S.is_value d_value → T.is_value e_value → U.is_value f_value
        → IsNotNext M.mode parser.old (tuple_of other others)) }
    ensures memory { P.holds_no_memory × Q.holds_no_memory × R.holds_no_memory × S.holds_no_memory
        × T.holds_no_memory × U.holds_no_memory → IfErr result (λ fault. fault ≡ Fault.NotText) }
    ensures blocks { IfOk result (λ _. open_blocks parser.new ≡ open_blocks parser.old) }
    ensures shrinks { length (rest parser.new) ≤ length (rest parser.old) }
{
    parse_tuple(alloc, parser, name, &(a_by, b_by, c_by, d_by, e_by, f_by))
}
