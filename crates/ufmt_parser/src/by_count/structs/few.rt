//! Structs of 1 to 6 fields, each parsed by a parser. `x generate` writes this file: change its template in tools/data/by_count.
ghost use Rattle.std.specs.Prelude.{◌≤◌, ◌<◌, length, [], ◌∷◌, ◌≡◌, List, ℕ, suc, true, IfOk, IfErr};
ghost use Rattle.std.specs.Str.{bytes_eq};
ghost use Rattle.ufmt_core.specs.Alike.{SameFields};
ghost use Rattle.ufmt_core.specs.Document.{Fields, fields_of, struct_of};
ghost use Rattle.ufmt_parser.specs.Naming.{are_debug_names, same_names};
ghost use Rattle.ufmt_parser.specs.Next.{IsNotNext, NextLeaves};
ghost use Rattle.ufmt_parser.specs.Taking.{IsTaken, open_blocks, rest};

use crate::fields::parse_struct;
use crate::mode::ParseMode;
use crate::parser::{Fault, Parser};
use crate::parses_by::ParsesBy;
use ufmt_core::uDebug;

/// Parses a struct, its field by a parser.
#[inline(always)]
pub fn parse_struct_1<Alloc: Copy, M: ParseMode, A: uDebug + Drop, P: ParsesBy<Alloc, M, A>>(
    alloc: Alloc,
    parser: &mut Parser<'_, M>,
    name: &'static str,
    a: &'static str,
    a_by: &P,
) -> Result<A, Fault>
    requires named { are_debug_names (name.now ∷ a.now ∷ []) ≡ true }
    requires ready { open_blocks parser.old < 255 → P.ready a_by.now (suc (open_blocks parser.old)) }
    ensures values { IfOk result (λ v. P.is_value v) }
    ensures taken { IfOk result (λ v. IsTaken M.mode parser.old (struct_of name.now (fields_of
        ((a.now, A.document v) ∷ []))) parser.new) }
    ensures only { IfOk result (λ _. (block_name a_name : List ℕ) (a_value : A)
        → same_names (block_name ∷ a_name ∷ []) (name.now ∷ a.now ∷ []) ≡ true → P.is_value a_value
        → NextLeaves M.mode parser.old (struct_of block_name (fields_of
        ((a_name, A.document a_value) ∷ []))) parser.new) }
    ensures none { IfErr result (λ fault. fault ≡ Fault.NotText → (block_name a_name : List ℕ)
        (a_value : A) → same_names (block_name ∷ a_name ∷ []) (name.now ∷ a.now ∷ []) ≡ true
        → P.is_value a_value → IsNotNext M.mode parser.old (struct_of block_name (fields_of
        ((a_name, A.document a_value) ∷ [])))) }
    ensures alike { IfErr result (λ fault. fault ≡ Fault.NotText → (other : List ℕ)
        (others : Fields) (a_value : A) → bytes_eq other name.now ≡ true → SameFields others
        (fields_of ((a.now, A.document a_value) ∷ [])) → P.is_value a_value
        → IsNotNext M.mode parser.old (struct_of other others)) }
    ensures memory { P.holds_no_memory → IfErr result (λ fault. fault ≡ Fault.NotText) }
    ensures blocks { IfOk result (λ _. open_blocks parser.new ≡ open_blocks parser.old) }
    ensures shrinks { length (rest parser.new) ≤ length (rest parser.old) }
{
    match parse_struct(alloc, parser, name, &[a], &(a_by,)) {
        Err(fault) => Err(fault),
        Ok((a_value,)) => Ok(a_value),
    }
}

/// Parses a struct, each of its 2 fields by a parser.
#[inline(always)]
pub fn parse_struct_2<
    Alloc: Copy,
    M: ParseMode,
    A: uDebug + Drop,
    B: uDebug + Drop,
    P: ParsesBy<Alloc, M, A>,
    Q: ParsesBy<Alloc, M, B>,
>(
    alloc: Alloc,
    parser: &mut Parser<'_, M>,
    name: &'static str,
    a: &'static str,
    a_by: &P,
    b: &'static str,
    b_by: &Q,
) -> Result<(A, B), Fault>
    requires named { are_debug_names (name.now ∷ a.now ∷ b.now ∷ []) ≡ true }
    requires ready { open_blocks parser.old < 255 → P.ready a_by.now (suc (open_blocks parser.old))
        × Q.ready b_by.now (suc (open_blocks parser.old)) }
    ensures values { IfOk result (λ v. P.is_value v.0 × Q.is_value v.1) }
    ensures taken { IfOk result (λ v. IsTaken M.mode parser.old (struct_of name.now (fields_of
        ((a.now, A.document v.0) ∷ (b.now, B.document v.1) ∷ []))) parser.new) }
    ensures only { IfOk result (λ _. (block_name a_name b_name : List ℕ) (a_value : A) (b_value : B)
        → same_names (block_name ∷ a_name ∷ b_name ∷ []) (name.now ∷ a.now ∷ b.now ∷ []) ≡ true
        → P.is_value a_value → Q.is_value b_value → NextLeaves M.mode parser.old
        (struct_of block_name (fields_of ((a_name, A.document a_value)
        ∷ (b_name, B.document b_value) ∷ []))) parser.new) }
    ensures none { IfErr result (λ fault. fault ≡ Fault.NotText →
        (block_name a_name b_name : List ℕ) (a_value : A) (b_value : B)
        → same_names (block_name ∷ a_name ∷ b_name ∷ []) (name.now ∷ a.now ∷ b.now ∷ []) ≡ true
        → P.is_value a_value → Q.is_value b_value → IsNotNext M.mode parser.old
        (struct_of block_name (fields_of ((a_name, A.document a_value)
        ∷ (b_name, B.document b_value) ∷ [])))) }
    ensures alike { IfErr result (λ fault. fault ≡ Fault.NotText → (other : List ℕ)
        (others : Fields) (a_value : A) (b_value : B) → bytes_eq other name.now ≡ true
        → SameFields others (fields_of ((a.now, A.document a_value) ∷ (b.now, B.document b_value)
        ∷ [])) → P.is_value a_value → Q.is_value b_value → IsNotNext M.mode parser.old
        (struct_of other others)) }
    ensures memory { P.holds_no_memory × Q.holds_no_memory → IfErr result (λ fault.
        fault ≡ Fault.NotText) }
    ensures blocks { IfOk result (λ _. open_blocks parser.new ≡ open_blocks parser.old) }
    ensures shrinks { length (rest parser.new) ≤ length (rest parser.old) }
{
    parse_struct(alloc, parser, name, &[a, b], &(a_by, b_by))
}

/// Parses a struct, each of its 3 fields by a parser.
#[inline(always)]
pub fn parse_struct_3<
    Alloc: Copy,
    M: ParseMode,
    A: uDebug + Drop,
    B: uDebug + Drop,
    C: uDebug + Drop,
    P: ParsesBy<Alloc, M, A>,
    Q: ParsesBy<Alloc, M, B>,
    R: ParsesBy<Alloc, M, C>,
>(
    alloc: Alloc,
    parser: &mut Parser<'_, M>,
    name: &'static str,
    a: &'static str,
    a_by: &P,
    b: &'static str,
    b_by: &Q,
    c: &'static str,
    c_by: &R,
) -> Result<(A, B, C), Fault>
    requires named { are_debug_names (name.now ∷ a.now ∷ b.now ∷ c.now ∷ []) ≡ true }
    requires ready { open_blocks parser.old < 255 → P.ready a_by.now (suc (open_blocks parser.old))
        × Q.ready b_by.now (suc (open_blocks parser.old))
        × R.ready c_by.now (suc (open_blocks parser.old)) }
    ensures values { IfOk result (λ v. P.is_value v.0 × Q.is_value v.1 × R.is_value v.2) }
    ensures taken { IfOk result (λ v. IsTaken M.mode parser.old (struct_of name.now (fields_of
        ((a.now, A.document v.0) ∷ (b.now, B.document v.1) ∷ (c.now, C.document v.2) ∷ [])))
        parser.new) }
    ensures only { IfOk result (λ _. (block_name a_name b_name c_name : List ℕ) (a_value : A)
        (b_value : B) (c_value : C) → same_names (block_name ∷ a_name ∷ b_name ∷ c_name ∷ [])
        (name.now ∷ a.now ∷ b.now ∷ c.now ∷ []) ≡ true → P.is_value a_value → Q.is_value b_value
        → R.is_value c_value → NextLeaves M.mode parser.old (struct_of block_name (fields_of
        ((a_name, A.document a_value) ∷ (b_name, B.document b_value) ∷ (c_name, C.document c_value)
        ∷ []))) parser.new) }
    ensures none { IfErr result (λ fault. fault ≡ Fault.NotText →
        (block_name a_name b_name c_name : List ℕ) (a_value : A) (b_value : B) (c_value : C)
        → same_names (block_name ∷ a_name ∷ b_name ∷ c_name ∷ [])
        (name.now ∷ a.now ∷ b.now ∷ c.now ∷ []) ≡ true → P.is_value a_value → Q.is_value b_value
        → R.is_value c_value → IsNotNext M.mode parser.old (struct_of block_name (fields_of
        ((a_name, A.document a_value) ∷ (b_name, B.document b_value) ∷ (c_name, C.document c_value)
        ∷ [])))) }
    ensures alike { IfErr result (λ fault. fault ≡ Fault.NotText → (other : List ℕ)
        (others : Fields) (a_value : A) (b_value : B) (c_value : C) → bytes_eq other name.now ≡ true
        → SameFields others (fields_of ((a.now, A.document a_value) ∷ (b.now, B.document b_value)
        ∷ (c.now, C.document c_value) ∷ [])) → P.is_value a_value → Q.is_value b_value
        → R.is_value c_value → IsNotNext M.mode parser.old (struct_of other others)) }
    ensures memory { P.holds_no_memory × Q.holds_no_memory × R.holds_no_memory
        → IfErr result (λ fault. fault ≡ Fault.NotText) }
    ensures blocks { IfOk result (λ _. open_blocks parser.new ≡ open_blocks parser.old) }
    ensures shrinks { length (rest parser.new) ≤ length (rest parser.old) }
{
    parse_struct(alloc, parser, name, &[a, b, c], &(a_by, b_by, c_by))
}

/// Parses a struct, each of its 4 fields by a parser.
#[inline(always)]
pub fn parse_struct_4<
    Alloc: Copy,
    M: ParseMode,
    A: uDebug + Drop,
    B: uDebug + Drop,
    C: uDebug + Drop,
    D: uDebug + Drop,
    P: ParsesBy<Alloc, M, A>,
    Q: ParsesBy<Alloc, M, B>,
    R: ParsesBy<Alloc, M, C>,
    S: ParsesBy<Alloc, M, D>,
>(
    alloc: Alloc,
    parser: &mut Parser<'_, M>,
    name: &'static str,
    a: &'static str,
    a_by: &P,
    b: &'static str,
    b_by: &Q,
    c: &'static str,
    c_by: &R,
    d: &'static str,
    d_by: &S,
) -> Result<(A, B, C, D), Fault>
    requires named { are_debug_names (name.now ∷ a.now ∷ b.now ∷ c.now ∷ d.now ∷ []) ≡ true }
    requires ready { open_blocks parser.old < 255 → P.ready a_by.now (suc (open_blocks parser.old))
        × Q.ready b_by.now (suc (open_blocks parser.old))
        × R.ready c_by.now (suc (open_blocks parser.old))
        × S.ready d_by.now (suc (open_blocks parser.old)) }
    ensures values { IfOk result (λ v. P.is_value v.0 × Q.is_value v.1 × R.is_value v.2 × S.is_value v.3) }
    ensures taken { IfOk result (λ v. IsTaken M.mode parser.old (struct_of name.now (fields_of
        ((a.now, A.document v.0) ∷ (b.now, B.document v.1) ∷ (c.now, C.document v.2)
        ∷ (d.now, D.document v.3) ∷ []))) parser.new) }
    ensures only { IfOk result (λ _. (block_name a_name b_name c_name d_name : List ℕ) (a_value : A)
        (b_value : B) (c_value : C) (d_value : D)
        → same_names (block_name ∷ a_name ∷ b_name ∷ c_name ∷ d_name ∷ [])
        (name.now ∷ a.now ∷ b.now ∷ c.now ∷ d.now ∷ []) ≡ true → P.is_value a_value
        → Q.is_value b_value → R.is_value c_value → S.is_value d_value
        → NextLeaves M.mode parser.old (struct_of block_name (fields_of
        ((a_name, A.document a_value) ∷ (b_name, B.document b_value) ∷ (c_name, C.document c_value)
        ∷ (d_name, D.document d_value) ∷ []))) parser.new) }
    ensures none { IfErr result (λ fault. fault ≡ Fault.NotText →
        (block_name a_name b_name c_name d_name : List ℕ) (a_value : A) (b_value : B) (c_value : C)
        (d_value : D) → same_names (block_name ∷ a_name ∷ b_name ∷ c_name ∷ d_name ∷ [])
        (name.now ∷ a.now ∷ b.now ∷ c.now ∷ d.now ∷ []) ≡ true → P.is_value a_value
        → Q.is_value b_value → R.is_value c_value → S.is_value d_value → IsNotNext M.mode parser.old
        (struct_of block_name (fields_of ((a_name, A.document a_value)
        ∷ (b_name, B.document b_value) ∷ (c_name, C.document c_value) ∷ (d_name, D.document d_value)
        ∷ [])))) }
    ensures alike { IfErr result (λ fault. fault ≡ Fault.NotText → (other : List ℕ)
        (others : Fields) (a_value : A) (b_value : B) (c_value : C) (d_value : D)
        → bytes_eq other name.now ≡ true → SameFields others (fields_of ((a.now, A.document a_value)
        ∷ (b.now, B.document b_value) ∷ (c.now, C.document c_value) ∷ (d.now, D.document d_value)
        ∷ [])) → P.is_value a_value → Q.is_value b_value → R.is_value c_value → S.is_value d_value
        → IsNotNext M.mode parser.old (struct_of other others)) }
    ensures memory { P.holds_no_memory × Q.holds_no_memory × R.holds_no_memory × S.holds_no_memory
        → IfErr result (λ fault. fault ≡ Fault.NotText) }
    ensures blocks { IfOk result (λ _. open_blocks parser.new ≡ open_blocks parser.old) }
    ensures shrinks { length (rest parser.new) ≤ length (rest parser.old) }
{
    parse_struct(
        alloc,
        parser,
        name,
        &[a, b, c, d],
        &(a_by, b_by, c_by, d_by),
    )
}

/// Parses a struct, each of its 5 fields by a parser.
#[inline(always)]
pub fn parse_struct_5<
    Alloc: Copy,
    M: ParseMode,
    A: uDebug + Drop,
    B: uDebug + Drop,
    C: uDebug + Drop,
    D: uDebug + Drop,
    E: uDebug + Drop,
    P: ParsesBy<Alloc, M, A>,
    Q: ParsesBy<Alloc, M, B>,
    R: ParsesBy<Alloc, M, C>,
    S: ParsesBy<Alloc, M, D>,
    T: ParsesBy<Alloc, M, E>,
>(
    alloc: Alloc,
    parser: &mut Parser<'_, M>,
    name: &'static str,
    a: &'static str,
    a_by: &P,
    b: &'static str,
    b_by: &Q,
    c: &'static str,
    c_by: &R,
    d: &'static str,
    d_by: &S,
    e: &'static str,
    e_by: &T,
) -> Result<(A, B, C, D, E), Fault>
    requires named { are_debug_names (name.now ∷ a.now ∷ b.now ∷ c.now ∷ d.now ∷ e.now ∷ []) ≡ true }
    requires ready { open_blocks parser.old < 255 → P.ready a_by.now (suc (open_blocks parser.old))
        × Q.ready b_by.now (suc (open_blocks parser.old))
        × R.ready c_by.now (suc (open_blocks parser.old))
        × S.ready d_by.now (suc (open_blocks parser.old))
        × T.ready e_by.now (suc (open_blocks parser.old)) }
    ensures values { IfOk result (λ v. P.is_value v.0 × Q.is_value v.1 × R.is_value v.2 × S.is_value v.3 × T.is_value v.4) }
    ensures taken { IfOk result (λ v. IsTaken M.mode parser.old (struct_of name.now (fields_of
        ((a.now, A.document v.0) ∷ (b.now, B.document v.1) ∷ (c.now, C.document v.2)
        ∷ (d.now, D.document v.3) ∷ (e.now, E.document v.4) ∷ []))) parser.new) }
    ensures only { IfOk result (λ _. (block_name a_name b_name c_name d_name e_name : List ℕ)
        (a_value : A) (b_value : B) (c_value : C) (d_value : D) (e_value : E)
        → same_names (block_name ∷ a_name ∷ b_name ∷ c_name ∷ d_name ∷ e_name ∷ [])
        (name.now ∷ a.now ∷ b.now ∷ c.now ∷ d.now ∷ e.now ∷ []) ≡ true → P.is_value a_value
        → Q.is_value b_value → R.is_value c_value → S.is_value d_value → T.is_value e_value
        → NextLeaves M.mode parser.old (struct_of block_name (fields_of
        ((a_name, A.document a_value) ∷ (b_name, B.document b_value) ∷ (c_name, C.document c_value)
        ∷ (d_name, D.document d_value) ∷ (e_name, E.document e_value) ∷ []))) parser.new) }
    ensures none { IfErr result (λ fault. fault ≡ Fault.NotText →
        (block_name a_name b_name c_name d_name e_name : List ℕ) (a_value : A) (b_value : B)
        (c_value : C) (d_value : D) (e_value : E)
        → same_names (block_name ∷ a_name ∷ b_name ∷ c_name ∷ d_name ∷ e_name ∷ [])
        (name.now ∷ a.now ∷ b.now ∷ c.now ∷ d.now ∷ e.now ∷ []) ≡ true → P.is_value a_value
        → Q.is_value b_value → R.is_value c_value → S.is_value d_value → T.is_value e_value
        → IsNotNext M.mode parser.old (struct_of block_name (fields_of ((a_name, A.document a_value)
        ∷ (b_name, B.document b_value) ∷ (c_name, C.document c_value) ∷ (d_name, D.document d_value)
        ∷ (e_name, E.document e_value) ∷ [])))) }
    ensures alike { IfErr result (λ fault. fault ≡ Fault.NotText → (other : List ℕ)
        (others : Fields) (a_value : A) (b_value : B) (c_value : C) (d_value : D) (e_value : E)
        → bytes_eq other name.now ≡ true → SameFields others (fields_of ((a.now, A.document a_value)
        ∷ (b.now, B.document b_value) ∷ (c.now, C.document c_value) ∷ (d.now, D.document d_value)
        ∷ (e.now, E.document e_value) ∷ [])) → P.is_value a_value → Q.is_value b_value
        → R.is_value c_value → S.is_value d_value → T.is_value e_value → IsNotNext M.mode parser.old
        (struct_of other others)) }
    ensures memory { P.holds_no_memory × Q.holds_no_memory × R.holds_no_memory × S.holds_no_memory
        × T.holds_no_memory → IfErr result (λ fault. fault ≡ Fault.NotText) }
    ensures blocks { IfOk result (λ _. open_blocks parser.new ≡ open_blocks parser.old) }
    ensures shrinks { length (rest parser.new) ≤ length (rest parser.old) }
{
    parse_struct(
        alloc,
        parser,
        name,
        &[a, b, c, d, e],
        &(a_by, b_by, c_by, d_by, e_by),
    )
}

/// Parses a struct, each of its 6 fields by a parser.
#[inline(always)]
pub fn parse_struct_6<
    Alloc: Copy,
    M: ParseMode,
    A: uDebug + Drop,
    B: uDebug + Drop,
    C: uDebug + Drop,
    D: uDebug + Drop,
    E: uDebug + Drop,
    F: uDebug + Drop,
    P: ParsesBy<Alloc, M, A>,
    Q: ParsesBy<Alloc, M, B>,
    R: ParsesBy<Alloc, M, C>,
    S: ParsesBy<Alloc, M, D>,
    T: ParsesBy<Alloc, M, E>,
    U: ParsesBy<Alloc, M, F>,
>(
    alloc: Alloc,
    parser: &mut Parser<'_, M>,
    name: &'static str,
    a: &'static str,
    a_by: &P,
    b: &'static str,
    b_by: &Q,
    c: &'static str,
    c_by: &R,
    d: &'static str,
    d_by: &S,
    e: &'static str,
    e_by: &T,
    f: &'static str,
    f_by: &U,
) -> Result<(A, B, C, D, E, F), Fault>
    requires named { are_debug_names (name.now ∷ a.now ∷ b.now ∷ c.now ∷ d.now ∷ e.now ∷ f.now ∷ []) ≡ true }
    requires ready { open_blocks parser.old < 255 → P.ready a_by.now (suc (open_blocks parser.old))
        × Q.ready b_by.now (suc (open_blocks parser.old))
        × R.ready c_by.now (suc (open_blocks parser.old))
        × S.ready d_by.now (suc (open_blocks parser.old))
        × T.ready e_by.now (suc (open_blocks parser.old))
        × U.ready f_by.now (suc (open_blocks parser.old)) }
    ensures values { IfOk result (λ v. P.is_value v.0 × Q.is_value v.1 × R.is_value v.2 × S.is_value v.3 × T.is_value v.4 × U.is_value v.5) }
    ensures taken { IfOk result (λ v. IsTaken M.mode parser.old (struct_of name.now (fields_of
        ((a.now, A.document v.0) ∷ (b.now, B.document v.1) ∷ (c.now, C.document v.2)
        ∷ (d.now, D.document v.3) ∷ (e.now, E.document v.4) ∷ (f.now, F.document v.5) ∷ [])))
        parser.new) }
    ensures only { IfOk result (λ _. (block_name a_name b_name c_name d_name e_name f_name : List ℕ)
        (a_value : A) (b_value : B) (c_value : C) (d_value : D) (e_value : E) (f_value : F)
        → same_names (block_name ∷ a_name ∷ b_name ∷ c_name ∷ d_name ∷ e_name ∷ f_name ∷ [])
        (name.now ∷ a.now ∷ b.now ∷ c.now ∷ d.now ∷ e.now ∷ f.now ∷ []) ≡ true → P.is_value a_value
        → Q.is_value b_value → R.is_value c_value → S.is_value d_value → T.is_value e_value
        → U.is_value f_value → NextLeaves M.mode parser.old (struct_of block_name (fields_of
        ((a_name, A.document a_value) ∷ (b_name, B.document b_value) ∷ (c_name, C.document c_value)
        ∷ (d_name, D.document d_value) ∷ (e_name, E.document e_value) ∷ (f_name, F.document f_value)
        ∷ []))) parser.new) }
    ensures none { IfErr result (λ fault. fault ≡ Fault.NotText →
        (block_name a_name b_name c_name d_name e_name f_name : List ℕ) (a_value : A) (b_value : B)
        (c_value : C) (d_value : D) (e_value : E) (f_value : F)
        → same_names (block_name ∷ a_name ∷ b_name ∷ c_name ∷ d_name ∷ e_name ∷ f_name ∷ [])
        (name.now ∷ a.now ∷ b.now ∷ c.now ∷ d.now ∷ e.now ∷ f.now ∷ []) ≡ true → P.is_value a_value
        → Q.is_value b_value → R.is_value c_value → S.is_value d_value → T.is_value e_value
        → U.is_value f_value → IsNotNext M.mode parser.old (struct_of block_name (fields_of
        ((a_name, A.document a_value) ∷ (b_name, B.document b_value) ∷ (c_name, C.document c_value)
        ∷ (d_name, D.document d_value) ∷ (e_name, E.document e_value) ∷ (f_name, F.document f_value)
        ∷ [])))) }
    ensures alike { IfErr result (λ fault. fault ≡ Fault.NotText → (other : List ℕ)
        (others : Fields) (a_value : A) (b_value : B) (c_value : C) (d_value : D) (e_value : E)
        (f_value : F) → bytes_eq other name.now ≡ true → SameFields others (fields_of
        ((a.now, A.document a_value) ∷ (b.now, B.document b_value) ∷ (c.now, C.document c_value)
        ∷ (d.now, D.document d_value) ∷ (e.now, E.document e_value) ∷ (f.now, F.document f_value)
        ∷ [])) → P.is_value a_value → Q.is_value b_value → R.is_value c_value → S.is_value d_value
        → T.is_value e_value → U.is_value f_value → IsNotNext M.mode parser.old
        (struct_of other others)) }
    ensures memory { P.holds_no_memory × Q.holds_no_memory × R.holds_no_memory × S.holds_no_memory
        × T.holds_no_memory × U.holds_no_memory → IfErr result (λ fault. fault ≡ Fault.NotText) }
    ensures blocks { IfOk result (λ _. open_blocks parser.new ≡ open_blocks parser.old) }
    ensures shrinks { length (rest parser.new) ≤ length (rest parser.old) }
{
    parse_struct(
        alloc,
        parser,
        name,
        &[a, b, c, d, e, f],
        &(a_by, b_by, c_by, d_by, e_by, f_by),
    )
}
