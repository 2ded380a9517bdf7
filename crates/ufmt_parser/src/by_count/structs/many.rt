//! Structs of 7 to 12 fields, each parsed by a parser. `x generate` writes this file: change its template in tools/data/by_count.
ghost use Rattle.std.specs.Prelude.{◌≤◌, ◌<◌, length, [], ◌∷◌, ◌≡◌, List, ℕ, suc, true, IfOk, IfErr};
ghost use Rattle.std.specs.Str.{bytes_eq};
ghost use Rattle.ufmt_core.specs.Alike.{SameFields};
ghost use Rattle.ufmt_core.specs.Document.{Fields, fields_of, struct_of};
ghost use Rattle.ufmt_parser.specs.Naming.{are_debug_names, same_names};
ghost use Rattle.ufmt_parser.specs.Next.{IsNotNext, NextLeaves};
ghost use Rattle.ufmt_parser.specs.Taking.{IsTaken, open_blocks, rest};

use crate::fields::parse_struct;
use crate::mode::ParseMode;
use crate::parser::{Fault, Parser};
use crate::parses_by::ParsesBy;
use ufmt_core::uDebug;

/// Parses a struct, each of its 7 fields by a parser.
#[inline(always)]
pub fn parse_struct_7<
    Alloc: Copy,
    M: ParseMode,
    A: uDebug + Drop,
    B: uDebug + Drop,
    C: uDebug + Drop,
    D: uDebug + Drop,
    E: uDebug + Drop,
    F: uDebug + Drop,
    G: uDebug + Drop,
    P: ParsesBy<Alloc, M, A>,
    Q: ParsesBy<Alloc, M, B>,
    R: ParsesBy<Alloc, M, C>,
    S: ParsesBy<Alloc, M, D>,
    T: ParsesBy<Alloc, M, E>,
    U: ParsesBy<Alloc, M, F>,
    V: ParsesBy<Alloc, M, G>,
>(
    alloc: Alloc,
    parser: &mut Parser<'_, M>,
    name: &'static str,
    a: &'static str,
    a_by: &P,
    b: &'static str,
    b_by: &Q,
    c: &'static str,
    c_by: &R,
    d: &'static str,
    d_by: &S,
    e: &'static str,
    e_by: &T,
    f: &'static str,
    f_by: &U,
    g: &'static str,
    g_by: &V,
) -> Result<(A, B, C, D, E, F, G), Fault>
    requires named { are_debug_names (name.now ∷ a.now ∷ b.now ∷ c.now ∷ d.now ∷ e.now ∷ f.now ∷ g.now ∷ []) ≡ true }
    requires ready { open_blocks parser.old < 255 → P.ready a_by.now (suc (open_blocks parser.old))
        × Q.ready b_by.now (suc (open_blocks parser.old))
        × R.ready c_by.now (suc (open_blocks parser.old))
        × S.ready d_by.now (suc (open_blocks parser.old))
        × T.ready e_by.now (suc (open_blocks parser.old))
        × U.ready f_by.now (suc (open_blocks parser.old))
        × V.ready g_by.now (suc (open_blocks parser.old)) }
    ensures values { IfOk result (λ v. P.is_value v.0 × Q.is_value v.1 × R.is_value v.2 × S.is_value v.3 × T.is_value v.4 × U.is_value v.5 × V.is_value v.6) }
    ensures taken { IfOk result (λ v. IsTaken M.mode parser.old (struct_of name.now (fields_of
        ((a.now, A.document v.0) ∷ (b.now, B.document v.1) ∷ (c.now, C.document v.2)
        ∷ (d.now, D.document v.3) ∷ (e.now, E.document v.4) ∷ (f.now, F.document v.5)
        ∷ (g.now, G.document v.6) ∷ []))) parser.new) }
    ensures only { IfOk result (λ _.
        (block_name a_name b_name c_name d_name e_name f_name g_name : List ℕ) (a_value : A)
        (b_value : B) (c_value : C) (d_value : D) (e_value : E) (f_value : F) (g_value : G)
        → same_names (block_name ∷ a_name ∷ b_name ∷ c_name ∷ d_name ∷ e_name ∷ f_name ∷ g_name ∷ [])
        (name.now ∷ a.now ∷ b.now ∷ c.now ∷ d.now ∷ e.now ∷ f.now ∷ g.now ∷ []) ≡ true
        → P.is_value a_value → Q.is_value b_value → R.is_value c_value → S.is_value d_value
        → T.is_value e_value → U.is_value f_value → V.is_value g_value
        → NextLeaves M.mode parser.old (struct_of block_name (fields_of
        ((a_name, A.document a_value) ∷ (b_name, B.document b_value) ∷ (c_name, C.document c_value)
        ∷ (d_name, D.document d_value) ∷ (e_name, E.document e_value) ∷ (f_name, F.document f_value)
        ∷ (g_name, G.document g_value) ∷ []))) parser.new) }
    ensures none { IfErr result (λ fault. fault ≡ Fault.NotText →
        (block_name a_name b_name c_name d_name e_name f_name g_name : List ℕ) (a_value : A)
        (b_value : B) (c_value : C) (d_value : D) (e_value : E) (f_value : F) (g_value : G)
        → same_names (block_name ∷ a_name ∷ b_name ∷ c_name ∷ d_name ∷ e_name ∷ f_name ∷ g_name ∷ [])
        (name.now ∷ a.now ∷ b.now ∷ c.now ∷ d.now ∷ e.now ∷ f.now ∷ g.now ∷ []) ≡ true
        → P.is_value a_value → Q.is_value b_value → R.is_value c_value → S.is_value d_value
        → T.is_value e_value → U.is_value f_value → V.is_value g_value → IsNotNext M.mode parser.old
        (struct_of block_name (fields_of ((a_name, A.document a_value)
        ∷ (b_name, B.document b_value) ∷ (c_name, C.document c_value) ∷ (d_name, D.document d_value)
        ∷ (e_name, E.document e_value) ∷ (f_name, F.document f_value) ∷ (g_name, G.document g_value)
        ∷ [])))) }
    ensures alike { IfErr result (λ fault. fault ≡ Fault.NotText → (other : List ℕ)
        (others : Fields) (a_value : A) (b_value : B) (c_value : C) (d_value : D) (e_value : E)
        (f_value : F) (g_value : G) → bytes_eq other name.now ≡ true → SameFields others (fields_of
        ((a.now, A.document a_value) ∷ (b.now, B.document b_value) ∷ (c.now, C.document c_value)
        ∷ (d.now, D.document d_value) ∷ (e.now, E.document e_value) ∷ (f.now, F.document f_value)
        ∷ (g.now, G.document g_value) ∷ [])) → P.is_value a_value → Q.is_value b_value
        → R.is_value c_value → S.is_value d_value → T.is_value e_value → U.is_value f_value
        → V.is_value g_value → IsNotNext M.mode parser.old (struct_of other others)) }
    ensures memory { P.holds_no_memory × Q.holds_no_memory × R.holds_no_memory × S.holds_no_memory
        × T.holds_no_memory × U.holds_no_memory × V.holds_no_memory → IfErr result (λ fault.
        fault ≡ Fault.NotText) }
    ensures blocks { IfOk result (λ _. open_blocks parser.new ≡ open_blocks parser.old) }
    ensures shrinks { length (rest parser.new) ≤ length (rest parser.old) }
{
    parse_struct(
        alloc,
        parser,
        name,
        &[a, b, c, d, e, f, g],
        &(a_by, b_by, c_by, d_by, e_by, f_by, g_by),
    )
}

/// Parses a struct, each of its 8 fields by a parser.
#[inline(always)]
pub fn parse_struct_8<
    Alloc: Copy,
    M: ParseMode,
    A: uDebug + Drop,
    B: uDebug + Drop,
    C: uDebug + Drop,
    D: uDebug + Drop,
    E: uDebug + Drop,
    F: uDebug + Drop,
    G: uDebug + Drop,
    H: uDebug + Drop,
    P: ParsesBy<Alloc, M, A>,
    Q: ParsesBy<Alloc, M, B>,
    R: ParsesBy<Alloc, M, C>,
    S: ParsesBy<Alloc, M, D>,
    T: ParsesBy<Alloc, M, E>,
    U: ParsesBy<Alloc, M, F>,
    V: ParsesBy<Alloc, M, G>,
    W: ParsesBy<Alloc, M, H>,
>(
    alloc: Alloc,
    parser: &mut Parser<'_, M>,
    name: &'static str,
    a: &'static str,
    a_by: &P,
    b: &'static str,
    b_by: &Q,
    c: &'static str,
    c_by: &R,
    d: &'static str,
    d_by: &S,
    e: &'static str,
    e_by: &T,
    f: &'static str,
    f_by: &U,
    g: &'static str,
    g_by: &V,
    h: &'static str,
    h_by: &W,
) -> Result<(A, B, C, D, E, F, G, H), Fault>
    requires named { are_debug_names (name.now ∷ a.now ∷ b.now ∷ c.now ∷ d.now ∷ e.now ∷ f.now ∷ g.now ∷ h.now ∷ []) ≡ true }
    requires ready { open_blocks parser.old < 255 → P.ready a_by.now (suc (open_blocks parser.old))
        × Q.ready b_by.now (suc (open_blocks parser.old))
        × R.ready c_by.now (suc (open_blocks parser.old))
        × S.ready d_by.now (suc (open_blocks parser.old))
        × T.ready e_by.now (suc (open_blocks parser.old))
        × U.ready f_by.now (suc (open_blocks parser.old))
        × V.ready g_by.now (suc (open_blocks parser.old))
        × W.ready h_by.now (suc (open_blocks parser.old)) }
    ensures values { IfOk result (λ v. P.is_value v.0 × Q.is_value v.1 × R.is_value v.2 × S.is_value v.3 × T.is_value v.4 × U.is_value v.5 × V.is_value v.6 × W.is_value v.7) }
    ensures taken { IfOk result (λ v. IsTaken M.mode parser.old (struct_of name.now (fields_of
        ((a.now, A.document v.0) ∷ (b.now, B.document v.1) ∷ (c.now, C.document v.2)
        ∷ (d.now, D.document v.3) ∷ (e.now, E.document v.4) ∷ (f.now, F.document v.5)
        ∷ (g.now, G.document v.6) ∷ (h.now, H.document v.7) ∷ []))) parser.new) }
    ensures only { IfOk result (λ _.
        (block_name a_name b_name c_name d_name e_name f_name g_name h_name : List ℕ) (a_value : A)
        (b_value : B) (c_value : C) (d_value : D) (e_value : E) (f_value : F) (g_value : G)
        (h_value : H)
        → same_names (block_name ∷ a_name ∷ b_name ∷ c_name ∷ d_name ∷ e_name ∷ f_name ∷ g_name ∷ h_name ∷ [])
        (name.now ∷ a.now ∷ b.now ∷ c.now ∷ d.now ∷ e.now ∷ f.now ∷ g.now ∷ h.now ∷ []) ≡ true
        → P.is_value a_value → Q.is_value b_value → R.is_value c_value → S.is_value d_value
        → T.is_value e_value → U.is_value f_value → V.is_value g_value → W.is_value h_value
        → NextLeaves M.mode parser.old (struct_of block_name (fields_of
        ((a_name, A.document a_value) ∷ (b_name, B.document b_value) ∷ (c_name, C.document c_value)
        ∷ (d_name, D.document d_value) ∷ (e_name, E.document e_value) ∷ (f_name, F.document f_value)
        ∷ (g_name, G.document g_value) ∷ (h_name, H.document h_value) ∷ []))) parser.new) }
    ensures none { IfErr result (λ fault. fault ≡ Fault.NotText →
        (block_name a_name b_name c_name d_name e_name f_name g_name h_name : List ℕ) (a_value : A)
        (b_value : B) (c_value : C) (d_value : D) (e_value : E) (f_value : F) (g_value : G)
        (h_value : H)
        → same_names (block_name ∷ a_name ∷ b_name ∷ c_name ∷ d_name ∷ e_name ∷ f_name ∷ g_name ∷ h_name ∷ [])
        (name.now ∷ a.now ∷ b.now ∷ c.now ∷ d.now ∷ e.now ∷ f.now ∷ g.now ∷ h.now ∷ []) ≡ true
        → P.is_value a_value → Q.is_value b_value → R.is_value c_value → S.is_value d_value
        → T.is_value e_value → U.is_value f_value → V.is_value g_value → W.is_value h_value
        → IsNotNext M.mode parser.old (struct_of block_name (fields_of ((a_name, A.document a_value)
        ∷ (b_name, B.document b_value) ∷ (c_name, C.document c_value) ∷ (d_name, D.document d_value)
        ∷ (e_name, E.document e_value) ∷ (f_name, F.document f_value) ∷ (g_name, G.document g_value)
        ∷ (h_name, H.document h_value) ∷ [])))) }
    ensures alike { IfErr result (λ fault. fault ≡ Fault.NotText → (other : List ℕ)
        (others : Fields) (a_value : A) (b_value : B) (c_value : C) (d_value : D) (e_value : E)
        (f_value : F) (g_value : G) (h_value : H) → bytes_eq other name.now ≡ true
        → SameFields others (fields_of ((a.now, A.document a_value) ∷ (b.now, B.document b_value)
        ∷ (c.now, C.document c_value) ∷ (d.now, D.document d_value) ∷ (e.now, E.document e_value)
        ∷ (f.now, F.document f_value) ∷ (g.now, G.document g_value) ∷ (h.now, H.document h_value)
        ∷ [])) → P.is_value a_value → Q.is_value b_value → R.is_value c_value → S.is_value d_value
        → T.is_value e_value → U.is_value f_value → V.is_value g_value → W.is_value h_value
        → IsNotNext M.mode parser.old (struct_of other others)) }
    ensures memory { P.holds_no_memory × Q.holds_no_memory × R.holds_no_memory × S.holds_no_memory
        × T.holds_no_memory × U.holds_no_memory × V.holds_no_memory × W.holds_no_memory
        → IfErr result (λ fault. fault ≡ Fault.NotText) }
    ensures blocks { IfOk result (λ _. open_blocks parser.new ≡ open_blocks parser.old) }
    ensures shrinks { length (rest parser.new) ≤ length (rest parser.old) }
{
    parse_struct(
        alloc,
        parser,
        name,
        &[a, b, c, d, e, f, g, h],
        &(a_by, b_by, c_by, d_by, e_by, f_by, g_by, h_by),
    )
}

/// Parses a struct, each of its 9 fields by a parser.
#[inline(always)]
pub fn parse_struct_9<
    Alloc: Copy,
    M: ParseMode,
    A: uDebug + Drop,
    B: uDebug + Drop,
    C: uDebug + Drop,
    D: uDebug + Drop,
    E: uDebug + Drop,
    F: uDebug + Drop,
    G: uDebug + Drop,
    H: uDebug + Drop,
    I: uDebug + Drop,
    P: ParsesBy<Alloc, M, A>,
    Q: ParsesBy<Alloc, M, B>,
    R: ParsesBy<Alloc, M, C>,
    S: ParsesBy<Alloc, M, D>,
    T: ParsesBy<Alloc, M, E>,
    U: ParsesBy<Alloc, M, F>,
    V: ParsesBy<Alloc, M, G>,
    W: ParsesBy<Alloc, M, H>,
    X: ParsesBy<Alloc, M, I>,
>(
    alloc: Alloc,
    parser: &mut Parser<'_, M>,
    name: &'static str,
    a: &'static str,
    a_by: &P,
    b: &'static str,
    b_by: &Q,
    c: &'static str,
    c_by: &R,
    d: &'static str,
    d_by: &S,
    e: &'static str,
    e_by: &T,
    f: &'static str,
    f_by: &U,
    g: &'static str,
    g_by: &V,
    h: &'static str,
    h_by: &W,
    i: &'static str,
    i_by: &X,
) -> Result<(A, B, C, D, E, F, G, H, I), Fault>
    requires named { are_debug_names (name.now ∷ a.now ∷ b.now ∷ c.now ∷ d.now ∷ e.now ∷ f.now ∷ g.now ∷ h.now ∷ i.now ∷ []) ≡ true }
    requires ready { open_blocks parser.old < 255 → P.ready a_by.now (suc (open_blocks parser.old))
        × Q.ready b_by.now (suc (open_blocks parser.old))
        × R.ready c_by.now (suc (open_blocks parser.old))
        × S.ready d_by.now (suc (open_blocks parser.old))
        × T.ready e_by.now (suc (open_blocks parser.old))
        × U.ready f_by.now (suc (open_blocks parser.old))
        × V.ready g_by.now (suc (open_blocks parser.old))
        × W.ready h_by.now (suc (open_blocks parser.old))
        × X.ready i_by.now (suc (open_blocks parser.old)) }
    ensures values { IfOk result (λ v. P.is_value v.0 × Q.is_value v.1 × R.is_value v.2 × S.is_value v.3 × T.is_value v.4 × U.is_value v.5 × V.is_value v.6 × W.is_value v.7 × X.is_value v.8) }
    ensures taken { IfOk result (λ v. IsTaken M.mode parser.old (struct_of name.now (fields_of
        ((a.now, A.document v.0) ∷ (b.now, B.document v.1) ∷ (c.now, C.document v.2)
        ∷ (d.now, D.document v.3) ∷ (e.now, E.document v.4) ∷ (f.now, F.document v.5)
        ∷ (g.now, G.document v.6) ∷ (h.now, H.document v.7) ∷ (i.now, I.document v.8) ∷ [])))
        parser.new) }
    ensures only { IfOk result (λ _.
        (block_name a_name b_name c_name d_name e_name f_name g_name h_name i_name : List ℕ)
        (a_value : A) (b_value : B) (c_value : C) (d_value : D) (e_value : E) (f_value : F)
        (g_value : G) (h_value : H) (i_value : I)
        → same_names (block_name ∷ a_name ∷ b_name ∷ c_name ∷ d_name ∷ e_name ∷ f_name ∷ g_name ∷ h_name ∷ i_name ∷ [])
        (name.now ∷ a.now ∷ b.now ∷ c.now ∷ d.now ∷ e.now ∷ f.now ∷ g.now ∷ h.now ∷ i.now ∷ []) ≡ true
        → P.is_value a_value → Q.is_value b_value → R.is_value c_value → S.is_value d_value
        → T.is_value e_value → U.is_value f_value → V.is_value g_value → W.is_value h_value
        → X.is_value i_value → NextLeaves M.mode parser.old (struct_of block_name (fields_of
        ((a_name, A.document a_value) ∷ (b_name, B.document b_value) ∷ (c_name, C.document c_value)
        ∷ (d_name, D.document d_value) ∷ (e_name, E.document e_value) ∷ (f_name, F.document f_value)
        ∷ (g_name, G.document g_value) ∷ (h_name, H.document h_value) ∷ (i_name, I.document i_value)
        ∷ []))) parser.new) }
    ensures none { IfErr result (λ fault. fault ≡ Fault.NotText →
        (block_name a_name b_name c_name d_name e_name f_name g_name h_name i_name : List ℕ)
        (a_value : A) (b_value : B) (c_value : C) (d_value : D) (e_value : E) (f_value : F)
        (g_value : G) (h_value : H) (i_value : I)
        → same_names (block_name ∷ a_name ∷ b_name ∷ c_name ∷ d_name ∷ e_name ∷ f_name ∷ g_name ∷ h_name ∷ i_name ∷ [])
        (name.now ∷ a.now ∷ b.now ∷ c.now ∷ d.now ∷ e.now ∷ f.now ∷ g.now ∷ h.now ∷ i.now ∷ []) ≡ true
        → P.is_value a_value → Q.is_value b_value → R.is_value c_value → S.is_value d_value
        → T.is_value e_value → U.is_value f_value → V.is_value g_value → W.is_value h_value
        → X.is_value i_value → IsNotNext M.mode parser.old (struct_of block_name (fields_of
        ((a_name, A.document a_value) ∷ (b_name, B.document b_value) ∷ (c_name, C.document c_value)
        ∷ (d_name, D.document d_value) ∷ (e_name, E.document e_value) ∷ (f_name, F.document f_value)
        ∷ (g_name, G.document g_value) ∷ (h_name, H.document h_value) ∷ (i_name, I.document i_value)
        ∷ [])))) }
    ensures alike { IfErr result (λ fault. fault ≡ Fault.NotText → (other : List ℕ)
        (others : Fields) (a_value : A) (b_value : B) (c_value : C) (d_value : D) (e_value : E)
        (f_value : F) (g_value : G) (h_value : H) (i_value : I) → bytes_eq other name.now ≡ true
        → SameFields others (fields_of ((a.now, A.document a_value) ∷ (b.now, B.document b_value)
        ∷ (c.now, C.document c_value) ∷ (d.now, D.document d_value) ∷ (e.now, E.document e_value)
        ∷ (f.now, F.document f_value) ∷ (g.now, G.document g_value) ∷ (h.now, H.document h_value)
        ∷ (i.now, I.document i_value) ∷ [])) → P.is_value a_value → Q.is_value b_value
        → R.is_value c_value → S.is_value d_value → T.is_value e_value → U.is_value f_value
        → V.is_value g_value → W.is_value h_value → X.is_value i_value → IsNotNext M.mode parser.old
        (struct_of other others)) }
    ensures memory { P.holds_no_memory × Q.holds_no_memory × R.holds_no_memory × S.holds_no_memory
        × T.holds_no_memory × U.holds_no_memory × V.holds_no_memory × W.holds_no_memory
        × X.holds_no_memory → IfErr result (λ fault. fault ≡ Fault.NotText) }
    ensures blocks { IfOk result (λ _. open_blocks parser.new ≡ open_blocks parser.old) }
    ensures shrinks { length (rest parser.new) ≤ length (rest parser.old) }
{
    parse_struct(
        alloc,
        parser,
        name,
        &[a, b, c, d, e, f, g, h, i],
        &(a_by, b_by, c_by, d_by, e_by, f_by, g_by, h_by, i_by),
    )
}

/// Parses a struct, each of its 10 fields by a parser.
#[inline(always)]
pub fn parse_struct_10<
    Alloc: Copy,
    M: ParseMode,
    A: uDebug + Drop,
    B: uDebug + Drop,
    C: uDebug + Drop,
    D: uDebug + Drop,
    E: uDebug + Drop,
    F: uDebug + Drop,
    G: uDebug + Drop,
    H: uDebug + Drop,
    I: uDebug + Drop,
    J: uDebug + Drop,
    P: ParsesBy<Alloc, M, A>,
    Q: ParsesBy<Alloc, M, B>,
    R: ParsesBy<Alloc, M, C>,
    S: ParsesBy<Alloc, M, D>,
    T: ParsesBy<Alloc, M, E>,
    U: ParsesBy<Alloc, M, F>,
    V: ParsesBy<Alloc, M, G>,
    W: ParsesBy<Alloc, M, H>,
    X: ParsesBy<Alloc, M, I>,
    Y: ParsesBy<Alloc, M, J>,
>(
    alloc: Alloc,
    parser: &mut Parser<'_, M>,
    name: &'static str,
    a: &'static str,
    a_by: &P,
    b: &'static str,
    b_by: &Q,
    c: &'static str,
    c_by: &R,
    d: &'static str,
    d_by: &S,
    e: &'static str,
    e_by: &T,
    f: &'static str,
    f_by: &U,
    g: &'static str,
    g_by: &V,
    h: &'static str,
    h_by: &W,
    i: &'static str,
    i_by: &X,
    j: &'static str,
    j_by: &Y,
) -> Result<(A, B, C, D, E, F, G, H, I, J), Fault>
    requires named { are_debug_names (name.now ∷ a.now ∷ b.now ∷ c.now ∷ d.now ∷ e.now ∷ f.now ∷ g.now ∷ h.now ∷ i.now ∷ j.now ∷ []) ≡ true }
    requires ready { open_blocks parser.old < 255 → P.ready a_by.now (suc (open_blocks parser.old))
        × Q.ready b_by.now (suc (open_blocks parser.old))
        × R.ready c_by.now (suc (open_blocks parser.old))
        × S.ready d_by.now (suc (open_blocks parser.old))
        × T.ready e_by.now (suc (open_blocks parser.old))
        × U.ready f_by.now (suc (open_blocks parser.old))
        × V.ready g_by.now (suc (open_blocks parser.old))
        × W.ready h_by.now (suc (open_blocks parser.old))
        × X.ready i_by.now (suc (open_blocks parser.old))
        × Y.ready j_by.now (suc (open_blocks parser.old)) }
    ensures values { IfOk result (λ v. P.is_value v.0 × Q.is_value v.1 × R.is_value v.2 × S.is_value v.3 × T.is_value v.4 × U.is_value v.5 × V.is_value v.6 × W.is_value v.7 × X.is_value v.8 × Y.is_value v.9) }
    ensures taken { IfOk result (λ v. IsTaken M.mode parser.old (struct_of name.now (fields_of
        ((a.now, A.document v.0) ∷ (b.now, B.document v.1) ∷ (c.now, C.document v.2)
        ∷ (d.now, D.document v.3) ∷ (e.now, E.document v.4) ∷ (f.now, F.document v.5)
        ∷ (g.now, G.document v.6) ∷ (h.now, H.document v.7) ∷ (i.now, I.document v.8)
        ∷ (j.now, J.document v.9) ∷ []))) parser.new) }
    ensures only { IfOk result (λ _.
        (block_name a_name b_name c_name d_name e_name f_name g_name h_name i_name j_name : List ℕ)
        (a_value : A) (b_value : B) (c_value : C) (d_value : D) (e_value : E) (f_value : F)
        (g_value : G) (h_value : H) (i_value : I) (j_value : J)
        → same_names (block_name ∷ a_name ∷ b_name ∷ c_name ∷ d_name ∷ e_name ∷ f_name ∷ g_name ∷ h_name ∷ i_name ∷ j_name ∷ [])
        (name.now ∷ a.now ∷ b.now ∷ c.now ∷ d.now ∷ e.now ∷ f.now ∷ g.now ∷ h.now ∷ i.now ∷ j.now ∷ []) ≡ true
        → P.is_value a_value → Q.is_value b_value → R.is_value c_value → S.is_value d_value
        → T.is_value e_value → U.is_value f_value → V.is_value g_value → W.is_value h_value
        → X.is_value i_value → Y.is_value j_value → NextLeaves M.mode parser.old
        (struct_of block_name (fields_of ((a_name, A.document a_value)
        ∷ (b_name, B.document b_value) ∷ (c_name, C.document c_value) ∷ (d_name, D.document d_value)
        ∷ (e_name, E.document e_value) ∷ (f_name, F.document f_value) ∷ (g_name, G.document g_value)
        ∷ (h_name, H.document h_value) ∷ (i_name, I.document i_value) ∷ (j_name, J.document j_value)
        ∷ []))) parser.new) }
    ensures none { IfErr result (λ fault. fault ≡ Fault.NotText →
        (block_name a_name b_name c_name d_name e_name f_name g_name h_name i_name j_name : List ℕ)
        (a_value : A) (b_value : B) (c_value : C) (d_value : D) (e_value : E) (f_value : F)
        (g_value : G) (h_value : H) (i_value : I) (j_value : J)
        → same_names (block_name ∷ a_name ∷ b_name ∷ c_name ∷ d_name ∷ e_name ∷ f_name ∷ g_name ∷ h_name ∷ i_name ∷ j_name ∷ [])
        (name.now ∷ a.now ∷ b.now ∷ c.now ∷ d.now ∷ e.now ∷ f.now ∷ g.now ∷ h.now ∷ i.now ∷ j.now ∷ []) ≡ true
        → P.is_value a_value → Q.is_value b_value → R.is_value c_value → S.is_value d_value
        → T.is_value e_value → U.is_value f_value → V.is_value g_value → W.is_value h_value
        → X.is_value i_value → Y.is_value j_value → IsNotNext M.mode parser.old
        (struct_of block_name (fields_of ((a_name, A.document a_value)
        ∷ (b_name, B.document b_value) ∷ (c_name, C.document c_value) ∷ (d_name, D.document d_value)
        ∷ (e_name, E.document e_value) ∷ (f_name, F.document f_value) ∷ (g_name, G.document g_value)
        ∷ (h_name, H.document h_value) ∷ (i_name, I.document i_value) ∷ (j_name, J.document j_value)
        ∷ [])))) }
    ensures alike { IfErr result (λ fault. fault ≡ Fault.NotText → (other : List ℕ)
        (others : Fields) (a_value : A) (b_value : B) (c_value : C) (d_value : D) (e_value : E)
        (f_value : F) (g_value : G) (h_value : H) (i_value : I) (j_value : J)
        → bytes_eq other name.now ≡ true → SameFields others (fields_of ((a.now, A.document a_value)
        ∷ (b.now, B.document b_value) ∷ (c.now, C.document c_value) ∷ (d.now, D.document d_value)
        ∷ (e.now, E.document e_value) ∷ (f.now, F.document f_value) ∷ (g.now, G.document g_value)
        ∷ (h.now, H.document h_value) ∷ (i.now, I.document i_value) ∷ (j.now, J.document j_value)
        ∷ [])) → P.is_value a_value → Q.is_value b_value → R.is_value c_value → S.is_value d_value
        → T.is_value e_value → U.is_value f_value → V.is_value g_value → W.is_value h_value
        → X.is_value i_value → Y.is_value j_value → IsNotNext M.mode parser.old
        (struct_of other others)) }
    ensures memory { P.holds_no_memory × Q.holds_no_memory × R.holds_no_memory × S.holds_no_memory
        × T.holds_no_memory × U.holds_no_memory × V.holds_no_memory × W.holds_no_memory
        × X.holds_no_memory × Y.holds_no_memory → IfErr result (λ fault. fault ≡ Fault.NotText) }
    ensures blocks { IfOk result (λ _. open_blocks parser.new ≡ open_blocks parser.old) }
    ensures shrinks { length (rest parser.new) ≤ length (rest parser.old) }
{
    parse_struct(
        alloc,
        parser,
        name,
        &[a, b, c, d, e, f, g, h, i, j],
        &(a_by, b_by, c_by, d_by, e_by, f_by, g_by, h_by, i_by, j_by),
    )
}

/// Parses a struct, each of its 11 fields by a parser.
#[inline(always)]
pub fn parse_struct_11<
    Alloc: Copy,
    M: ParseMode,
    A: uDebug + Drop,
    B: uDebug + Drop,
    C: uDebug + Drop,
    D: uDebug + Drop,
    E: uDebug + Drop,
    F: uDebug + Drop,
    G: uDebug + Drop,
    H: uDebug + Drop,
    I: uDebug + Drop,
    J: uDebug + Drop,
    K: uDebug + Drop,
    P: ParsesBy<Alloc, M, A>,
    Q: ParsesBy<Alloc, M, B>,
    R: ParsesBy<Alloc, M, C>,
    S: ParsesBy<Alloc, M, D>,
    T: ParsesBy<Alloc, M, E>,
    U: ParsesBy<Alloc, M, F>,
    V: ParsesBy<Alloc, M, G>,
    W: ParsesBy<Alloc, M, H>,
    X: ParsesBy<Alloc, M, I>,
    Y: ParsesBy<Alloc, M, J>,
    Z: ParsesBy<Alloc, M, K>,
>(
    alloc: Alloc,
    parser: &mut Parser<'_, M>,
    name: &'static str,
    a: &'static str,
    a_by: &P,
    b: &'static str,
    b_by: &Q,
    c: &'static str,
    c_by: &R,
    d: &'static str,
    d_by: &S,
    e: &'static str,
    e_by: &T,
    f: &'static str,
    f_by: &U,
    g: &'static str,
    g_by: &V,
    h: &'static str,
    h_by: &W,
    i: &'static str,
    i_by: &X,
    j: &'static str,
    j_by: &Y,
    k: &'static str,
    k_by: &Z,
) -> Result<(A, B, C, D, E, F, G, H, I, J, K), Fault>
    requires named { are_debug_names (name.now ∷ a.now ∷ b.now ∷ c.now ∷ d.now ∷ e.now ∷ f.now ∷ g.now ∷ h.now ∷ i.now ∷ j.now ∷ k.now ∷ []) ≡ true }
    requires ready { open_blocks parser.old < 255 → P.ready a_by.now (suc (open_blocks parser.old))
        × Q.ready b_by.now (suc (open_blocks parser.old))
        × R.ready c_by.now (suc (open_blocks parser.old))
        × S.ready d_by.now (suc (open_blocks parser.old))
        × T.ready e_by.now (suc (open_blocks parser.old))
        × U.ready f_by.now (suc (open_blocks parser.old))
        × V.ready g_by.now (suc (open_blocks parser.old))
        × W.ready h_by.now (suc (open_blocks parser.old))
        × X.ready i_by.now (suc (open_blocks parser.old))
        × Y.ready j_by.now (suc (open_blocks parser.old))
        × Z.ready k_by.now (suc (open_blocks parser.old)) }
    ensures values { IfOk result (λ v. P.is_value v.0 × Q.is_value v.1 × R.is_value v.2 × S.is_value v.3 × T.is_value v.4 × U.is_value v.5 × V.is_value v.6 × W.is_value v.7 × X.is_value v.8 × Y.is_value v.9 × Z.is_value v.10) }
    ensures taken { IfOk result (λ v. IsTaken M.mode parser.old (struct_of name.now (fields_of
        ((a.now, A.document v.0) ∷ (b.now, B.document v.1) ∷ (c.now, C.document v.2)
        ∷ (d.now, D.document v.3) ∷ (e.now, E.document v.4) ∷ (f.now, F.document v.5)
        ∷ (g.now, G.document v.6) ∷ (h.now, H.document v.7) ∷ (i.now, I.document v.8)
        ∷ (j.now, J.document v.9) ∷ (k.now, K.document v.10) ∷ []))) parser.new) }
    ensures only { IfOk result (λ _.
        (block_name a_name b_name c_name d_name e_name f_name g_name h_name i_name j_name k_name : List ℕ)
        (a_value : A) (b_value : B) (c_value : C) (d_value : D) (e_value : E) (f_value : F)
        (g_value : G) (h_value : H) (i_value : I) (j_value : J) (k_value : K)
        → same_names (block_name ∷ a_name ∷ b_name ∷ c_name ∷ d_name ∷ e_name ∷ f_name ∷ g_name ∷ h_name ∷ i_name ∷ j_name ∷ k_name ∷ [])
        (name.now ∷ a.now ∷ b.now ∷ c.now ∷ d.now ∷ e.now ∷ f.now ∷ g.now ∷ h.now ∷ i.now ∷ j.now ∷ k.now ∷ []) ≡ true
        → P.is_value a_value → Q.is_value b_value → R.is_value c_value → S.is_value d_value
        → T.is_value e_value → U.is_value f_value → V.is_value g_value → W.is_value h_value
        → X.is_value i_value → Y.is_value j_value → Z.is_value k_value
        → NextLeaves M.mode parser.old (struct_of block_name (fields_of
        ((a_name, A.document a_value) ∷ (b_name, B.document b_value) ∷ (c_name, C.document c_value)
        ∷ (d_name, D.document d_value) ∷ (e_name, E.document e_value) ∷ (f_name, F.document f_value)
        ∷ (g_name, G.document g_value) ∷ (h_name, H.document h_value) ∷ (i_name, I.document i_value)
        ∷ (j_name, J.document j_value) ∷ (k_name, K.document k_value) ∷ []))) parser.new) }
    ensures none { IfErr result (λ fault. fault ≡ Fault.NotText →
        (block_name a_name b_name c_name d_name e_name f_name g_name h_name i_name j_name k_name : List ℕ)
        (a_value : A) (b_value : B) (c_value : C) (d_value : D) (e_value : E) (f_value : F)
        (g_value : G) (h_value : H) (i_value : I) (j_value : J) (k_value : K)
        → same_names (block_name ∷ a_name ∷ b_name ∷ c_name ∷ d_name ∷ e_name ∷ f_name ∷ g_name ∷ h_name ∷ i_name ∷ j_name ∷ k_name ∷ [])
        (name.now ∷ a.now ∷ b.now ∷ c.now ∷ d.now ∷ e.now ∷ f.now ∷ g.now ∷ h.now ∷ i.now ∷ j.now ∷ k.now ∷ []) ≡ true
        → P.is_value a_value → Q.is_value b_value → R.is_value c_value → S.is_value d_value
        → T.is_value e_value → U.is_value f_value → V.is_value g_value → W.is_value h_value
        → X.is_value i_value → Y.is_value j_value → Z.is_value k_value → IsNotNext M.mode parser.old
        (struct_of block_name (fields_of ((a_name, A.document a_value)
        ∷ (b_name, B.document b_value) ∷ (c_name, C.document c_value) ∷ (d_name, D.document d_value)
        ∷ (e_name, E.document e_value) ∷ (f_name, F.document f_value) ∷ (g_name, G.document g_value)
        ∷ (h_name, H.document h_value) ∷ (i_name, I.document i_value) ∷ (j_name, J.document j_value)
        ∷ (k_name, K.document k_value) ∷ [])))) }
    ensures alike { IfErr result (λ fault. fault ≡ Fault.NotText → (other : List ℕ)
        (others : Fields) (a_value : A) (b_value : B) (c_value : C) (d_value : D) (e_value : E)
        (f_value : F) (g_value : G) (h_value : H) (i_value : I) (j_value : J) (k_value : K)
        → bytes_eq other name.now ≡ true → SameFields others (fields_of ((a.now, A.document a_value)
        ∷ (b.now, B.document b_value) ∷ (c.now, C.document c_value) ∷ (d.now, D.document d_value)
        ∷ (e.now, E.document e_value) ∷ (f.now, F.document f_value) ∷ (g.now, G.document g_value)
        ∷ (h.now, H.document h_value) ∷ (i.now, I.document i_value) ∷ (j.now, J.document j_value)
        ∷ (k.now, K.document k_value) ∷ [])) → P.is_value a_value → Q.is_value b_value
        → R.is_value c_value → S.is_value d_value → T.is_value e_value → U.is_value f_value
        → V.is_value g_value → W.is_value h_value → X.is_value i_value → Y.is_value j_value
        → Z.is_value k_value → IsNotNext M.mode parser.old (struct_of other others)) }
    ensures memory { P.holds_no_memory × Q.holds_no_memory × R.holds_no_memory × S.holds_no_memory
        × T.holds_no_memory × U.holds_no_memory × V.holds_no_memory × W.holds_no_memory
        × X.holds_no_memory × Y.holds_no_memory × Z.holds_no_memory → IfErr result (λ fault.
        fault ≡ Fault.NotText) }
    ensures blocks { IfOk result (λ _. open_blocks parser.new ≡ open_blocks parser.old) }
    ensures shrinks { length (rest parser.new) ≤ length (rest parser.old) }
{
    parse_struct(
        alloc,
        parser,
        name,
        &[a, b, c, d, e, f, g, h, i, j, k],
        &(
            a_by, b_by, c_by, d_by, e_by, f_by, g_by, h_by, i_by, j_by, k_by,
        ),
    )
}

/// Parses a struct, each of its 12 fields by a parser.
#[inline(always)]
pub fn parse_struct_12<
    Alloc: Copy,
    M: ParseMode,
    A: uDebug + Drop,
    B: uDebug + Drop,
    C: uDebug + Drop,
    D: uDebug + Drop,
    E: uDebug + Drop,
    F: uDebug + Drop,
    G: uDebug + Drop,
    H: uDebug + Drop,
    I: uDebug + Drop,
    J: uDebug + Drop,
    K: uDebug + Drop,
    L: uDebug + Drop,
    P: ParsesBy<Alloc, M, A>,
    Q: ParsesBy<Alloc, M, B>,
    R: ParsesBy<Alloc, M, C>,
    S: ParsesBy<Alloc, M, D>,
    T: ParsesBy<Alloc, M, E>,
    U: ParsesBy<Alloc, M, F>,
    V: ParsesBy<Alloc, M, G>,
    W: ParsesBy<Alloc, M, H>,
    X: ParsesBy<Alloc, M, I>,
    Y: ParsesBy<Alloc, M, J>,
    Z: ParsesBy<Alloc, M, K>,
    N: ParsesBy<Alloc, M, L>,
>(
    alloc: Alloc,
    parser: &mut Parser<'_, M>,
    name: &'static str,
    a: &'static str,
    a_by: &P,
    b: &'static str,
    b_by: &Q,
    c: &'static str,
    c_by: &R,
    d: &'static str,
    d_by: &S,
    e: &'static str,
    e_by: &T,
    f: &'static str,
    f_by: &U,
    g: &'static str,
    g_by: &V,
    h: &'static str,
    h_by: &W,
    i: &'static str,
    i_by: &X,
    j: &'static str,
    j_by: &Y,
    k: &'static str,
    k_by: &Z,
    l: &'static str,
    l_by: &N,
) -> Result<(A, B, C, D, E, F, G, H, I, J, K, L), Fault>
    requires named { are_debug_names (name.now ∷ a.now ∷ b.now ∷ c.now ∷ d.now ∷ e.now ∷ f.now ∷ g.now ∷ h.now ∷ i.now ∷ j.now ∷ k.now ∷ l.now ∷ []) ≡ true }
    requires ready { open_blocks parser.old < 255 → P.ready a_by.now (suc (open_blocks parser.old))
        × Q.ready b_by.now (suc (open_blocks parser.old))
        × R.ready c_by.now (suc (open_blocks parser.old))
        × S.ready d_by.now (suc (open_blocks parser.old))
        × T.ready e_by.now (suc (open_blocks parser.old))
        × U.ready f_by.now (suc (open_blocks parser.old))
        × V.ready g_by.now (suc (open_blocks parser.old))
        × W.ready h_by.now (suc (open_blocks parser.old))
        × X.ready i_by.now (suc (open_blocks parser.old))
        × Y.ready j_by.now (suc (open_blocks parser.old))
        × Z.ready k_by.now (suc (open_blocks parser.old))
        × N.ready l_by.now (suc (open_blocks parser.old)) }
    ensures values { IfOk result (λ v. P.is_value v.0 × Q.is_value v.1 × R.is_value v.2 × S.is_value v.3 × T.is_value v.4 × U.is_value v.5 × V.is_value v.6 × W.is_value v.7 × X.is_value v.8 × Y.is_value v.9 × Z.is_value v.10 × N.is_value v.11) }
    ensures taken { IfOk result (λ v. IsTaken M.mode parser.old (struct_of name.now (fields_of
        ((a.now, A.document v.0) ∷ (b.now, B.document v.1) ∷ (c.now, C.document v.2)
        ∷ (d.now, D.document v.3) ∷ (e.now, E.document v.4) ∷ (f.now, F.document v.5)
        ∷ (g.now, G.document v.6) ∷ (h.now, H.document v.7) ∷ (i.now, I.document v.8)
        ∷ (j.now, J.document v.9) ∷ (k.now, K.document v.10) ∷ (l.now, L.document v.11) ∷ [])))
        parser.new) }
    ensures only { IfOk result (λ _.
        (block_name a_name b_name c_name d_name e_name f_name g_name h_name i_name j_name k_name l_name : List ℕ)
        (a_value : A) (b_value : B) (c_value : C) (d_value : D) (e_value : E) (f_value : F)
        (g_value : G) (h_value : H) (i_value : I) (j_value : J) (k_value : K) (l_value : L)
        → same_names (block_name ∷ a_name ∷ b_name ∷ c_name ∷ d_name ∷ e_name ∷ f_name ∷ g_name ∷ h_name ∷ i_name ∷ j_name ∷ k_name ∷ l_name ∷ [])
        (name.now ∷ a.now ∷ b.now ∷ c.now ∷ d.now ∷ e.now ∷ f.now ∷ g.now ∷ h.now ∷ i.now ∷ j.now ∷ k.now ∷ l.now ∷ []) ≡ true
        → P.is_value a_value → Q.is_value b_value → R.is_value c_value → S.is_value d_value
        → T.is_value e_value → U.is_value f_value → V.is_value g_value → W.is_value h_value
        → X.is_value i_value → Y.is_value j_value → Z.is_value k_value → N.is_value l_value
        → NextLeaves M.mode parser.old (struct_of block_name (fields_of
        ((a_name, A.document a_value) ∷ (b_name, B.document b_value) ∷ (c_name, C.document c_value)
        ∷ (d_name, D.document d_value) ∷ (e_name, E.document e_value) ∷ (f_name, F.document f_value)
        ∷ (g_name, G.document g_value) ∷ (h_name, H.document h_value) ∷ (i_name, I.document i_value)
        ∷ (j_name, J.document j_value) ∷ (k_name, K.document k_value) ∷ (l_name, L.document l_value)
        ∷ []))) parser.new) }
    ensures none { IfErr result (λ fault. fault ≡ Fault.NotText →
        (block_name a_name b_name c_name d_name e_name f_name g_name h_name i_name j_name k_name l_name : List ℕ)
        (a_value : A) (b_value : B) (c_value : C) (d_value : D) (e_value : E) (f_value : F)
        (g_value : G) (h_value : H) (i_value : I) (j_value : J) (k_value : K) (l_value : L)
        → same_names (block_name ∷ a_name ∷ b_name ∷ c_name ∷ d_name ∷ e_name ∷ f_name ∷ g_name ∷ h_name ∷ i_name ∷ j_name ∷ k_name ∷ l_name ∷ [])
        (name.now ∷ a.now ∷ b.now ∷ c.now ∷ d.now ∷ e.now ∷ f.now ∷ g.now ∷ h.now ∷ i.now ∷ j.now ∷ k.now ∷ l.now ∷ []) ≡ true
        → P.is_value a_value → Q.is_value b_value → R.is_value c_value → S.is_value d_value
        → T.is_value e_value → U.is_value f_value → V.is_value g_value → W.is_value h_value
        → X.is_value i_value → Y.is_value j_value → Z.is_value k_value → N.is_value l_value
        → IsNotNext M.mode parser.old (struct_of block_name (fields_of ((a_name, A.document a_value)
        ∷ (b_name, B.document b_value) ∷ (c_name, C.document c_value) ∷ (d_name, D.document d_value)
        ∷ (e_name, E.document e_value) ∷ (f_name, F.document f_value) ∷ (g_name, G.document g_value)
        ∷ (h_name, H.document h_value) ∷ (i_name, I.document i_value) ∷ (j_name, J.document j_value)
        ∷ (k_name, K.document k_value) ∷ (l_name, L.document l_value) ∷ [])))) }
    ensures alike { IfErr result (λ fault. fault ≡ Fault.NotText → (other : List ℕ)
        (others : Fields) (a_value : A) (b_value : B) (c_value : C) (d_value : D) (e_value : E)
        (f_value : F) (g_value : G) (h_value : H) (i_value : I) (j_value : J) (k_value : K)
        (l_value : L) → bytes_eq other name.now ≡ true → SameFields others (fields_of
        ((a.now, A.document a_value) ∷ (b.now, B.document b_value) ∷ (c.now, C.document c_value)
        ∷ (d.now, D.document d_value) ∷ (e.now, E.document e_value) ∷ (f.now, F.document f_value)
        ∷ (g.now, G.document g_value) ∷ (h.now, H.document h_value) ∷ (i.now, I.document i_value)
        ∷ (j.now, J.document j_value) ∷ (k.now, K.document k_value) ∷ (l.now, L.document l_value)
        ∷ [])) → P.is_value a_value → Q.is_value b_value → R.is_value c_value → S.is_value d_value
        → T.is_value e_value → U.is_value f_value → V.is_value g_value → W.is_value h_value
        → X.is_value i_value → Y.is_value j_value → Z.is_value k_value → N.is_value l_value
        → IsNotNext M.mode parser.old (struct_of other others)) }
    ensures memory { P.holds_no_memory × Q.holds_no_memory × R.holds_no_memory × S.holds_no_memory
        × T.holds_no_memory × U.holds_no_memory × V.holds_no_memory × W.holds_no_memory
        × X.holds_no_memory × Y.holds_no_memory × Z.holds_no_memory × N.holds_no_memory
        → IfErr result (λ fault. fault ≡ Fault.NotText) }
    ensures blocks { IfOk result (λ _. open_blocks parser.new ≡ open_blocks parser.old) }
    ensures shrinks { length (rest parser.new) ≤ length (rest parser.old) }
{
    parse_struct(
        alloc,
        parser,
        name,
        &[a, b, c, d, e, f, g, h, i, j, k, l],
        &(
            a_by, b_by, c_by, d_by, e_by, f_by, g_by, h_by, i_by, j_by, k_by, l_by,
        ),
    )
}
