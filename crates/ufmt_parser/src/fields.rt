//! The fields of structs and tuples, and their parsers.
ghost use Rattle.std.specs.Prelude.{◌≤◌, ◌<◌, ◌-◌, ◌++◌, length, [], ◌∷◌, ◌≡◌, ℕ, List, IfOk, IfErr, suc, true, zip, ⊤};
ghost use Rattle.ufmt_core.specs.Document.{Document, documents, fields_of, struct_of, tuple_of};
ghost use Rattle.ufmt_core.specs.Layout.{block_tail, frame, inside};
ghost use Rattle.ufmt_core.specs.declared.layout.Count.TheVariants.{Zero};
ghost use Rattle.ufmt_parser.specs.Fields.{AllFit, AreNames, all_now, each_text};
ghost use Rattle.ufmt_parser.specs.Naming.{is_debug_name_or_empty};
ghost use Rattle.ufmt_parser.specs.Next.{IsNotNext, NextLeaves};
ghost use Rattle.ufmt_parser.specs.Taking.{IsTaken, Takes, open_blocks, rest, setting_in};

use crate::detail::Detail;
use crate::entries::{EntryParser, Named, Value};
use crate::mode::ParseMode;
use crate::need::Need;
use crate::parser::{Fault, Parser};
use crate::parses_by::ParsesBy;
use ufmt_core::layout::{Count, Kind};
use ufmt_core::uDebug;

/// Parsers of the values of a block's fields, which are a tuple: a tuple of parsers.
// The values are a tuple, and no chain of pairs: a check of a call with a chain of twelve takes more than twice as long.
pub trait FieldParsers<A, M: ParseMode, V> {
    // What holds of the values that a program has.
    ghost is_value: { V → Type 0 };

    // Holds if no memory is taken.
    ghost holds_no_memory: { Type 0 };

    // The values' documents.
    ghost documents: { V → List Document };

    // Whether they may be called where so many blocks are open.
    ghost ready: { Self → ℕ → Type 0 };

    // Parses the fields that are left of a block, each after its name as far as there are names, and the
    // block's end.
    fn parse_rest(
        &self,
        alloc: A,
        parser: &mut Parser<'_, M>,
        kind: Kind,
        count: Count,
        names: &[&'static str],
    ) -> Result<V, Fault>
        requires opened { 0 < open_blocks parser.old }
        requires ready { ready self.now (open_blocks parser.old) }
        ensures takes { Takes (λ v. is_value v × AllFit (open_blocks parser.old) (documents v))
            (λ v. block_tail (frame M.mode kind) (setting_in M.mode (open_blocks parser.old - 1)) count
            (each_text (setting_in M.mode (open_blocks parser.old)) (all_now names.now) (documents v)))
            (rest parser.old) result (rest parser.new) }
        ensures memory { holds_no_memory → IfErr result (λ fault. fault ≡ Fault.NotText) }
        ensures blocks { IfOk result (λ _. open_blocks parser.new ≡ open_blocks parser.old) }
        ensures shrinks { length (rest parser.new) ≤ length (rest parser.old) };
}

// No field is left: only the block's end.
impl<A: Copy, M: ParseMode> FieldParsers<A, M, ()> for () {
    ghost is_value = { λ _. ⊤ };

    ghost holds_no_memory = { ⊤ };

    ghost documents = { λ _. [] };

    ghost ready = { λ _ _. ⊤ };

    #[inline(always)]
    fn parse_rest(
        &self,
        _alloc: A,
        parser: &mut Parser<'_, M>,
        kind: Kind,
        count: Count,
        _names: &[&'static str],
    ) -> Result<(), Fault> {
        if parser.eat_ending(kind, count) {
            Ok(())
        } else {
            parser.note(Detail::NoField);
            Err(Fault::NotText)
        }
    }
}

// Parses a field, with its name if it has one, and then the others.
#[inline(always)]
fn parse_entry_first<
    A: Copy,
    M: ParseMode,
    T: Drop,
    V: Drop,
    P: EntryParser<A, M, T>,
    R: FieldParsers<A, M, V>,
>(
    alloc: A,
    parser: &mut Parser<'_, M>,
    kind: Kind,
    count: Count,
    first: &P,
    names: &[&'static str],
    others: &R,
) -> Result<(T, V), Fault>
    requires opened { 0 < open_blocks parser.old }
    requires first { P.ready first.now (open_blocks parser.old) }
    requires others { R.ready others.now (open_blocks parser.old) }
    ensures takes { Takes (λ v. P.fit (open_blocks parser.old) v.0
        × (R.is_value v.1 × AllFit (open_blocks parser.old) (R.documents v.1)))
        (λ v. block_tail (frame M.mode kind) (setting_in M.mode (open_blocks parser.old - 1)) count
        (P.text first.now (setting_in M.mode (open_blocks parser.old)) v.0
        ∷ each_text (setting_in M.mode (open_blocks parser.old)) (all_now names.now) (R.documents v.1)))
        (rest parser.old) result (rest parser.new) }
    ensures memory { P.holds_no_memory × R.holds_no_memory → IfErr result (λ fault. fault ≡ Fault.NotText) }
    ensures blocks { IfOk result (λ _. open_blocks parser.new ≡ open_blocks parser.old) }
    ensures shrinks { length (rest parser.new) ≤ length (rest parser.old) }
{
    if !parser.eat_lead(kind, count) {
        return Err(Fault::NotText);
    }
    let value = tri!(first.parse_entry(alloc, parser));
    if !parser.eat(M::mode().trail()) {
        return Err(Fault::NotText);
    }
    let values = tri!(others.parse_rest(alloc, parser, kind, count.next(), names));
    Ok((value, values))
}

/// Parses the first of the fields that are left of a block, by its parser, and then the others.
#[inline(always)]
pub(crate) fn parse_first<
    A: Copy,
    M: ParseMode,
    T: uDebug + Drop,
    V: Drop,
    P: ParsesBy<A, M, T>,
    R: FieldParsers<A, M, V>,
>(
    alloc: A,
    parser: &mut Parser<'_, M>,
    kind: Kind,
    count: Count,
    names: &[&'static str],
    first: &P,
    others: &R,
) -> Result<(T, V), Fault>
    requires opened { 0 < open_blocks parser.old }
    requires first { P.ready first.now (open_blocks parser.old) }
    requires others { R.ready others.now (open_blocks parser.old) }
    ensures takes { Takes (λ v. (P.is_value v.0 × R.is_value v.1)
        × AllFit (open_blocks parser.old) (T.document v.0 ∷ R.documents v.1))
        (λ v. block_tail (frame M.mode kind) (setting_in M.mode (open_blocks parser.old - 1)) count
        (each_text (setting_in M.mode (open_blocks parser.old)) (all_now names.now)
        (T.document v.0 ∷ R.documents v.1))) (rest parser.old) result (rest parser.new) }
    ensures memory { P.holds_no_memory × R.holds_no_memory → IfErr result (λ fault. fault ≡ Fault.NotText) }
    ensures blocks { IfOk result (λ _. open_blocks parser.new ≡ open_blocks parser.old) }
    ensures shrinks { length (rest parser.new) ≤ length (rest parser.old) }
{
    match names.split_first() {
        None => parse_entry_first(alloc, parser, kind, count, &Value(first), names, others),
        Some((name, names)) => {
            parser.note(Detail::BeforeField(*name));
            parse_entry_first(
                alloc,
                parser,
                kind,
                count,
                &Named(*name, first),
                names,
                others,
            )
        }
    }
}

// Parses a block with this name and these fields.
#[inline(always)]
fn parse_block<A: Copy, M: ParseMode, V: Drop, R: FieldParsers<A, M, V>>(
    alloc: A,
    parser: &mut Parser<'_, M>,
    kind: Kind,
    name: &'static str,
    names: &[&'static str],
    fields: &R,
) -> Result<V, Fault>
    requires { open_blocks parser.old < 255 → R.ready fields.now (suc (open_blocks parser.old)) }
    ensures takes { Takes (λ v. (R.is_value v × AllFit (suc (open_blocks parser.old)) (R.documents v))
        × (open_blocks parser.old < 255))
        (λ v. name.now ++ ((frame M.mode kind).opening
        ++ block_tail (frame M.mode kind) (setting_in M.mode (open_blocks parser.old)) Zero
        (each_text (inside (setting_in M.mode (open_blocks parser.old))) (all_now names.now) (R.documents v))))
        (rest parser.old) result (rest parser.new) }
    ensures memory { R.holds_no_memory → IfErr result (λ fault. fault ≡ Fault.NotText) }
    ensures blocks { IfOk result (λ _. open_blocks parser.new ≡ open_blocks parser.old) }
    ensures shrinks { length (rest parser.new) ≤ length (rest parser.old) }
{
    if !parser.eat(name) {
        return Err(parser.refuse_in_detail(Need::Name, Detail::Name(name)));
    }
    if !parser.eat(kind.opening()) {
        return Err(Fault::NotText);
    }
    if !parser.open_block() {
        return Err(parser.refuse(Need::Count));
    }
    let values = tri!(fields.parse_rest(alloc, parser, kind, Count::Zero, names));
    parser.close_block();
    Ok(values)
}

/// Parses a struct with these fields.
#[inline(always)]
pub fn parse_struct<A: Copy, M: ParseMode, V: Drop, R: FieldParsers<A, M, V>>(
    alloc: A,
    parser: &mut Parser<'_, M>,
    name: &'static str,
    names: &[&'static str],
    fields: &R,
) -> Result<V, Fault>
    requires named { AreNames (name.now ∷ all_now names.now) }
    requires some { (v : V) → 0 < length (R.documents v) }
    requires counted { (v : V) → length (all_now names.now) ≡ length (R.documents v) }
    requires ready { open_blocks parser.old < 255 → R.ready fields.now (suc (open_blocks parser.old)) }
    ensures values { IfOk result R.is_value }
    ensures taken { IfOk result (λ v. IsTaken M.mode parser.old (struct_of name.now (fields_of
        (zip (all_now names.now) (R.documents v)))) parser.new) }
    ensures only { IfOk result (λ _. (v : V) → R.is_value v
        → NextLeaves M.mode parser.old (struct_of name.now (fields_of
        (zip (all_now names.now) (R.documents v)))) parser.new) }
    ensures none { IfErr result (λ fault. fault ≡ Fault.NotText → (v : V) → R.is_value v
        → IsNotNext M.mode parser.old (struct_of name.now (fields_of
        (zip (all_now names.now) (R.documents v))))) }
    ensures memory { R.holds_no_memory → IfErr result (λ fault. fault ≡ Fault.NotText) }
    ensures blocks { IfOk result (λ _. open_blocks parser.new ≡ open_blocks parser.old) }
    ensures shrinks { length (rest parser.new) ≤ length (rest parser.old) }
{
    parse_block(alloc, parser, Kind::Struct, name, names, fields)
}

/// Parses a tuple with these fields.
#[inline(always)]
pub fn parse_tuple<A: Copy, M: ParseMode, V: Drop, R: FieldParsers<A, M, V>>(
    alloc: A,
    parser: &mut Parser<'_, M>,
    name: &'static str,
    fields: &R,
) -> Result<V, Fault>
    requires named { is_debug_name_or_empty name.now ≡ true }
    requires some { (v : V) → 0 < length (R.documents v) }
    requires ready { open_blocks parser.old < 255 → R.ready fields.now (suc (open_blocks parser.old)) }
    ensures values { IfOk result R.is_value }
    ensures taken { IfOk result (λ v. IsTaken M.mode parser.old
        (tuple_of name.now (documents (R.documents v))) parser.new) }
    ensures only { IfOk result (λ _. (v : V) → R.is_value v → NextLeaves M.mode parser.old
        (tuple_of name.now (documents (R.documents v))) parser.new) }
    ensures none { IfErr result (λ fault. fault ≡ Fault.NotText → (v : V) → R.is_value v
        → IsNotNext M.mode parser.old (tuple_of name.now (documents (R.documents v)))) }
    ensures memory { R.holds_no_memory → IfErr result (λ fault. fault ≡ Fault.NotText) }
    ensures blocks { IfOk result (λ _. open_blocks parser.new ≡ open_blocks parser.old) }
    ensures shrinks { length (rest parser.new) ≤ length (rest parser.old) }
{
    parse_block(alloc, parser, Kind::tuple(name), name, &[], fields)
}
