//! Blocks that are open where a try stops: no value begins with them.
ghost use Rattle.std.specs.Prelude.{◌≡◌, ◌≤◌, ◌<◌, ◌+◌, ℕ, List, IfSome, MatchOption, drop, length, slice_index_or, false, true, None, ⊤};
ghost use Rattle.ufmt.specs.Leaves.{is_opening};
ghost use Rattle.ufmt_lines.specs.Private.OpenBlocks.{IsBarren, IsKnown, IsReached, begins_block, begins_fields, first_entry, has_entry, is_separated};
ghost use Rattle.ufmt_values.specs.FoundValues.{IsValueAt};
ghost use Rattle.ufmt_values.specs.Values.{value_from};

use std::convert::Infallible;
use ufmt::class::Class;
use ufmt::layout::{COLON, Count, Kind, Mode, ONLY_DOTS};
use ufmt_scan::internal::begins_with;
use ufmt_scan::scan::{Event, Sink, scan};
use ufmt_scan::{FrontText, front_text};
use ufmt_values::{
    before_bracket, is_closing, is_name_byte, is_opening, value_at, value_from, value_start,
};

// So many blocks are open in a text at most, with one that is too deep.
const MOST: usize = 256;

// So many tries of a text fail before open blocks are looked for.
const FEW: u8 = 3;

// How many bytes come between two entries, or a key and its value: a comma or a colon, and a space.
const SEPARATOR_LEN: usize = 2;

/// What tries that failed in a text say of the brackets after them. In most texts few do, and nothing is kept of
/// them.
#[derive(Drop)]
pub(super) struct Tries {
    failed: u8,
    open: OpenStarts,
    // Two reads of a text may differ in which bytes are in quotes, so the blocks of two reads are kept.
    first: Barren,
    second: Barren,
    // A value begins at this place. A try from before it stopped since blocks were too deep, so the blocks that
    // are open there aren't looked for again.
    deep: usize,
}

impl Tries {
    pub(super) fn new() -> Tries
        ensures { (text : List ℕ) → IsKnown text result }
    {
        Tries {
            failed: 0,
            open: OpenStarts::new(),
            first: Barren::new(),
            second: Barren::new(),
            deep: 0,
        }
    }

    /// Forgets the tries of an earlier text.
    pub(super) fn clear(&mut self)
        ensures { (text : List ℕ) → IsKnown text self.new }
    {
        self.failed = 0;
        self.first.clear();
        self.second.clear();
        self.deep = 0;
    }

    /// Where the value with this bracket begins, and the value, if there is one.
    #[inline(always)]
    pub(super) fn value_at(
        &mut self,
        to: Mode,
        text: &[u8],
        low: usize,
        bracket: usize,
    ) -> Option<(usize, FrontText)>
        requires low { low ≤ bracket }
        requires within { bracket < length text.now }
        requires opens { is_opening (slice_index_or text.now bracket 0) ≡ true }
        requires known { IsKnown text.now self.old }
        ensures value { IsValueAt to text.now low bracket result }
        ensures known { IsKnown text.now self.new }
    {
        if let (Mode::Pretty, FEW) = (to, self.failed) {
            return self.plain_value_at(text, low, bracket);
        }
        let found = value_at(to, text, low, bracket);
        self.failed = self.failed.saturating_add(found.is_none() as u8);
        found
    }

    // The same for a plain value, after some tries failed. If there is none, the blocks that are open where the
    // try stops are kept.
    #[inline(never)]
    fn plain_value_at(
        &mut self,
        text: &[u8],
        low: usize,
        bracket: usize,
    ) -> Option<(usize, FrontText)>
        requires low { low ≤ bracket }
        requires within { bracket < length text.now }
        requires opens { is_opening (slice_index_or text.now bracket 0) ≡ true }
        requires known { IsKnown text.now self.old }
        ensures value { IsValueAt Mode.Pretty text.now low bracket result }
        ensures known { IsKnown text.now self.new }
    {
        let start = value_start(Mode::Pretty, text, low, bracket);
        if self.reach_barren(start) {
            return None;
        }
        let found = value_at(Mode::Pretty, text, low, bracket);
        // A bracket that is closed at once has no blocks in it.
        if found.is_none() && has_entry(&text[bracket + 1..]) {
            self.fail(text, start);
        }
        found
    }

    fn reach_barren(&mut self, place: usize) -> bool
        ensures known { (text : List ℕ) → IsKnown text self.old → IsKnown text self.new }
        ensures none { result ≡ true → (text : List ℕ) → IsKnown text self.old
            → value_from Mode.Pretty (drop place text) ≡ None }
    {
        let is_first = self.first.reach(place);
        let is_second = self.second.reach(place);
        is_first || is_second
    }

    // Keeps the blocks that are open where the try from this place stopped. `second` stays until all of its
    // places are passed, so two reads that take turns don't replace each other's blocks.
    fn fail(&mut self, text: &[u8], start: usize)
        requires within { start ≤ length text.now }
        requires known { IsKnown text.now self.old }
        ensures { IsKnown text.now self.new }
    {
        if start < self.deep {
            return;
        }
        let Some(innermost) = self.open.find_innermost(text, start) else {
            return;
        };
        if value_from(Mode::Pretty, &text[innermost..]).is_some() {
            self.deep = innermost;
            return;
        }
        if self.second.is_over() {
            self.second.fill(text, innermost, start, &mut self.open);
        } else {
            self.first.fill(text, innermost, start, &mut self.open);
        }
    }
}

// Places of a text at which no value begins, from the left on. Those before an index aren't kept.
#[derive(Drop)]
struct Barren {
    places: [usize; MOST],
    first: usize,
}

impl Barren {
    fn new() -> Barren
        ensures { (text : List ℕ) → IsBarren text result }
    {
        Barren {
            places: [0; MOST],
            first: MOST,
        }
    }

    fn is_over(&self) -> bool {
        self.first == MOST
    }

    fn clear(&mut self)
        ensures { (text : List ℕ) → IsBarren text self.new }
    {
        self.first = MOST;
    }

    // Replaces the places by this one, at which no value begins, and by the starts of the blocks that have it
    // in them. Only starts after `start` are kept.
    fn fill(&mut self, text: &[u8], innermost: usize, start: usize, open: &mut OpenStarts)
        requires { value_from Mode.Pretty (drop innermost text.now) ≡ None }
        ensures { IsBarren text.now self.new }
    {
        self.clear();
        self.push(innermost);
        let mut inner = innermost;
        'around: while let Some(outer) = open.pop() {
            if outer <= start || !leads_to(text, outer, inner) {
                return;
            }
            self.push(outer);
            inner = outer;
        }
    }

    fn push(&mut self, place: usize)
        ensures { (text : List ℕ) → value_from Mode.Pretty (drop place text) ≡ None
            → IsBarren text self.old → IsBarren text self.new }
    {
        let Some(index) = self.first.checked_sub(1) else {
            return;
        };
        if index < MOST {
            self.places[index] = place;
            self.first = index;
        }
    }

    // Whether the place is kept. Those before it are forgotten.
    fn reach(&mut self, place: usize) -> bool
        ensures kept { (text : List ℕ) → IsBarren text self.old → IsBarren text self.new }
        ensures none { result ≡ true → (text : List ℕ) → IsBarren text self.old
            → value_from Mode.Pretty (drop place text) ≡ None }
    {
        'places: while self.first < MOST {
            let kept = self.places[self.first];
            if place <= kept {
                return kept == place;
            }
            self.first += 1;
        }
        false
    }
}

// Where the open blocks of a scan begin, and where the scan is. A mistake here would only cost time, since
// `leads_to` looks at each place.
#[derive(Drop)]
struct OpenStarts {
    starts: [usize; MOST],
    count: usize,
    at: usize,
}

impl OpenStarts {
    fn new() -> OpenStarts {
        OpenStarts {
            starts: [0; MOST],
            count: 0,
            at: 0,
        }
    }

    // Where the innermost block begins that is open where a scan from here stops, if it begins later.
    fn find_innermost(&mut self, text: &[u8], start: usize) -> Option<usize>
        requires { start ≤ length text.now }
        ensures { IfSome result (λ place. place ≤ length text.now) }
    {
        self.count = 0;
        self.at = start;
        let _outcome = scan(Class::Debug, Mode::Plain, &text[start..], self);
        let place = self.pop()?;
        if start < place && place <= text.len() {
            Some(place)
        } else {
            None
        }
    }

    fn pop(&mut self) -> Option<usize>
        ensures { IfSome result (λ _. self.new.count < self.old.count) }
    {
        self.count = self.count.checked_sub(1)?;
        Some(self.starts[self.count % MOST])
    }

    fn open(&mut self, len: usize) {
        self.starts[self.count % MOST] = self.at;
        self.count = self.count.saturating_add(1);
        self.pass(len);
    }

    fn close(&mut self, len: usize) {
        self.count = self.count.saturating_sub(1);
        self.pass(len);
    }

    fn pass(&mut self, len: usize) {
        self.at = self.at.saturating_add(len);
    }
}

impl Sink for OpenStarts {
    type Error = Infallible;

    ghost took = { λ _ _ _. ⊤ };

    ghost stopped = { λ _ _ _. ⊥ };

    ghost begun = { λ _. tt };

    // Each text is what an event has in a plain text, besides a name or a leaf.
    fn event(&mut self, event: Event<&str>) -> Result<(), Infallible> {
        match event {
            Event::Leaf(text) => self.pass(text.len()),
            Event::Empty(_) => self.pass("[]".len()),
            Event::OnlyDots(name) => self.pass(name.len().saturating_add(ONLY_DOTS.len())),
            Event::Open(kind, name) => self.open(name.len().saturating_add(opening_len(kind))),
            Event::FieldName(name) => self.pass(name.len().saturating_add(COLON.len())),
            Event::Colon => self.pass(COLON.len()),
            Event::Next => self.pass(Mode::Plain.later_lead().len()),
            Event::Close(kind, count) => self.close(closing_len(kind, count)),
            Event::Dots => self.close(".. }".len()),
        }
        Ok(())
    }
}

// How many bytes open a block with entries in a plain text: a bracket, and a space after a struct's.
fn opening_len(kind: Kind) -> usize {
    let (bracket, space) = kind.start(Mode::Plain);
    let before = kind.opening().len();
    before
        .saturating_add(bracket.len())
        .saturating_add(space.len())
}

// How many bytes close a block with so many entries in a plain text.
fn closing_len(kind: Kind, count: Count) -> usize {
    let (before, bracket) = kind.closing(Mode::Plain, count);
    before.len().saturating_add(bracket.len())
}

// Whether a value at `outer` has one at `inner`.
fn leads_to(text: &[u8], outer: usize, inner: usize) -> bool
    ensures { result ≡ true → value_from Mode.Pretty (drop inner text.now) ≡ None
        → value_from Mode.Pretty (drop outer text.now) ≡ None }
{
    if text.len() < inner || inner <= outer || !begins_block(&text[inner..]) {
        return false;
    }
    let Some(mut at) = first_entry(text, outer) else {
        return false;
    };
    'entries: while at < inner {
        let Some(next) = next_entry(text, at) else {
            return false;
        };
        at = next;
    }
    at == inner
}

// Where the first entry, key or field of the value that begins here does, if one begins.
fn first_entry(text: &[u8], start: usize) -> Option<usize>
    requires { start ≤ length text.now }
    ensures { MatchOption result ⊤ (λ at. (at ≡ start + first_entry (drop start text.now))
        × (at ≤ length text.now)) }
{
    let bracket = start + before_bracket(&text[start..]);
    if text.len() - bracket < 2 {
        return None;
    }
    if text[bracket] == b'{' && start < bracket {
        Some(bracket + 2)
    } else {
        Some(bracket + 1)
    }
}

// Where the entry, key, field or value begins that comes after this one.
fn next_entry(text: &[u8], at: usize) -> Option<usize>
    requires { at ≤ length text.now }
    ensures { MatchOption result ⊤ (λ next. (at < next) × (next ≤ length text.now)
        × ((start : ℕ) → IsReached text.now start at → IsReached text.now start next)) }
{
    let front = front_text(Class::Debug, Mode::Plain, &text[at..])?;
    let end = at + front.len;
    if is_separated(&text[end..]) {
        Some(end + SEPARATOR_LEN)
    } else {
        None
    }
}

// Whether a comma or a colon comes, and a space after it.
fn is_separated(text: &[u8]) -> bool
    ensures is { result ≡ is_separated text.now }
    ensures len { result ≡ true → 2 ≤ length text.now }
{
    match text.split_first() {
        Some((first, rest)) => (*first == b',' || *first == b':') && begins_with(b' ', rest),
        None => false,
    }
}

// Whether a block with entries begins here, if a document does.
fn begins_block(text: &[u8]) -> bool
    ensures { result ≡ begins_block false text.now }
{
    let mut left = text;
    let mut named = false;
    'bytes: while let Some((first, rest)) = left.split_first() {
        if is_opening(*first) {
            return has_entry(rest);
        }
        if *first == b' ' {
            return named && begins_fields(rest);
        }
        if !is_name_byte(*first) {
            return false;
        }
        named = *first != b':';
        left = rest;
    }
    false
}

// Whether no bracket closes right after bytes of a name.
fn has_entry(text: &[u8]) -> bool
    ensures { result ≡ has_entry text.now }
{
    let mut left = text;
    'bytes: while let Some((first, rest)) = left.split_first() {
        if !is_name_byte(*first) {
            return !is_closing(*first);
        }
        left = rest;
    }
    true
}

// Whether a brace comes, and not only dots in it.
fn begins_fields(text: &[u8]) -> bool
    ensures { result ≡ begins_fields text.now }
{
    match text.split_first() {
        Some((first, rest)) => *first == b'{' && rest.strip_prefix(b" .. }").is_none(),
        None => false,
    }
}
