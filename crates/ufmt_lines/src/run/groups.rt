//! Groups of lines, gathered from what was read, and their outputs, which are written together.
ghost use Rattle.std.specs.Prelude.{◌≡◌, ◌≢◌, ◌↔◌, ◌<◌, ◌+◌, ◌≤◌, ◌++◌, ◌⊎◌, ◌∷◌, [], List, ℕ, IfErr, IfOk, IsErr, IsErrOf, IsTrue, MatchOption, OnErr, OnOk, drop, false, length, take, true};
ghost use Rattle.std.specs.Io.KnownBytes.{Appends};
ghost use Rattle.ufmt.specs.Bytes.{line_feed};
ghost use Rattle.ufmt_io.specs.Watched.{device_of, has_failed, has_given_up};
ghost use Rattle.ufmt_io.specs.Whole.{AppendsPrefix};
ghost use Rattle.ufmt_lines.specs.Output.{WritesFront, outputs_of};
ghost use Rattle.ufmt_lines.specs.Groups.{IsInGroup, IsInLine, is_indented, is_spaced_brace, opens, word_start};
ghost use Rattle.ufmt_lines.specs.Private.Group.{IsEndOf, IsEndedLine};
ghost use Rattle.ufmt_lines.specs.Private.LineLen.{line_len};
ghost use Rattle.ufmt_lines.specs.Private.WholeLines.{EndsLine};
ghost use Rattle.ufmt_lines.specs.Values.{output_of};

use super::conversion::Conversion;
use super::converter::Converter;
use std::alloc::{AllocError, Global};
use std::io::Write;
use ufmt::layout::Mode;
use ufmt_io::{IoFault, Watched, write_whole};
use ufmt_values::internal::{LineFeed, len_before_first, len_through_last};
use ufmt_values::{is_opening, next_bracket, run_start};

/// The group of lines that is being read, and outputs that aren't written yet.
#[derive(Drop)]
pub(super) struct Group {
    bytes: Vec<u8>,
    // Where the line begins that hasn't ended. The group continues after the lines before it.
    line: usize,
    // Room for what is left of a line in which a group ends.
    left: Vec<u8>,
    converter: Converter,
}

impl Group {
    ghost use Rattle.ufmt_lines.specs.Private.Group.{IsReading, Gathers, conversion_of, gathered, group_bytes, mode_of};

    pub(super) fn new(alloc: Global, conversion: Conversion) -> Group
        ensures conversion { conversion_of result ≡ conversion }
        ensures bytes { group_bytes result ≡ [] }
        ensures line { result.line ≡ 0 }
        ensures outputs { gathered result ≡ [] }
    {
        Group {
            bytes: Vec::new(alloc),
            line: 0,
            left: Vec::new(alloc),
            converter: Converter::new(alloc, conversion),
        }
    }

    /// Writes the output for each group that ends in the bytes, which follow those of the group so far.
    /// What follows the last group is the group that is being read then.
    pub(super) fn write_ended<W: Write>(
        &mut self,
        bytes: &[u8],
        output: &mut Watched<W>,
    ) -> Result<(), IoFault>
        requires works { has_failed output.old ≡ false }
        requires reading { IsReading (mode_of self.old) self.old }
        requires none { gathered self.old ≡ [] }
        ensures conversion { conversion_of self.new ≡ conversion_of self.old }
        ensures ok { OnOk result (WritesFront (conversion_of self.old) (group_bytes self.old ++ bytes.now)
            (group_bytes self.new) (W.contents (device_of output.old))
            (W.contents (device_of output.new))) }
        ensures reading { OnOk result (IsReading (mode_of self.old) self.new) }
        ensures none { OnOk result (gathered self.new ≡ []) }
        ensures cannot_write { IsErrOf result IoFault.CannotWrite → (more : List ℕ)
            → AppendsPrefix (W.contents (device_of output.old))
            (W.contents (device_of output.new))
            (outputs_of (conversion_of self.old) ((group_bytes self.old ++ bytes.now) ++ more)) }
        ensures out_of_memory { IsErrOf result IoFault.OutOfMemory → (rest : List ℕ)
            × WritesFront (conversion_of self.old) (group_bytes self.old ++ bytes.now) rest
            (W.contents (device_of output.old)) (W.contents (device_of output.new)) }
        ensures failed { IsErrOf result IoFault.CannotWrite ↔ IsTrue (has_failed output.new) }
        ensures no_reader { IfErr result (λ fault. fault ≢ IoFault.CannotRead) }
        ensures writes_on { has_given_up output.new ≡ has_given_up output.old }
    {
        let (whole, last) = split_last_line(bytes);
        let mut lines = whole;
        'ended: while !lines.is_empty() {
            lines = self.end_lines(lines)?;
            self.write_if_full(output)?;
        }
        self.bytes.extend_from_slice(last)?;
        self.write_gathered(output)
    }

    /// Writes the output for what is left, which is the last group.
    pub(super) fn write_last<W: Write>(&mut self, output: &mut Watched<W>) -> Result<(), IoFault>
        requires works { has_failed output.old ≡ false }
        requires none { gathered self.old ≡ [] }
        ensures ok { OnOk result (Appends (W.contents (device_of output.old))
            (W.contents (device_of output.new)) (output_of (conversion_of self.old) (group_bytes self.old))) }
        ensures cannot_write { IsErrOf result IoFault.CannotWrite
            → AppendsPrefix (W.contents (device_of output.old))
            (W.contents (device_of output.new)) (output_of (conversion_of self.old) (group_bytes self.old)) }
        ensures out_of_memory { IsErrOf result IoFault.OutOfMemory → output.new ≡ output.old }
        ensures failed { IsErrOf result IoFault.CannotWrite ↔ IsTrue (has_failed output.new) }
        ensures no_reader { IfErr result (λ fault. fault ≢ IoFault.CannotRead) }
        ensures writes_on { has_given_up output.new ≡ has_given_up output.old }
    {
        // It is written from where it is, if it stays as it is.
        let Some(_) = next_bracket(&self.bytes, self.bytes.len(), 0) else {
            return write_some(output, &self.bytes);
        };
        self.converter.push_group(&self.bytes)?;
        self.write_gathered(output)
    }

    // Ends lines at the front of whole lines, and returns those that are left. Where each line is a group,
    // all are converted together, up to the line with a bracket of no value.
    fn end_lines<'a>(&mut self, lines: &'a [u8]) -> Result<&'a [u8], AllocError>
        requires reading { IsReading (mode_of self.old) self.old }
        requires whole { EndsLine lines.now }
        requires some { 0 < length lines.now }
        ensures conversion { conversion_of self.new ≡ conversion_of self.old }
        ensures reading { OnOk result (IsReading (mode_of self.old) self.new) }
        ensures whole { IfOk result (λ left. EndsLine left.now) }
        ensures fewer { IfOk result (λ left. length left.now < length lines.now) }
        ensures ok { IfOk result (λ left. Gathers (conversion_of self.old) (group_bytes self.old ++ lines.now)
            (group_bytes self.new ++ left.now) (gathered self.old) (gathered self.new)) }
    {
        match self.converter.conversion.to {
            Mode::Pretty if self.bytes.is_empty() => self.converter.push_lines(lines),
            _ => self.end_first(lines),
        }
    }

    // Ends the first of whole lines, and returns the others.
    fn end_first<'a>(&mut self, lines: &'a [u8]) -> Result<&'a [u8], AllocError>
        requires reading { IsReading (mode_of self.old) self.old }
        requires whole { EndsLine lines.now }
        requires some { 0 < length lines.now }
        ensures conversion { conversion_of self.new ≡ conversion_of self.old }
        ensures reading { OnOk result (IsReading (mode_of self.old) self.new) }
        ensures whole { IfOk result (λ left. EndsLine left.now) }
        ensures fewer { IfOk result (λ left. length left.now < length lines.now) }
        ensures ok { IfOk result (λ left. Gathers (conversion_of self.old) (group_bytes self.old ++ lines.now)
            (group_bytes self.new ++ left.now) (gathered self.old) (gathered self.new)) }
    {
        let Some((line, others)) = split_line(lines) else {
            unreachable!()
        };
        self.end_line(line)?;
        Ok(others)
    }

    // Ends the line with these bytes, the last of which is its line feed. Appends the output for the
    // group if it ends in the line.
    fn end_line(&mut self, bytes: &[u8]) -> Result<(), AllocError>
        requires reading { IsReading (mode_of self.old) self.old }
        requires line { IsEndedLine bytes.now }
        ensures conversion { conversion_of self.new ≡ conversion_of self.old }
        ensures reading { OnOk result (IsReading (mode_of self.old) self.new) }
        ensures ok { OnOk result (Gathers (conversion_of self.old) (group_bytes self.old ++ bytes.now)
            (group_bytes self.new) (gathered self.old) (gathered self.new)) }
    {
        self.bytes.extend_from_slice(bytes)?;
        let line = &self.bytes[self.line..];
        let Some(size) = end_of_group(self.converter.conversion.to, self.line > 0, line) else {
            self.begin_line();
            return Ok(());
        };
        self.end_group(self.line + size)
    }

    // Appends the output for the group, which has so many bytes. Those after them begin the next group.
    fn end_group(&mut self, size: usize) -> Result<(), AllocError>
        requires { size ≤ length (group_bytes self.old) }
        ensures conversion { conversion_of self.new ≡ conversion_of self.old }
        ensures bytes { OnOk result (group_bytes self.new ≡ drop size (group_bytes self.old)) }
        ensures line { OnOk result (self.new.line ≡ length (group_bytes self.new)) }
        ensures ok { OnOk result (gathered self.new
            ≡ gathered self.old ++ output_of (conversion_of self.old) (take size (group_bytes self.old))) }
    {
        self.converter.push_group(&self.bytes[..size])?;
        // `drain` takes some thousand steps for a few bytes.
        self.left.clear();
        self.left.extend_from_slice(&self.bytes[size..])?;
        self.bytes.clear();
        self.bytes.extend_from_slice(&self.left)?;
        self.begin_line();
        Ok(())
    }

    // All bytes so far are lines that have ended.
    fn begin_line(&mut self)
        ensures conversion { conversion_of self.new ≡ conversion_of self.old }
        ensures bytes { group_bytes self.new ≡ group_bytes self.old }
        ensures line { self.new.line ≡ length (group_bytes self.old) }
        ensures same { gathered self.new ≡ gathered self.old }
    {
        self.line = self.bytes.len();
    }

    // Writes the outputs if there are many.
    fn write_if_full<W: Write>(&mut self, output: &mut Watched<W>) -> Result<(), IoFault>
        requires works { has_failed output.old ≡ false }
        ensures conversion { conversion_of self.new ≡ conversion_of self.old }
        ensures same { group_bytes self.new ≡ group_bytes self.old }
        ensures line { self.new.line ≡ self.old.line }
        ensures ok { OnOk result (((gathered self.new ≡ gathered self.old)
            × (W.contents (device_of output.new) ≡ W.contents (device_of output.old)))
            ⊎ ((gathered self.new ≡ []) × Appends (W.contents (device_of output.old))
            (W.contents (device_of output.new)) (gathered self.old))) }
        ensures cannot_write { OnErr result (AppendsPrefix (W.contents (device_of output.old))
            (W.contents (device_of output.new)) (gathered self.old)) }
        ensures failed { IsErr result ↔ IsTrue (has_failed output.new) }
        ensures no_other { IfErr result (λ fault. fault ≡ IoFault.CannotWrite) }
        ensures writes_on { has_given_up output.new ≡ has_given_up output.old }
    {
        if !self.converter.output.is_long() {
            return Ok(());
        }
        self.write_gathered(output)
    }

    // Writes the outputs, if there are any.
    fn write_gathered<W: Write>(&mut self, output: &mut Watched<W>) -> Result<(), IoFault>
        requires works { has_failed output.old ≡ false }
        ensures conversion { conversion_of self.new ≡ conversion_of self.old }
        ensures same { group_bytes self.new ≡ group_bytes self.old }
        ensures line { self.new.line ≡ self.old.line }
        ensures ok { OnOk result (Appends (W.contents (device_of output.old))
            (W.contents (device_of output.new)) (gathered self.old)) }
        ensures none { OnOk result (gathered self.new ≡ []) }
        ensures cannot_write { OnErr result (AppendsPrefix (W.contents (device_of output.old))
            (W.contents (device_of output.new)) (gathered self.old)) }
        ensures failed { IsErr result ↔ IsTrue (has_failed output.new) }
        ensures no_other { IfErr result (λ fault. fault ≡ IoFault.CannotWrite) }
        ensures writes_on { has_given_up output.new ≡ has_given_up output.old }
    {
        write_some(output, self.converter.output.as_bytes())?;
        self.converter.output.clear();
        Ok(())
    }
}

// Writes these bytes, if there are any.
fn write_some<W: Write>(output: &mut Watched<W>, bytes: &[u8]) -> Result<(), IoFault>
    requires works { has_failed output.old ≡ false }
    ensures ok { OnOk result (Appends (W.contents (device_of output.old))
        (W.contents (device_of output.new)) bytes.now) }
    ensures cannot_write { OnErr result (AppendsPrefix (W.contents (device_of output.old))
        (W.contents (device_of output.new)) bytes.now) }
    ensures failed { IsErr result ↔ IsTrue (has_failed output.new) }
    ensures no_other { IfErr result (λ fault. fault ≡ IoFault.CannotWrite) }
    ensures writes_on { has_given_up output.new ≡ has_given_up output.old }
{
    if bytes.is_empty() {
        return Ok(());
    }
    write_whole(output, bytes).map_err(|_| IoFault::CannotWrite)
}

// The lines that have ended, and the line that hasn't.
fn split_last_line(text: &[u8]) -> (&[u8], &[u8])
    ensures text { text.now ≡ result.0.now ++ result.1.now }
    ensures whole { EndsLine result.0.now }
    ensures last { IsInLine result.1.now }
{
    text.split_at(len_through_last::<LineFeed>(text))
}

// How many bytes of the line are the last of its group, if the group ends in the line. It is inside if
// the group has lines before it.
fn end_of_group(mode: Mode, inside: bool, line: &[u8]) -> Option<usize>
    requires { IsEndedLine line.now }
    ensures { IsEndOf mode inside line.now result }
{
    match mode {
        Mode::Pretty => Some(line.len()),
        Mode::Plain => match (opens(line), is_indented(line)) {
            (true, false) => Some(word_start(line, line.len() - 2)),
            (true, true) => None,
            (false, true) if inside => None,
            (false, _) => Some(line.len()),
        },
    }
}

// Whether the line ends with an opening bracket and a line feed.
fn opens(line: &[u8]) -> bool
    ensures { result ≡ opens line.now }
{
    line.len() > 1 && line[line.len() - 1] == b'\n' && is_opening(line[line.len() - 2])
}

// Whether the line begins with a space.
fn is_indented(line: &[u8]) -> bool
    ensures { result ≡ is_indented line.now }
{
    match line.first() {
        Some(byte) => *byte == b' ',
        None => false,
    }
}

// Where the word of this bracket begins.
fn word_start(line: &[u8], bracket: usize) -> usize
    requires { bracket < length line.now }
    ensures start { result ≡ word_start line.now bracket }
    ensures within { result ≤ bracket }
{
    if is_spaced_brace(line, bracket) {
        run_start(line, 0, bracket - 1)
    } else {
        run_start(line, 0, bracket)
    }
}

// Whether a brace is here, after a space.
fn is_spaced_brace(line: &[u8], bracket: usize) -> bool
    requires { bracket < length line.now }
    ensures is { result ≡ is_spaced_brace line.now bracket }
    ensures some { result ≡ true → 0 < bracket }
{
    line[bracket] == b'{' && bracket > 0 && line[bracket - 1] == b' '
}

// The first line with its line feed, and what follows it, or `None` if there is no line feed.
pub(super) fn split_line(text: &[u8]) -> Option<(&[u8], &[u8])>
    ensures { MatchOption result (IsInLine text.now) (λ x. IsEndedLine x.0.now
        × (text.now ≡ x.0.now ++ x.1.now)) }
{
    let end = line_len(text);
    if end < text.len() {
        Some((&text[..end + 1], &text[end + 1..]))
    } else {
        None
    }
}

// How many bytes come before the first line feed, or in all.
fn line_len(text: &[u8]) -> usize
    ensures len { result ≡ line_len text.now }
    ensures within { result ≤ length text.now }
{
    len_before_first::<LineFeed>(text)
}
