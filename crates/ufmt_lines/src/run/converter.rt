//! What converts lines and groups of lines: their values are written in the other mode, and all else as it is.
ghost use Rattle.std.specs.Prelude.{◌≡◌, ◌<◌, ◌≤◌, ◌+◌, ◌++◌, [], ℕ, suc, true, IfOk, OnOk, drop, length};
ghost use Rattle.ufmt_core.specs.declared.layout.Mode.TheVariants.{Pretty};
ghost use Rattle.ufmt_lines.specs.Private.GroupOutput.{output_bytes};
ghost use Rattle.ufmt_lines.specs.Private.WholeLines.{EndsLine, PushesLines};
ghost use Rattle.ufmt_lines.specs.Values.{convert_from, output_of};
ghost use Rattle.ufmt_values.specs.FoundValues.{IsValueAt};
ghost use Rattle.ufmt_values.specs.Unclosed.{HasNoMore};
ghost use Rattle.ufmt_values.specs.Values.{before_bracket};

use super::conversion::Conversion;
use super::groups::split_line;
use super::open_blocks::Tries;
use super::output::GroupOutput;
use super::values::stays;
use std::alloc::{AllocError, Global};
use ufmt_scan::FrontText;
use ufmt_values::{next_bracket, values_end};

/// A conversion, and the outputs that it has made.
#[derive(Drop)]
pub(super) struct Converter {
    pub(super) conversion: Conversion,
    pub(super) output: GroupOutput,
    // Those that failed in the text that is being converted.
    tries: Tries,
}

/// How much of a text is converted.
#[derive(Clone, Copy)]
enum Extent {
    Whole,
    /// Up to a bracket of no value, or until the outputs are long.
    Front,
}

impl Converter {
    pub(super) fn new(alloc: Global, conversion: Conversion) -> Converter
        ensures conversion { result.conversion ≡ conversion }
        ensures none { output_bytes result.output ≡ [] }
    {
        Converter {
            conversion,
            output: GroupOutput::new(alloc),
            tries: Tries::new(),
        }
    }

    /// Appends the output for a group of lines.
    pub(super) fn push_group(&mut self, group: &[u8]) -> Result<(), AllocError>
        ensures conversion { self.new.conversion ≡ self.old.conversion }
        ensures ok { OnOk result (output_bytes self.new.output
            ≡ output_bytes self.old.output ++ output_of self.old.conversion group.now) }
    {
        self.push_values(group, group.len(), Extent::Whole)?;
        Ok(())
    }

    /// Appends the outputs for lines at the front of whole lines, each of which is a group: up to a line with a
    /// bracket of no value, or until the outputs are long. Returns the lines that are left.
    pub(super) fn push_lines<'a>(&mut self, lines: &'a [u8]) -> Result<&'a [u8], AllocError>
        requires pretty { self.old.conversion.to ≡ Pretty }
        requires whole { EndsLine lines.now }
        requires some { 0 < length lines.now }
        ensures conversion { self.new.conversion ≡ self.old.conversion }
        ensures whole { IfOk result (λ left. EndsLine left.now) }
        ensures fewer { IfOk result (λ left. length left.now < length lines.now) }
        ensures ok { IfOk result (λ left. PushesLines self.old.conversion lines.now left.now
            (output_bytes self.old.output) (output_bytes self.new.output)) }
    {
        let front = self.push_values(lines, lines.len(), Extent::Front)?;
        let Some((line, left)) = split_line(&lines[front..]) else {
            return Ok(&lines[front..]);
        };
        // A try failed in it.
        let end = values_end(line, line.len(), true);
        self.push_values(line, end, Extent::Whole)?;
        Ok(left)
    }

    // Appends the output for a text, in which no value begins from `last` on, or for its front. Values are looked
    // for from the left on. Returns how long the front is.
    #[inline(always)]
    fn push_values(&mut self, text: &[u8], last: usize, extent: Extent) -> Result<usize, AllocError>
        requires { (place : ℕ) → last ≤ place → HasNoMore text.now place }
        ensures conversion { self.new.conversion ≡ self.old.conversion }
        ensures within { IfOk result (λ front. front ≤ length text.now) }
        ensures whole { extent ≡ Extent.Whole → IfOk result (λ front. front ≡ length text.now) }
        ensures ok { IfOk result (λ front. output_bytes self.old.output ++ output_of self.old.conversion text.now
            ≡ output_bytes self.new.output ++ output_of self.old.conversion (drop front text.now)) }
    {
        self.tries.clear();
        let mut end = last;
        let mut at = 0;
        while let Some(bracket) = next_bracket(text, end, at) {
            let found = self.tries.value_at(self.conversion.to, text, at, bracket);
            at = self.push_next(text, at, bracket, found)?;
            let has_failed = at == bracket + 1;
            if self.ends(extent, has_failed) {
                return Ok(at);
            }
            end = values_end(text, end, has_failed);
        }
        self.output.push(&text[at..])?;
        Ok(text.len())
    }

    // Whether the front ends after a bracket. `has_failed` says that it is of no value.
    fn ends(&self, extent: Extent, has_failed: bool) -> bool
        ensures { result ≡ true → extent ≡ Extent.Front }
    {
        match extent {
            Extent::Whole => false,
            Extent::Front => has_failed || self.output.is_long(),
        }
    }

    // Appends what is from `at` to the end of the value with the next bracket, or to that bracket if it is
    // of no value. Returns where that ends.
    fn push_next(
        &mut self,
        text: &[u8],
        at: usize,
        bracket: usize,
        found: Option<(usize, FrontText)>,
    ) -> Result<usize, AllocError>
        requires next { bracket ≡ at + before_bracket (drop at text.now) }
        requires order { at ≤ bracket }
        requires within { bracket < length text.now }
        requires found { IsValueAt self.old.conversion.to text.now at bracket found }
        ensures same { self.new ≡ record self.old { output = self.new.output } }
        ensures more { IfOk result (λ end. at < end) }
        ensures within { IfOk result (λ end. end ≤ length text.now) }
        ensures ok { IfOk result (λ end. (n : ℕ)
            → output_bytes self.old.output ++ convert_from self.old.conversion (suc n) text.now at
            ≡ output_bytes self.new.output ++ convert_from self.old.conversion n text.now end) }
    {
        let Some((start, value)) = found else {
            self.output.push(&text[at..bracket + 1])?;
            return Ok(bracket + 1);
        };
        let end = start + value.len;
        self.output.push(&text[at..start])?;
        if stays(self.conversion, text, at, bracket, value) {
            self.output.push(&text[start..end])?;
        } else {
            self.output
                .push_converted(self.conversion.to, &text[start..end])?;
        }
        Ok(end)
    }
}
