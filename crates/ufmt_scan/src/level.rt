//! The level of a document in a text, and what is around the entries of a block there.
ghost use Rattle.std.specs.Prelude.{◌≡◌};
ghost use Rattle.ufmt_core.specs.Layout.{frame, inside, lead};
ghost use Rattle.ufmt_core.specs.declared.layout.Count.TheVariants.{Zero};
ghost use Rattle.ufmt_grammar.specs.Reading.{last_dots, strip, strip_only_dots};
ghost use Rattle.ufmt_scan.specs.Private.Level.{setting_at};
ghost use Rattle.ufmt_scan.specs.Rest.{now_of};

use crate::strip::{
    setting_in, strip_byte, strip_closing, strip_first_lead, strip_piece, strip_to_line,
};
use ufmt_core::layout::{Count, Kind, Mode, Setting};
use ufmt_grammar::class::Class;

/// The class of a document, the mode of its layout, and how many blocks are open around it.
#[derive(Clone, Copy)]
pub(crate) struct Level {
    pub(crate) class: Class,
    pub(crate) mode: Mode,
    pub(crate) open_blocks: u8,
}

/// What follows the dots in braces after a name: a struct of which no field is shown. No token document
/// has one.
#[inline(always)]
#[tactic(auto, using(crate::proofs::Strips::stripping))]
pub(crate) fn strip_only_dots(class: Class, input: &[u8]) -> Option<&[u8]>
    ensures { now_of result ≡ strip_only_dots class input.now }
{
    match class {
        Class::Token => None,
        // Few names have a space after them.
        Class::Debug => strip_piece("{ .. }", strip_byte(b' ', input)?),
    }
}

impl Level {
    /// The mode and depth at which a document is laid out.
    #[inline(always)]
    pub(crate) fn setting(self) -> Setting
        ensures { result ≡ setting_at self }
    {
        setting_in(self.mode, self.open_blocks)
    }

    /// What follows the lead of a block's first entry.
    #[inline(always)]
    pub(crate) fn strip_lead(self, kind: Kind, input: &[u8]) -> Option<&[u8]>
        ensures { now_of result
            ≡ strip (lead (frame self.mode kind) (inside (setting_at self)) Zero) input.now }
    {
        strip_first_lead(kind, self.setting().inside(), input)
    }

    /// What follows the dots in place of a struct's last fields, and the end of the struct.
    #[inline(always)]
    #[tactic(auto, using(crate::proofs::Strips::stripping))]
    pub(crate) fn strip_dots(self, input: &[u8]) -> Option<&[u8]>
        ensures { now_of result ≡ strip (last_dots (setting_at self)) input.now }
    {
        let dots = match self.mode {
            Mode::Plain => "..",
            Mode::Pretty => "..\n",
        };
        let end = strip_to_line(dots, self.setting(), input)?;
        strip_closing(self.mode, Kind::Struct, Count::One, end)
    }
}
