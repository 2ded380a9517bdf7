//! The mode of a text as a type. A scanner or a parser that is generic over it has a copy for each mode, in which
//! the mode is a constant.
ghost use Rattle.std.specs.Prelude.{◌≡◌, Bool, false};
ghost use Rattle.ufmt_core.specs.declared.layout.Mode.{Mode};
ghost use Rattle.ufmt_core.specs.declared.layout.Mode.TheVariants.{Plain, Pretty};

use ufmt_core::layout::Mode;

/// The mode of the texts that a parser accepts.
pub trait ParseMode {
    ghost mode: { Mode };

    // Whether a parser in this mode keeps what it expects in detail. Only parsers look at it.
    ghost keeps_detail: { Bool };

    fn mode() -> Mode
        ensures { result ≡ mode };

    fn keeps_detail() -> bool
        ensures { result ≡ keeps_detail };
}

/// Plain texts.
#[derive(Clone, Copy)]
pub struct PlainText;

/// Pretty texts.
#[derive(Clone, Copy)]
pub struct PrettyText;

impl ParseMode for PlainText {
    ghost mode = { Plain };

    ghost keeps_detail = { false };

    #[inline(always)]
    fn mode() -> Mode {
        Mode::Plain
    }

    #[inline(always)]
    fn keeps_detail() -> bool {
        false
    }
}

impl ParseMode for PrettyText {
    ghost mode = { Pretty };

    ghost keeps_detail = { false };

    #[inline(always)]
    fn mode() -> Mode {
        Mode::Pretty
    }

    #[inline(always)]
    fn keeps_detail() -> bool {
        false
    }
}
