//! The mode of a text as a type, which the scanner has too, and a mode in which a parser keeps details.
ghost use Rattle.std.specs.Prelude.{true};

use std::marker::PhantomData;
use ufmt_core::layout::Mode;
pub use ufmt_scan::mode::{ParseMode, PlainText, PrettyText};

/// The texts of the mode `M`. A parser of them also keeps a `Detail` of what it expects, which takes time.
#[derive(Clone, Copy)]
pub struct Detailed<M>(PhantomData<M>);

impl<M: ParseMode> ParseMode for Detailed<M> {
    ghost mode = { M.mode };

    ghost keeps_detail = { true };

    #[inline(always)]
    fn mode() -> Mode {
        M::mode()
    }

    #[inline(always)]
    fn keeps_detail() -> bool {
        true
    }
}
