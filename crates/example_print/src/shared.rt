//! Types with fields of std's shared values, queues and ranges, each of which prints in one call.
ghost use Rattle.std.specs.Prelude.{[], ◌∷◌};
ghost use Rattle.ufmt.specs.ValueDocuments.{named_struct, number, option_document};
ghost use Rattle.example_print.specs.declared.shared.Link.TheFolds.{fold-Link};

use std::borrow::CowStr;
use std::collections::VecDeque;
use std::ops::Range;
use std::rc::Rc;
use ufmt::{Formatter, fields, uDebug, uWrite};

/// A window over a log.
#[derive(Drop)]
pub struct Window<'a> {
    pub name: CowStr<'a>,
    pub lines: Range<usize>,
    pub recent: VecDeque<u8>,
}

impl<'a> uDebug for Window<'a> {
    ghost document = { λ w. named_struct "Window"
        (("name", ⟦<CowStr<'a> as uDebug>⟧.document w.name)
        ∷ ("lines", ⟦<Range<usize> as uDebug>⟧.document w.lines)
        ∷ ("recent", ⟦<VecDeque<u8> as uDebug>⟧.document w.recent) ∷ []) };

    fn fmt<W: uWrite>(&self, f: &mut Formatter<W>) -> Result<(), W::Error> {
        fields!(
            f,
            self,
            Window {
                name,
                lines,
                recent
            }
        )
    }
}

/// A link of a chain, whose rest may be shared with other chains.
#[derive(Drop)]
pub struct Link {
    pub id: u64,
    pub rest: Option<Rc<Link>>,
}

impl uDebug for Link {
    ghost document = { fold-Link _ (λ l. named_struct "Link"
        (("id", number l.id) ∷ ("rest", option_document (λ r. r.value) l.rest) ∷ [])) };

    fn fmt<W: uWrite>(&self, f: &mut Formatter<W>) -> Result<(), W::Error> {
        fields!(f, self, Link { id, rest })
    }
}
