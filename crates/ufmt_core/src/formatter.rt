//! The formatter: a writer, a mode and a depth.
ghost use Rattle.std.specs.Prelude.{◌≡◌, ◌↔◌, ℕ, is_ok, encode_utf8, IsTrue};
ghost use Rattle.ufmt_core.specs.Document.{leaf};
ghost use Rattle.ufmt_core.specs.Layout.{Pretty};
ghost use Rattle.std.specs.Borrow.{MutBor};
ghost use Rattle.std.specs.Fn.{FnOnceReturnsAtMut};
ghost use Rattle.ufmt_core.specs.declared.formatter.Formatter.{Formatter};
ghost use Rattle.ufmt_core.specs.Formatter.{IsNew, LaysOut, Prints, at_setting, depth_of, in_pretty_mode, mode_of, setting_of, writer_of};

pub(crate) mod builder;
mod frame;

use crate::layout::{Mode, Setting};
use crate::write::uWrite;

/// A writer, and the mode and depth that values are printed in.
#[derive(Drop)]
pub struct Formatter<W> {
    writer: W,
    setting: Setting,
}

impl<W: uWrite> Formatter<W> {
    /// A plain formatter at depth 0 over this writer, which may be a `&mut` to one.
    pub fn new(writer: W) -> Formatter<W>
        ensures writer { writer_of result ≡ writer }
        ensures is_new { IsNew result }
    {
        Formatter {
            writer,
            setting: Setting {
                mode: Mode::Plain,
                depth: 0,
            },
        }
    }

    /// A formatter over another writer, in this one's mode and at its depth.
    pub fn with_writer<V: uWrite>(&self, writer: V) -> Formatter<V>
        ensures writer { writer_of result ≡ writer }
        ensures setting { setting_of result ≡ setting_of self.now }
    {
        Formatter {
            writer,
            setting: self.setting,
        }
    }

    /// Returns the writer. Where it is a `&mut`, this call ends the loan.
    pub fn into_inner(self) -> W
        ensures { result ≡ writer_of self }
    {
        self.writer
    }

    // Promise (printing): After an error the writer is in a state that its own `failed` allows. Also:
    // `Formatter::write_char`.
    /// Writes the text as one piece. On `Err` a prefix of it was written.
    #[inline(always)]
    pub fn write_str(&mut self, s: &str) -> Result<(), W::Error>
        ensures prints { Prints W.seen self.old s.now (is_ok result) self.new }
        ensures lays_out { LaysOut W.seen self.old (leaf s.now) (is_ok result) self.new }
    {
        self.writer.write_str(s)
    }

    /// Writes the character as one piece. On `Err` a prefix of its bytes was written.
    pub fn write_char(&mut self, c: char) -> Result<(), W::Error>
        ensures prints { Prints W.seen self.old (encode_utf8 c) (is_ok result) self.new }
        ensures lays_out { LaysOut W.seen self.old (leaf (encode_utf8 c)) (is_ok result) self.new }
    {
        self.writer.write_char(c)
    }

    // Promise (printing): `pretty` runs its closure in pretty mode, and then brings back the mode and the
    // depth.
    /// Runs `f` once in pretty mode, and returns its result. Mode and depth are then as before,
    /// whatever `f` left. The writer is as `f` left it, which may put another in its place.
    pub fn pretty<F: FnOnce(&mut Formatter<W>) -> Result<(), W::Error>>(
        &mut self,
        f: F,
    ) -> Result<(), W::Error>
        requires { (p : MutBor (Formatter W)) → p.now ≡ in_pretty_mode self.old → F.pre f p }
        ensures { (last : Formatter W) × FnOnceReturnsAtMut F.FnOnce f (in_pretty_mode self.old)
            result last
            × (self.new ≡ at_setting last (setting_of self.old)) }
    {
        let outer = self.setting;
        self.setting.mode = Mode::Pretty;
        let outcome = f(self);
        self.setting = outer;
        outcome
    }

    /// Whether blocks are laid out with one entry a line.
    pub fn is_pretty(&self) -> bool
        ensures { IsTrue result ↔ (mode_of self.now ≡ Pretty) }
    {
        matches!(self.setting.mode, Mode::Pretty)
    }

    /// How many blocks are around the text that is printed next in pretty mode, at most 255. A line
    /// begins with four spaces for each.
    pub fn depth(&self) -> u8
        ensures { result ≡ depth_of self.now }
    {
        self.setting.depth
    }
}
