//! Writing the text around the entries of a block, at the formatter's own mode and depth.
ghost use Rattle.std.specs.Prelude.{◌++◌, codes, is_ok};
ghost use Rattle.ufmt_core.specs.Layout.{dots_ending, dots_line, ending, frame, indentation, inside, lead, line_start, trail};
ghost use Rattle.ufmt_core.specs.Formatter.{Prints, depth_of, mode_of, setting_of};

use crate::formatter::Formatter;
use crate::layout::{COLON, Count, INDENT, Kind, Mode, ONLY_DOTS};
use crate::write::uWrite;

impl<W: uWrite> Formatter<W> {
    /// Writes the text before an entry that follows `count` others. The formatter is at their depth.
    #[inline(always)]
    pub(crate) fn write_lead(&mut self, kind: Kind, count: Count) -> Result<(), W::Error>
        ensures { Prints W.seen self.old
            (lead (frame (mode_of self.old) kind) (setting_of self.old) count) (is_ok result)
            self.new }
    {
        self.write_piece(kind.lead(self.setting.mode, count))?;
        self.write_piece(kind.gap(self.setting.mode, count))?;
        self.write_line_start()
    }

    /// Writes the text before the value of a struct's field.
    #[inline(always)]
    pub(crate) fn write_field_lead(
        &mut self,
        kind: Kind,
        count: Count,
        name: &str,
    ) -> Result<(), W::Error>
        ensures { Prints W.seen self.old
            (lead (frame (mode_of self.old) kind) (setting_of self.old) count
            ++ (name.now ++ codes ": ")) (is_ok result) self.new }
    {
        self.write_lead(kind, count)?;
        self.write_str(name)?;
        self.write_str(COLON)
    }

    #[inline(always)]
    pub(crate) fn write_trail(&mut self) -> Result<(), W::Error>
        ensures { Prints W.seen self.old (trail (mode_of self.old)) (is_ok result) self.new }
    {
        self.write_piece(self.setting.mode.trail())
    }

    /// Writes the end of a block with `count` entries. The formatter is at the block's own depth.
    #[inline(always)]
    pub(crate) fn write_ending(&mut self, kind: Kind, count: Count) -> Result<(), W::Error>
        ensures { Prints W.seen self.old
            (ending (frame (mode_of self.old) kind) (setting_of self.old) count) (is_ok result)
            self.new }
    {
        match count {
            Count::Zero => self.write_closing(kind, count),
            Count::One | Count::Several => {
                self.write_line_start()?;
                self.write_closing(kind, count)
            }
        }
    }

    /// Writes the end of a struct with `count` fields, of which not all are shown. The formatter is at
    /// the struct's own depth.
    pub(crate) fn write_dots_ending(&mut self, count: Count) -> Result<(), W::Error>
        ensures { Prints W.seen self.old (dots_ending (setting_of self.old) count) (is_ok result)
            self.new }
    {
        match count {
            Count::Zero => self.write_str(ONLY_DOTS),
            Count::One | Count::Several => {
                self.write_dots_line()?;
                self.write_ending(Kind::Struct, count)
            }
        }
    }

    // The dots are at the depth of the fields.
    #[inline(always)]
    fn write_dots_line(&mut self) -> Result<(), W::Error>
        ensures { Prints W.seen self.old
            (dots_line (mode_of self.old) (inside (setting_of self.old)).depth) (is_ok result)
            self.new }
    {
        match self.setting.mode {
            Mode::Plain => self.write_str(", .."),
            Mode::Pretty => {
                self.write_indentation(self.setting.inside().depth)?;
                self.write_str("..\n")
            }
        }
    }

    // An empty piece isn't written.
    #[inline(always)]
    fn write_both(&mut self, first: &str, second: &str) -> Result<(), W::Error>
        ensures { Prints W.seen self.old (first.now ++ second.now) (is_ok result) self.new }
    {
        self.write_piece(first)?;
        self.write_piece(second)
    }

    #[inline(always)]
    fn write_line_start(&mut self) -> Result<(), W::Error>
        ensures { Prints W.seen self.old (line_start (mode_of self.old) (depth_of self.old))
            (is_ok result) self.new }
    {
        match self.setting.indents() {
            0 => Ok(()),
            indents => self.write_indentation(indents),
        }
    }

    // One piece for each indentation.
    fn write_indentation(&mut self, indents: u8) -> Result<(), W::Error>
        ensures { Prints W.seen self.old (indentation indents) (is_ok result) self.new }
    {
        for _indent in 0..indents {
            self.write_str(INDENT)?;
        }
        Ok(())
    }

    #[inline(always)]
    fn write_closing(&mut self, kind: Kind, count: Count) -> Result<(), W::Error>
        ensures { Prints W.seen self.old ((frame (mode_of self.old) kind).closing count)
            (is_ok result) self.new }
    {
        let (before, bracket) = kind.closing(self.setting.mode, count);
        self.write_both(before, bracket)
    }

    #[inline(always)]
    fn write_piece(&mut self, piece: &str) -> Result<(), W::Error>
        ensures { Prints W.seen self.old piece.now (is_ok result) self.new }
    {
        if piece.is_empty() {
            Ok(())
        } else {
            self.write_str(piece)
        }
    }
}
