//! `CellValue`, what a cell held when it was read. A `RefCellValue` holds a loan of a cell, so it isn't parsed.
use crate::uparse::{ByType, uParse};
use ufmt::cells::CellValue;
use ufmt_parser::by_count::structs::parse_struct_1;
use ufmt_parser::mode::ParseMode;
use ufmt_parser::parser::{Fault, Parser};

/// Takes a struct `Cell` with one field.
impl<A: Copy, T: uParse<A>> uParse<A> for CellValue<T> {
    ghost is_value = { λ c. T.is_value c.0 };

    ghost holds_no_memory = { T.holds_no_memory };

    fn prove_value(&self) {
        self.0.prove_value();
    }

    fn parse_from<M: ParseMode>(
        alloc: A,
        parser: &mut Parser<'_, M>,
    ) -> Result<CellValue<T>, Fault> {
        let value = tri!(parse_struct_1(alloc, parser, "Cell", "value", &ByType));
        Ok(CellValue(value))
    }
}
