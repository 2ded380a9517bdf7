//! Makes calls by the options of a request.
use super::Request;
use crate::costs::{Costs, count};
use std::alloc::AllocError;
use ufmt::pieces::{Display, InColumn};
use ufmt::{Decimal, hex_dump_into, line_cut_into, line_into, pieces};

// The length of a buffer that is too small for what requests ask for.
const SMALL: usize = 64;

impl Costs {
    /// Makes calls by the options of a request, on a buffer that is too small for each of the texts.
    pub fn on_request(&mut self, request: &Request<'_>) -> Result<(), AllocError> {
        self.line.push_str("request: ")?;
        let Ok(text) = str::from_utf8(request.payload) else {
            return Ok(());
        };
        self.on_padded(request)?;
        self.on_columns(request, text)?;
        let mut buffer = [0u8; SMALL];
        count!(
            self,
            "dump",
            hex_dump_into(&mut buffer, request.payload, &request.dump).ok()
        );
        Ok(())
    }

    fn on_padded(&mut self, request: &Request<'_>) -> Result<(), AllocError> {
        let Request { column, hex, .. } = *request;
        let (number, width, mut buffer) = (7u64, column.width, [0u8; SMALL]);
        let decimal = Decimal {
            value: -7,
            places: 3,
        };
        let by_hex = pieces!(hex number with hex);
        count!(self, "hex", line_into(&mut buffer, &by_hex).ok());
        let by_bin = pieces!(bin number with hex);
        count!(self, "bin", line_into(&mut buffer, &by_bin).ok());
        let by_oct = pieces!(oct number with hex);
        count!(self, "oct", line_into(&mut buffer, &by_oct).ok());
        let by_zeros = pieces!(zeros number to width);
        count!(self, "zeros", line_into(&mut buffer, &by_zeros).ok());
        let by_decimal = pieces!(zeros decimal to width);
        count!(self, "decimal", line_into(&mut buffer, &by_decimal).ok());
        Ok(())
    }

    fn on_columns(&mut self, request: &Request<'_>, text: &str) -> Result<(), AllocError> {
        let Request { column, hex, .. } = *request;
        let (number, mut buffer) = (7u64, [0u8; SMALL]);
        let by_display = pieces!(display text in column);
        count!(self, "column", line_into(&mut buffer, &by_display).ok());
        count!(
            self,
            "cut column",
            line_cut_into(&mut buffer, &by_display)
                .is_whole
                .then_some(())
        );
        let by_hex = pieces!(hex number with hex in column);
        count!(
            self,
            "hex in a column",
            line_into(&mut buffer, &by_hex).ok()
        );
        let by_oct = pieces!(oct number with hex in column);
        count!(
            self,
            "oct in a column",
            line_into(&mut buffer, &by_oct).ok()
        );
        self.on_columns_in_columns(request, text)
    }

    // A column around a text that is as wide as the column.
    fn on_columns_in_columns(
        &mut self,
        request: &Request<'_>,
        text: &str,
    ) -> Result<(), AllocError> {
        let Request { column, .. } = *request;
        let (width, texts, mut buffer) = (column.width, [text], [0u8; SMALL]);
        let by_zeros = pieces!(zeros 7u64 to width in column);
        count!(
            self,
            "zeros in a column",
            line_into(&mut buffer, &by_zeros).ok()
        );
        let inner = InColumn {
            mark: Display,
            column,
        };
        let outer = InColumn {
            mark: inner,
            column,
        };
        let by_outer = pieces!(each texts by outer between "");
        count!(
            self,
            "column in a column",
            line_into(&mut buffer, &by_outer).ok()
        );
        Ok(())
    }
}
