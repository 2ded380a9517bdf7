//! A value that was printed to a log, read back from its line.
ghost use Rattle.std.specs.Prelude.{◌≡◌, ◌≢◌, Some, option_map, string_bytes, IfOk, IsErrOf};
ghost use Rattle.ufmt.specs.Decimal.{decimal};
ghost use Rattle.ufmt.specs.Layout.{plain_text};
ghost use Rattle.example_print.specs.Logger.{measurement_document};
ghost use Rattle.example_print.specs.declared.logger.Measurement.{Measurement};

#[cfg(test)]
mod tests;

use std::alloc::Global;
use ufmt_doc::{ReadError, read_field};

/// Returns the temperature of a measurement that was printed to a line, as its decimal text. A printed
/// line never fails with `NotText`.
pub fn celsius(alloc: Global, line: &[u8]) -> Result<Option<String>, ReadError>
    ensures logged { IfOk result (λ text.
        (measurement : Measurement) → line.now ≡ plain_text (measurement_document measurement)
        → option_map string_bytes text ≡ Some (decimal measurement.celsius)) }
    ensures is_read { IsErrOf result ReadError.NotText
        → (measurement : Measurement) → line.now ≢ plain_text (measurement_document measurement) }
{
    read_field(alloc, line, "celsius")
}
