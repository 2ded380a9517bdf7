//! The law on floats.
ghost use Rattle.std.specs.Prelude.{true};
ghost use lib.Ieee.{binary32, binary64};
ghost use Rattle.ufmt_core.specs.FloatText.{PrintsFloats};

use crate::uDebug;

/// The document of a float is the leaf of the text that Rust's Debug prints of it.
pub fn documents_of_floats()
    ensures of_f32 { PrintsFloats binary32 true ⟦<f32 as uDebug>⟧.document }
    ensures of_f64 { PrintsFloats binary64 true ⟦<f64 as uDebug>⟧.document }
{}
