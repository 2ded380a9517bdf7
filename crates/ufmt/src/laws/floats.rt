//! Laws of displayed floats, and of floats with a number of decimals.
ghost use Rattle.std.specs.Prelude.{◌≡◌, [], ◌∷◌, ℕ, List, false, is_ok, map};
ghost use Rattle.std.specs.Borrow.{Bor, MutBor};
ghost use lib.Ieee.{Float, binary32, binary64};
ghost use Rattle.ufmt_core.specs.Document.{leaf};
ghost use Rattle.ufmt_core.specs.FloatText.{PrintsFloats};
ghost use Rattle.ufmt_core.specs.Formatter.{Prints, setting_of};
ghost use Rattle.ufmt_grammar.specs.Leaves.{IsLeaf};
ghost use Rattle.ufmt_grammar.specs.declared.class.Class.TheVariants.{Debug};
ghost use Rattle.ufmt_fixed.specs.Text.{fixed_text};
ghost use Rattle.ufmt.specs.Pieces.{column, each, pieces_text, text};
ghost use Rattle.ufmt.specs.declared.fixed.Fixed.{Fixed};

use crate::column::Column;
use crate::display::uDisplay;
use crate::fixed::{Fixed, uDisplayFixed};
use crate::pieces::Line;
use crate::{pieces, uwrite};
use ufmt_core::{Formatter, uDebug, uWrite};

/// A float is displayed as the leaf of the text that Rust's Display prints of it.
pub fn floats_display_their_texts()
    ensures of_f32 { PrintsFloats binary32 false ⟦<f32 as uDisplay>⟧.display }
    ensures of_f64 { PrintsFloats binary64 false ⟦<f64 as uDisplay>⟧.display }
{}

/// With a number of decimals a float prints its exact value, rounded. That is a debug leaf, so it can be
/// read again. A reference prints what it refers to, and `Fixed` prints its value with its decimals.
pub fn floats_print_decimals<T: uDisplayFixed>()
    ensures of_f32 { (x : Float) (n : ℕ) → ⟦<f32 as uDisplayFixed>⟧.fixed_text x n ≡ fixed_text n x }
    ensures of_f64 { (x : Float) (n : ℕ) → ⟦<f64 as uDisplayFixed>⟧.fixed_text x n ≡ fixed_text n x }
    ensures of_ref { (x : Bor T) → ⟦<&'static T as uDisplayFixed>⟧.fixed_text x ≡ T.fixed_text x.now }
    ensures of_ref_mut { (x : MutBor T) → ⟦<&'static mut T as uDisplayFixed>⟧.fixed_text x ≡
        T.fixed_text x.now }
    ensures displayed { (x : Fixed T) → ⟦<Fixed<T> as uDisplay>⟧.display x ≡
        leaf (T.fixed_text x.value x.decimals) }
    ensures debugged { ⟦<Fixed<T> as uDebug>⟧.document ≡ ⟦<Fixed<T> as uDisplay>⟧.display }
    ensures debug_leaf { (n : ℕ) (x : Float) → IsLeaf Debug (fixed_text n x) }
{}

/// Writes `uwrite!(f, fixed x to decimals, fixed x to decimals in within)`.
pub fn uwrite_decimals<W: uWrite, X: uDisplayFixed>(
    f: &mut Formatter<W>,
    x: &X,
    decimals: usize,
    within: Column,
) -> Result<(), W::Error>
    ensures { Prints W.seen f.old
        (pieces_text (setting_of f.old)
        (text (X.fixed_text x.now decimals)
        ∷ column within (text (X.fixed_text x.now decimals) ∷ []) ∷ []))
        (is_ok result) f.new }
{
    uwrite!(f, fixed x to decimals, fixed x to decimals in within)
}

/// Writes `pieces!(fixed x to decimals, fixed x to decimals in within, each fixed xs to decimals between t,
/// each fixed xs to decimals in within between t)`.
pub fn line_of_decimals<W: uWrite, X: uDisplayFixed>(
    f: &mut Formatter<W>,
    t: &str,
    x: &X,
    xs: &[X],
    decimals: usize,
    within: Column,
) -> Result<(), W::Error>
    ensures { Prints W.seen f.old
        (pieces_text (setting_of f.old)
        (text (X.fixed_text x.now decimals)
        ∷ column within (text (X.fixed_text x.now decimals) ∷ [])
        ∷ each t.now (map (λ y. text (X.fixed_text y decimals) ∷ []) xs.now)
        ∷ each t.now (map (λ y. column within (text (X.fixed_text y decimals) ∷ []) ∷ []) xs.now) ∷ []))
        (is_ok result) f.new }
{
    pieces!(
        fixed x to decimals, fixed x to decimals in within, each fixed xs to decimals between t,
        each fixed xs to decimals in within between t
    )
    .print(f)
}
