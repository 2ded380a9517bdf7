//! Laws of the texts of floats. Each function does nothing: its contract is the law.
ghost use Rattle.ufmt_float.specs.Laws.{TextsAreParsed, NoTwoFloatsHaveOneText, EachFloatHasAText, NoFloatHasTwoTexts};

/// Rust's `parse` reads the text of a float as the float. So no two floats of one format have one text by one trait.
pub fn float_texts_are_parsed()
    ensures parsed { TextsAreParsed }
    ensures one_float { NoTwoFloatsHaveOneText }
{}

// Promise (floats): Each float has exactly one text by each trait, and Rust's `parse` reads it. So no two
// floats of a format share a text. Also: `laws::float_texts_are_parsed`.
/// Each float has a text, and only one.
pub fn floats_have_one_text()
    ensures text { EachFloatHasAText }
    ensures one_text { NoFloatHasTwoTexts }
{}
