//! What is missing where a text stops fitting.

/// What a parser expected where the text stops fitting.
//
// `Expected` of `ufmt_parse` is the same with `End`, which no parser may say: only `parse` knows that a whole value is
// before the place. So nothing is asked of a parser by hand, and nothing is tested.
#[derive(Clone, Copy, Drop)]
pub enum Need {
    /// A name of the type: of a struct, a field or a variant, or a truth value.
    Name,
    /// A number of the type.
    Number,
    /// A character in apostrophes.
    Character,
    /// A text in quotation marks.
    Text,
    /// A bracket, a comma, a colon, a space or a line feed, or another one of these.
    Punctuation,
    /// Keys in ascending order.
    Order,
    /// Another number of values in an array, or fewer blocks around.
    Count,
}
