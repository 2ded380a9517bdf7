//! What is expected where a text stops fitting, in detail.

/// What is expected where a text stops fitting, more closely than a `Need` says it. Only parsers in the mode `Detailed` keep it.
#[derive(Clone, Copy, PartialEq, Eq, Debug, Drop)]
pub enum Detail<'t> {
    /// Nothing more than the `Need`.
    Nothing,
    /// This name: of a struct, or of a value that prints as its name alone.
    Name(&'t str),
    /// The name of a variant of the enum with this name.
    Variant(&'t str),
    /// `true` or `false`.
    Truth,
    /// The name of this field.
    Field(&'t str),
    /// What comes before this field: an opening brace, a comma, a space or a line feed.
    BeforeField(&'t str),
    /// The end of a struct or a tuple: it has no more fields.
    NoField,
    /// A number of a range with this text, such as `0 to 255`.
    Range(&'t str),
    /// A number other than 0.
    NonZero,
}
