//! Laws, each as the contract of a function.
ghost use Rattle.ufmt_values.specs.FieldLaws.{PrintedFieldsAreFound, PrintedFieldsArePlaced};

// Promise (reading): A leaf that a struct prints as a field is found, at its place and whatever follows, if
// there is no opening bracket and no quotation mark before the struct. If bytes of a name stand
// right before it, they must be UTF-8, and the class must not be `Token`.
/// A field that a struct prints, and that is a leaf, is found in the struct's text, at its place. Anything
/// may follow the text, and before it may be any bytes without an opening bracket and a quotation mark. A
/// word right before the struct's name is a part of the name.
pub fn printed_fields_are_found()
    ensures field { PrintedFieldsAreFound }
    ensures place { PrintedFieldsArePlaced }
{}
