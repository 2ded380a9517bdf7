//! Laws of texts that can be read again, each as the contract of a function.
ghost use Rattle.std.specs.Prelude.{ℤ};
ghost use Rattle.ufmt_core.specs.Decimal.{decimal};
ghost use Rattle.ufmt_grammar.specs.FloatLaws.{FloatTextsAreLeaves, FloatTextsWithoutPointAreWords};
ghost use Rattle.ufmt_grammar.specs.NormalFormLaws.{NormalFormsAreNormal, NormalFormsKeepTexts, NormalFormsKeepClasses};
ghost use Rattle.ufmt_grammar.specs.Token.{Class, IsWord};
ghost use Rattle.ufmt_grammar.specs.QuotedLaws.{QuotedCharDetermines, QuotedEndsItself, QuotedIsNoOtherLeaf, QuotedIsOneLine, QuotedTextIsNoChar, QuotedTextDetermines, ReadsEachQuoted, ReadsOnlyQuoted};
ghost use Rattle.ufmt_grammar.specs.ShiftLaws.{ShiftMovesEachLine, ShiftedAtDepth, ShiftedIsPretty, ClassesHaveNoLineFeed};
ghost use Rattle.ufmt_grammar.specs.ReadingLaws.{ReadsEachText, ReadsOnlyTexts, RefusesOnlyUnprinted};
ghost use Rattle.ufmt_grammar.specs.ReadingLaws.{PlainIsUnambiguous, PlainTextDetermines, PrettyIsUnambiguous, PrettyTextDetermines, TextsAgree, TokensAreDebug};
ghost use Rattle.ufmt_grammar.specs.UnquotedLaws.{UnquotedAsBefore};

/// The decimal text of a whole number is a word, so it can be read back.
pub fn numbers_are_words()
    ensures { (z : ℤ) → IsWord (decimal z) }
{}

// Promise (floats): The texts of floats are debug leaves. A text of `{:?}` without a point is a word. Also:
// `ufmt::laws::floats::floats_print_decimals`.
/// The text of a float by either trait is a debug leaf, so it can be read again. Without a point it is a
/// word, and so a token leaf too, as `1e-7`, `inf` and `NaN`.
pub fn float_texts_are_leaves()
    ensures debug_leaf { FloatTextsAreLeaves }
    ensures word { FloatTextsWithoutPointAreWords }
{}

// Promise (reading): A normal form has the texts and the class of its document. Whole numbers are words. A
// token document without quoted leaves has only words and `()` as leaves. Also: `laws::numbers_are_words`,
// `laws::unquoted_as_before`.
/// The normal form of a document is in normal form, and has the document's text in each mode and from
/// each depth. It is of each class that the document is of.
pub fn normal_forms()
    ensures normal { NormalFormsAreNormal }
    ensures same_text { NormalFormsKeepTexts }
    ensures class { NormalFormsKeepClasses }
{}

/// A document's shifted text is made without a depth, by four spaces before each line inside a block.
/// Shifted once more for each block around it, it is the pretty layout at that depth. This holds up to a
/// depth of 255 if no leaf and no name has a line feed, as in each document of a class.
pub fn shifted_at_depth()
    ensures shift { ShiftMovesEachLine }
    ensures at_depth { ShiftedAtDepth }
    ensures pretty { ShiftedIsPretty }
    ensures class { ClassesHaveNoLineFeed }
{}

// Promise (reading): The first part of the headline also holds for a text within a larger one, and from each
// depth that keeps blocks within 255. Also: `laws::pretty_reads_one_way`.
/// A plain text can be read in one way. If two documents of a class, each with a text after it that may
/// follow, have equal plain texts, then their normal forms are equal, and so are the texts after them.
pub fn plain_reads_one_way()
    ensures { (class : Class) → PlainIsUnambiguous class }
{}

/// A pretty text can be read in one way, as a plain text can, from each depth from which the documents'
/// blocks are nested at most 255 deep.
pub fn pretty_reads_one_way()
    ensures { (class : Class) → PrettyIsUnambiguous class }
{}

// Promise (headline): Part 1: two documents of a class have equal plain texts if and only if their pretty
// texts are equal, and if and only if their normal forms are. Clauses: `plain`, `pretty`, `agree`. Also:
// `ufmt_doc::same_text`.
/// Documents of a class have equal plain texts exactly if they have equal pretty texts, and exactly if
/// they have equal normal forms.
#[tactic(auto, using(crate::proofs::OneWay::plain_text_determines, crate::proofs::OneWay::pretty_text_determines, crate::proofs::OneWay::texts_agree))]
pub fn texts_determine_normal_forms()
    ensures plain { (class : Class) → PlainTextDetermines class }
    ensures pretty { (class : Class) → PrettyTextDetermines class }
    ensures agree { (class : Class) → TextsAgree class }
{}

// Promise (reading): The definition `read_text` accepts the texts of a class and no others.
/// In each mode exactly the texts of documents of a class are read, each as the normal form of the
/// documents that have it.
pub fn texts_are_read_exactly()
    ensures only { (class : Class) → ReadsOnlyTexts class }
    ensures each { (class : Class) → ReadsEachText class }
    ensures refused { (class : Class) → RefusesOnlyUnprinted class }
{}

// Promise (reading): Each token document is a debug document.
/// Each token document is a debug document. So a token document's text reads the same in both classes.
#[tactic(auto, using(crate::proofs::ClassTokens::tokens_are_debug))]
pub fn tokens_are_debug()
    ensures { TokensAreDebug }
{}

// Promise (printing): Quoting is one-to-one. Quoted texts, quoted characters and words never coincide. The
// bytes of a quoted leaf show where it ends, and contain no line feed. Also:
// `laws::quoted_leaves_are_read_exactly`.
/// Quoting is one-to-one on texts and on characters, whatever follows. A quoted text is no quoted
/// character, and neither is a word or `()`. A quoted leaf ends where its second quote is, and has no
/// line feed.
pub fn quoted_one_way()
    ensures text { QuotedTextDetermines }
    ensures character { QuotedCharDetermines }
    ensures apart { QuotedTextIsNoChar }
    ensures ends { QuotedEndsItself }
    ensures no_other_leaf { QuotedIsNoOtherLeaf }
    ensures one_line { QuotedIsOneLine }
{}

/// Exactly the quoted leaves are read at the front of a text, each by its only spelling.
pub fn quoted_leaves_are_read_exactly()
    ensures only { ReadsOnlyQuoted }
    ensures each { ReadsEachQuoted }
{}

/// A document without quoted leaves is a token document exactly if its leaves are words or `()`, its
/// names are words, and blocks with entries are nested at most 255 deep.
pub fn unquoted_as_before()
    ensures { UnquotedAsBefore }
{}
