//! The class of a document as a type. A function that is generic over it has a copy for each class, in which the
//! class is a constant. `mode` has the same for modes.
ghost use Rattle.std.specs.Prelude.{◌≡◌};
ghost use Rattle.ufmt_grammar.specs.declared.class.Class.{Class};
ghost use Rattle.ufmt_grammar.specs.declared.class.Class.TheVariants.{Debug, Token};

use ufmt_grammar::class::Class;

/// The class of a document.
pub(crate) trait ClassType {
    ghost class: { Class };

    fn class() -> Class
        ensures { result ≡ class };
}

#[derive(Clone, Copy)]
pub(crate) struct TokenClass;

#[derive(Clone, Copy)]
pub(crate) struct DebugClass;

impl ClassType for TokenClass {
    ghost class = { Token };

    #[inline(always)]
    fn class() -> Class {
        Class::Token
    }
}

impl ClassType for DebugClass {
    ghost class = { Debug };

    #[inline(always)]
    fn class() -> Class {
        Class::Debug
    }
}
