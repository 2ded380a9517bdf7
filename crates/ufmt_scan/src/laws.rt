//! A law of conversions, as the contract of a function.
ghost use Rattle.std.specs.Prelude.{◌≡◌, List, ℕ};
ghost use Rattle.ufmt_core.specs.Document.{Document};
ghost use Rattle.ufmt_grammar.specs.declared.class.Class.{Class};
ghost use Rattle.ufmt_scan.specs.Texts.{IsConverted, NoDocumentPrints};

// Promise (reading): A text that one conversion returned is turned back by the other.
/// A text that was converted is converted back to the text that it was, and is never refused.
#[tactic(auto, using(crate::proofs::Conversions::comes_back, crate::proofs::Conversions::never_refused))]
pub fn conversions_undo_each_other()
    ensures back { (class : Class) (from to : Document → List ℕ) (earlier input outcome : List ℕ)
        → IsConverted class to from earlier input → IsConverted class from to input outcome
        → outcome ≡ earlier }
    ensures is_text { (class : Class) (from to : Document → List ℕ) (earlier input : List ℕ)
        → IsConverted class to from earlier input → NoDocumentPrints class from input → ⊥ }
{}
