//! The calls of a device, which only proofs read.
ghost use Rattle.std.specs.Prelude.{◌≡◌, List, [], ◌∷◌, ◌++◌};
ghost use Rattle.std.specs.Borrow.{ftrue};
ghost use Rattle.ufmt_io.specs.declared.call.Call.{Call};

use crate::call::Call;
use std::marker::Model;

/// The calls of a device so far, the first of them first. It takes no memory, and its functions do nothing.
#[derive(Drop)]
pub(crate) struct History {
    pub(crate) ghost calls: { List Call },
}

impl Model for History {
    ghost also_owns = { λ _. ftrue };
}

impl History {
    // The calls that the caller's proof picks. The proof of this call is by hand: the check makes none
    // where ghost data gets its value.
    fn of_calls() -> History
        ghost calls: { List Call }
        ensures { result.calls ≡ calls }
    {
        History {}
    }

    // No calls.
    pub(crate) fn new() -> History
        ensures { result.calls ≡ [] }
    {
        History::of_calls()
    }

    // These calls, and then one more.
    pub(crate) fn and(&self, call: &Call) -> History
        ensures { result.calls ≡ self.now.calls ++ call.now ∷ [] }
    {
        History::after(self, call)
    }

    fn after(&self, call: &Call) -> History
        ghost whole: { List Call }
        requires { whole ≡ self.now.calls ++ call.now ∷ [] }
        ensures { result.calls ≡ whole }
    {
        let _ = call;
        History::of_calls()
    }
}
