//! Steps that are counted only for the proof. The ledger of a count is chosen by a function whose signature has no
//! const parameter, so the steps are made through a trait.
ghost use Rattle.std.specs.Prelude.{◌≡◌, ◌<◌};

use std::sync::ledger::{Blank, Ledger};
use word_arena::Steps;

/// A result that takes counted steps.
pub(crate) trait CountedSteps {
    type Output;

    ghost gives: { Self → Self.Output → Type 0 };

    fn run_counted<C: Ledger>(self, steps: &mut Steps<C>) -> Self::Output
        ensures { gives self result };
}

/// Returns the result, with a count that begins at 0.
pub(crate) fn run_with_count<T: CountedSteps, C: Ledger>(it: T, blank: Blank) -> T::Output
    requires name { blank.name ≡ C.name }
    requires parts { blank.parts ≡ C.parts }
    requires some { 0 < C.parts }
    ensures { T.gives it result }
{
    let mut steps = Steps::<C>::new(blank);
    it.run_counted(&mut steps)
}
