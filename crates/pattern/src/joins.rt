// Two tests as one.
ghost use Rattle.std.specs.Prelude.{◌≡◌};
ghost use Rattle.pattern.specs.Tests.{joined, JoinTold};

use crate::row::Test;

// The test that holds where both hold, if there is such a place. Apart from `join`, so that what `join` tells is proved once and not arm by arm.
fn narrower(a: Test, b: Test) -> Option<Test>
    ensures { result ≡ joined a b }
{
    match (a, b) {
        (Test::Any, test) | (test, Test::Any) => Some(test),
        (Test::Star, label @ Test::Label(_)) | (label @ Test::Label(_), Test::Star) => Some(label),
        (Test::Star, Test::Star) | (Test::Root, Test::Root) => Some(a),
        (Test::Label(n), Test::Label(m)) if n == m => Some(a),
        _ => None,
    }
}

impl Test {
    // The narrower of two tests: it holds exactly where both hold. None exactly if both hold nowhere, whatever the labels.
    pub fn join(self, other: Test) -> Option<Test>
        ensures value { result ≡ joined self other }
        ensures told { JoinTold self other result }
    {
        narrower(self, other)
    }
}
