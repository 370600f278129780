// The ends that rewriting has reached.
ghost use Rattle.std.specs.Prelude.{◌≡◌, ◌≤◌, []};

use pattern::Forward;
use std::alloc::Global;

// How many there are, dropped ones too, and those that are kept, in the order in which they were reached.
#[derive(Drop)]
pub struct Ends {
    pub(crate) number: usize,
    pub(crate) kept: Vec<Forward>,
    ghost few: { number ≤ 64 },
}

impl Ends {
    // No end yet.
    pub(crate) fn none(heap: Global) -> Ends
        ensures number { result.number ≡ 0 }
        ensures kept { result.kept.items ≡ [] }
    {
        Ends {
            number: 0,
            kept: Vec::new(heap),
        }
    }

    // How many ends there are, dropped ones too.
    pub fn number(&self) -> usize
        ensures { result ≡ self.now.number }
    {
        self.number
    }

    // The kept ends, in the order in which they were reached.
    pub fn kept(&self) -> &[Forward]
        ensures { result.now ≡ self.now.kept.items }
    {
        self.kept.as_slice()
    }
}
