// The two tallies: whether there is a way, and how many ways there are.
ghost use Rattle.std.specs.Prelude.{◌≤◌};
ghost use Rattle.tally.specs.Limits.{max_count};

// Whether there is a way.
#[derive(Clone, Copy, Debug, PartialEq, Eq)]
pub struct YesNo {
    pub(crate) yes: bool,
}

// How many ways there are: a count that stops at 65,535. Its bound is a ghost field, since a definition takes a `u16` for any number, and
// the laws of the count need the bound.
#[derive(Clone, Copy, Debug, PartialEq, Eq)]
pub struct Count {
    pub(crate) value: u32,
    ghost within: { value ≤ max_count },
}
