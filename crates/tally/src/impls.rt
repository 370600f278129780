// The two tallies as semirings.
ghost use Rattle.std.specs.Prelude.{◌≡◌, if◌then◌else◌};
ghost use Rattle.tally.specs.Tallies.{yes_no, yes_no_ring, counted, count_ring};

use crate::counts::{Count, YesNo};
use crate::tallies::Tally;

impl Tally for YesNo {
    ghost ring = { yes_no_ring };

    ghost slot = { λ x. (if x.yes then 1 else 0) };

    fn zero() -> YesNo {
        YesNo { yes: false }
    }

    fn one() -> YesNo {
        YesNo { yes: true }
    }

    fn plus(self, other: YesNo) -> YesNo {
        YesNo {
            yes: self.yes || other.yes,
        }
    }

    fn times(self, other: YesNo) -> YesNo {
        YesNo {
            yes: self.yes && other.yes,
        }
    }

    fn to_slot(self) -> u32 {
        u32::from(self.yes)
    }

    fn from_slot(number: u32) -> YesNo {
        YesNo { yes: number == 1 }
    }
}

// The count that stands for a number of ways.
fn capped(number: u32) -> Count
    ensures { result ≡ counted number }
{
    Count {
        value: number.min(u32::from(u16::MAX)),
    }
}

impl Tally for Count {
    ghost ring = { count_ring };

    ghost slot = { λ x. x.value };

    fn zero() -> Count {
        capped(0)
    }

    fn one() -> Count {
        capped(1)
    }

    fn plus(self, other: Count) -> Count {
        capped(self.value + other.value)
    }

    fn times(self, other: Count) -> Count {
        capped(self.value * other.value)
    }

    fn to_slot(self) -> u32 {
        self.number()
    }

    fn from_slot(number: u32) -> Count {
        capped(number)
    }
}

impl YesNo {
    // Whether there is a way.
    pub fn is_yes(self) -> bool
        ensures { result ≡ self.yes }
    {
        self.yes
    }
}

impl Count {
    // The count, at most 65,535.
    pub fn number(self) -> u32
        ensures { result ≡ self.value }
    {
        self.value
    }
}
