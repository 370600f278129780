// What a tally is: plus and times, associative and commutative with neutral zero and one; times spreads over plus, and zero times
// anything is zero. The laws are part of the ghost member `ring`.
ghost use Rattle.std.specs.Prelude.{◌≡◌, ℕ};
ghost use Rattle.tally.specs.Semirings.{Semiring};

pub trait Tally: Copy {
    // The semiring, with its laws.
    ghost ring: { Semiring Self };

    // The number that stands for a tally in a 32-bit slot.
    ghost slot: { Self → ℕ };

    fn zero() -> Self
        ensures { result ≡ ring.nought };

    fn one() -> Self
        ensures { result ≡ ring.one };

    fn plus(self, other: Self) -> Self
        ensures { result ≡ ring.plus self other };

    fn times(self, other: Self) -> Self
        ensures { result ≡ ring.times self other };

    // Not a `From`, as `from_slot` is not: which numbers stand for tallies is a law of this trait.
    fn to_slot(self) -> u32
        ensures { result ≡ slot self };

    // The tally that a slot holds. A number that stands for no tally gives any tally, on purpose: no slot holds one.
    fn from_slot(number: u32) -> Self
        ensures { (x : Self) → slot x ≡ number → result ≡ x };
}
