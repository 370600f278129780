// The laws of sums in every tally, and of the two tallies against the natural numbers.
ghost use Rattle.tally.specs.Laws.{SumLaws, YesFollowsTheNumber, CountFollowsTheNumber};

use crate::tallies::Tally;

// Two sums may be exchanged, and a sum that is held at one place is its term there.
pub fn sums_obey_their_laws<T: Tally>()
    ensures { SumLaws T.Tally.ring }
{}

// Sums and products of numbers of ways are carried to yes or no.
pub fn yes_follows_the_number()
    ensures { YesFollowsTheNumber }
{}

// Sums and products of numbers of ways are carried to the count that stops.
pub fn count_follows_the_number()
    ensures { CountFollowsTheNumber }
{}
