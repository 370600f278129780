// What the rest rests on. Each function's contract is the law that its name says; it does nothing.
ghost use Rattle.pattern.specs.Example.{WayExamples};
ghost use Rattle.pattern.specs.Laws.{ValueLaws, MorePlacesLoseNoWay, YesIsAWay, CountIsTheWays};

use tally::Tally;

// In every tally: merging a row that stands where its up-row does keeps the value, any row may be summed over last, and the value
// over the places of a record is the same in every record that begins with it.
pub fn values_obey_their_laws<T: Tally>()
    ensures { ValueLaws T.Tally.ring }
{}

// A record that goes on has no fewer ways.
pub fn more_places_lose_no_way()
    ensures { MorePlacesLoseNoWay }
{}

// The yes-or-no value says whether there is a way.
pub fn yes_is_a_way()
    ensures { YesIsAWay }
{}

// The count is the number of ways, or where it stops.
pub fn count_is_the_ways()
    ensures { CountIsTheWays }
{}

// Ways in a record of eleven places.
pub fn ways_in_the_example()
    ensures { WayExamples }
{}
