// What holds of the rules. The contract of each function is the law that its name says; it does nothing.
ghost use Rattle.all_ends.specs.Example.{EndExamples};
ghost use Rattle.all_ends.specs.Laws.{EndsFollowTheRules, AlternativesKeepTheValue};

use tally::Tally;

// The ends of every pattern are those of the alternatives that its turn puts in its place, one after another.
pub fn ends_follow_the_rules()
    ensures { EndsFollowTheRules }
{}

// In every tally, every record, and with the output at every place: the kept ends of patterns come together to the patterns.
pub fn alternatives_keep_the_value<T: Tally>()
    ensures { AlternativesKeepTheValue T.Tally.ring }
{}

// The ends of three questions.
pub fn ends_in_the_examples()
    ensures { EndExamples }
{}
