// The laws of expansion and of rewriting.
ghost use Rattle.ways.specs.Laws.{ChangeLaws, ExpansionLaws, RewritingLaws};

use tally::Tally;

// In every tally and every record: the patterns that expansion leaves come together to the pattern that was expanded, at every step
// and as a whole; and expansion ends with rows that go along a step or against one.
pub fn expansion_keeps_the_value<T: Tally>()
    ensures { ExpansionLaws T.Tally.ring }
{}

// In every tally and every record: the patterns that rewriting leaves come together to the pattern that was rewritten, at every move
// and as a whole; and rewriting ends with no row that goes against a step.
pub fn rewriting_keeps_the_value<T: Tally>()
    ensures { RewritingLaws T.Tally.ring }
{}

// In every tally, every record, and whatever the gains of the rows: the moves of one entry of the table come together to the pattern; so
// do a row by an or-self axis with its plain axis and merged; and so does a row by following or preceding that is reached over two new
// rows.
pub fn changes_keep_the_value<T: Tally>()
    ensures { ChangeLaws T.Tally.ring }
{}
