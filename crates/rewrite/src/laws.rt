// That the changes of a pattern keep every way. The contract is the law that the function's name says; it does nothing.
ghost use Rattle.rewrite.specs.Laws.{ChangeLaws};

use tally::Tally;

// In every tally, every record, and with the output at every place: what `Pattern::moved` answers for the moves of one entry of the
// table comes together to the pattern; so do a row by an or-self axis with its plain axis and merged; and so does a row by following
// or preceding that is reached over two new rows.
pub fn changes_keep_every_way<T: Tally>()
    ensures { ChangeLaws T.Tally.ring }
{}
