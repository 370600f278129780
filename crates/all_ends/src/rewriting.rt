// A question that looks back becomes questions that look forward.
ghost use Rattle.std.specs.Prelude.{IfOk};
ghost use Rattle.all_ends.specs.Rewritten.{Outcome, Faithful};

use crate::base::Ends;
use crate::ending::follow;
use crate::fitting::all_fit;
use pattern::Pattern;
use refusal::{Cause, Refusal};
use std::alloc::Global;

// Follows the patterns of a question to their ends by the rules, one pattern after another. Refused are a pattern that has no room to be
// expanded, more than 64 ends, and want of memory. The kept ends have together exactly the ways of the patterns, at every place of every record.
pub fn rewrite(heap: Global, sources: &[Pattern]) -> Result<Ends, Refusal>
    ensures exact { Outcome sources.now result }
    ensures faithful { IfOk result (λ ends. Faithful sources.now ends.kept.items) }
{
    if !all_fit(sources) {
        return Err(Cause::TooManyRows.into());
    }
    let mut ends = Ends::none(heap);
    for source in sources {
        follow(*source, &mut ends)?;
    }
    Ok(ends)
}
