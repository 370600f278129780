// A pattern with a row merged into its up-row.
ghost use Rattle.std.specs.Prelude.{◌≡◌, ℕ, true, false, List, IfOk, MatchResult};
ghost use Rattle.record.specs.Records.{Record};
ghost use Rattle.record.specs.declared.axis.Axis.TheVariants.{Itself};
ghost use Rattle.record.specs.declared.place.Place.{Place};
ghost use Rattle.pattern.specs.Questions.{ways, ways_of_rest};
ghost use Rattle.pattern.specs.Changes.{MergeOf};
ghost use Rattle.pattern.specs.Rows.{seats, row, inner};

use crate::arrays::{merge_into, redirect};
use crate::base::Pattern;
use crate::inner::{Inner, NoSuchRow};

impl Inner {
    // The row goes into its up-row, if some place passes both tests; the output goes with it.
    fn merged(self) -> Option<Pattern>
        ensures { MergeOf self.pattern self.z result }
    {
        let test = self.upper.test.join(self.row.test)?;
        let rows = merge_into(self.pattern.rows, self.z, self.row.up, test);
        let output = redirect(self.pattern.output, self.z, self.row.up);
        Some(Pattern { rows, output })
    }
}

impl Pattern {
    // Merges row z into its up-row, which then has both tests and what hung under z, and is the output if z was. None exactly if
    // no place passes both tests. Where z goes by self, that keeps the ways at every place of every record.
    pub fn merge(self, z: u8) -> Result<Option<Pattern>, NoSuchRow>
        ensures cases { MatchResult result (λ o. (inner (seats self.rows) z ≡ true) × MergeOf self z o) (λ _. inner (seats self.rows) z ≡ false) }
        ensures kept { IfOk result (λ o. (places : List Place) → Record places → (row (seats self.rows) z).axis ≡ Itself → (p : ℕ) → ways places self p ≡ ways_of_rest places o p) }
    {
        Ok(self.inner(z)?.merged())
    }
}
