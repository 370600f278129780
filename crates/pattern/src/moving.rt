// A pattern with a row moved by the table, or by another axis.
ghost use Rattle.std.specs.Prelude.{◌≡◌, true, false, MatchResult};
ghost use Rattle.record.specs.declared.rules.Move.TheVariants.{Up, Join, Between};
ghost use Rattle.pattern.specs.Changes.{MoveOf};
ghost use Rattle.pattern.specs.Rows.{seats, row, inner, deep, rehung, MovedTo};

use crate::arrays::{merge_into, redirect};
use crate::base::Pattern;
use crate::inner::{Deep, Inner, NoSuchRow};
use crate::row::Row;
use record::{Axis, Move, Step};

// Each function here writes its pattern whole, since a struct with ghost fields takes no `..`, and says what becomes of the output, which a join moves.
impl Inner {
    // The row goes by another axis.
    fn by_axis(self, axis: Axis) -> Pattern
        ensures { (seats result.rows ≡ rehung (seats self.pattern.rows) self.z (row (seats self.pattern.rows) self.z).up axis) × (result.output ≡ self.pattern.output) }
    {
        let mut rows = self.pattern.rows;
        rows[self.z as usize] = Some(Row { axis, ..self.row });
        Pattern {
            rows,
            output: self.pattern.output,
        }
    }
}

impl Deep {
    // The row goes up, under the up-row of its up-row.
    fn raised(self) -> Pattern
        ensures { MovedTo (seats self.inner.pattern.rows) self.inner.z Up (seats result.rows) × (result.output ≡ self.inner.pattern.output) }
    {
        let inner = self.inner;
        let mut rows = inner.pattern.rows;
        rows[inner.z as usize] = Some(Row {
            up: inner.upper.up,
            ..inner.row
        });
        Pattern {
            rows,
            output: inner.pattern.output,
        }
    }

    // The row goes between its up-row and the up-row of that.
    fn put_between(self, first: Step, then: Step) -> Pattern
        ensures { MovedTo (seats self.inner.pattern.rows) self.inner.z (Between first then) (seats result.rows) × (result.output ≡ self.inner.pattern.output) }
    {
        let inner = self.inner;
        let mut rows = inner.pattern.rows;
        rows[inner.z as usize] = Some(Row {
            up: inner.upper.up,
            axis: Axis::Along(first),
            ..inner.row
        });
        rows[inner.row.up as usize] = Some(Row {
            up: inner.z,
            axis: Axis::Along(then),
            ..inner.upper
        });
        Pattern {
            rows,
            output: inner.pattern.output,
        }
    }

    // The row goes into the up-row of its up-row, under which that one then hangs by the step. Written out beside `merged`, since a row is changed first and
    // the target is another, so that they share the two calls and no fact.
    fn joined_up(self, step: Step) -> Option<Pattern>
        ensures { MoveOf self.inner.pattern self.inner.z (Join step) result }
    {
        let inner = self.inner;
        let test = self.over.test.join(inner.row.test)?;
        let mut rows = inner.pattern.rows;
        rows[inner.row.up as usize] = Some(Row {
            axis: Axis::Along(step),
            ..inner.upper
        });
        let rows = merge_into(rows, inner.z, inner.upper.up, test);
        let output = redirect(inner.pattern.output, inner.z, inner.upper.up);
        Some(Pattern { rows, output })
    }
}

impl Pattern {
    // Moves row z as one move of the table says. None exactly if the move is a join and no place passes both tests.
    pub fn moved(self, z: u8, by: Move) -> Result<Option<Pattern>, NoSuchRow>
        ensures { MatchResult result (λ o. (deep (seats self.rows) z ≡ true) × MoveOf self z by o) (λ _. deep (seats self.rows) z ≡ false) }
    {
        let row = self.deep(z)?;
        match by {
            Move::Up => Ok(Some(row.raised())),
            Move::Join(step) => Ok(row.joined_up(step)),
            Move::Between(first, then) => Ok(Some(row.put_between(first, then))),
        }
    }

    // Row z by another axis.
    pub fn with_axis(self, z: u8, axis: Axis) -> Result<Pattern, NoSuchRow>
        ensures { MatchResult result (λ p. (inner (seats self.rows) z ≡ true) × (seats p.rows ≡ rehung (seats self.rows) z (row (seats self.rows) z).up axis) × (p.output ≡ self.output)) (λ _. inner (seats self.rows) z ≡ false) }
    {
        Ok(self.inner(z)?.by_axis(axis))
    }
}
