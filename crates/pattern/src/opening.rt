// A pattern in which a row is reached over two new rows.
ghost use Rattle.std.specs.Prelude.{◌≡◌, ◌+◌, true, false, MatchResult};
ghost use Rattle.pattern.specs.Rows.{seats, free_two, room, spread};

use crate::base::Pattern;
use crate::inner::{Inner, NoSuchRow};
use crate::row::{Row, Test};
use record::{Axis, Reach};

impl Inner {
    // The row is reached over the free rows n and n + 1. Written whole, as the patterns of `moving.rt` are, and the output is said here.
    fn spread_over(self, n: u8, aside: Axis) -> Pattern
        requires { free_two (seats self.pattern.rows) n ≡ true }
        ensures { (seats result.rows ≡ spread (seats self.pattern.rows) self.z n (n + 1) aside) × (result.output ≡ self.pattern.output) }
    {
        let mut rows = self.pattern.rows;
        rows[n as usize] = Some(Row {
            up: self.row.up,
            axis: Axis::Wide(Reach::AncestorOrSelf),
            test: Test::Star,
        });
        rows[n as usize + 1] = Some(Row {
            up: n,
            axis: aside,
            test: Test::Star,
        });
        rows[self.z as usize] = Some(Row {
            up: n + 1,
            axis: Axis::Wide(Reach::DescendantOrSelf),
            ..self.row
        });
        Pattern {
            rows,
            output: self.pattern.output,
        }
    }
}

impl Pattern {
    // Reaches row z over two new rows, n at or around the place of its up-row, n + 1 aside from that, z at or below it. Both are at
    // places other than the root.
    pub fn opened(self, z: u8, n: u8, aside: Axis) -> Result<Pattern, NoSuchRow>
        ensures { MatchResult result (λ p. (room (seats self.rows) z n ≡ true) × (seats p.rows ≡ spread (seats self.rows) z n (n + 1) aside) × (p.output ≡ self.output)) (λ _. room (seats self.rows) z n ≡ false) }
    {
        let row = self.inner(z)?;
        if !self.are_free(n) {
            return Err(NoSuchRow);
        }
        Ok(row.spread_over(n, aside))
    }
}
