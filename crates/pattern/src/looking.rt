// Which patterns look only forward.
ghost use Rattle.std.specs.Prelude.{◌≡◌, false, MatchOption};
ghost use Rattle.pattern.specs.Rows.{seat, seats, is_along, ahead, all_along};

use crate::base::Pattern;
use crate::forward::Forward;
use crate::row::Row;
use record::Axis;

fn goes_along(axis: Axis) -> bool
    ensures { result ≡ is_along axis }
{
    matches!(axis, Axis::Along(_))
}

// Whether the row is not in use, or goes along a step.
fn is_ahead(row: Option<Row>) -> bool
    ensures { result ≡ ahead (seat row) }
{
    row.is_none_or(|row| goes_along(row.axis))
}

// One chain: with the test as a parameter it would be the library's `all` by another name.
fn all_go_along(rows: &[Option<Row>; 16]) -> bool
    ensures { result ≡ all_along (seats rows.now) }
{
    rows.iter().skip(1).all(|row| is_ahead(*row))
}

impl Forward {
    // None exactly if some row in use goes by another axis than along a step.
    pub fn new(pattern: Pattern) -> Option<Forward>
        ensures { MatchOption result (all_along (seats pattern.rows) ≡ false) (λ f. f.pattern ≡ pattern) }
    {
        // No `then_some`, as in `from_rows`.
        if all_go_along(&pattern.rows) {
            Some(Forward { pattern })
        } else {
            None
        }
    }

    // The pattern, as any other.
    pub fn pattern(self) -> Pattern
        ensures { result ≡ self.pattern }
    {
        self.pattern
    }
}
