// Whether a pattern has room to be expanded.
ghost use Rattle.std.specs.Prelude.{◌≡◌, ◌≤◌};
ghost use Rattle.pattern.specs.Rows.{seat, seats};
ghost use Rattle.pattern.specs.Sizes.{how_many};
ghost use Rattle.all_ends.specs.Ends.{shape_of, widens, to_open, fits};
ghost use Rattle.all_ends.specs.Rewritten.{all_fit};

use crate::alternatives::next_number;
use pattern::{Pattern, Row};
use record::{Axis, Reach};

// Whether expansion puts in two new rows for the axis.
fn widens(axis: Axis) -> bool
    ensures { result ≡ widens axis }
{
    matches!(axis, Axis::Wide(Reach::Following | Reach::Preceding))
}

fn is_to_open(row: Option<Row>) -> bool
    ensures { result ≡ to_open (seat row) }
{
    row.is_some_and(|row| widens(row.axis))
}

// How many rows go by following or preceding. One chain, as those that count a pattern's rows.
fn openings(rows: &[Option<Row>; 16]) -> usize
    ensures value { result ≡ how_many to_open (seats rows.now) }
    ensures bound { result ≤ 15 }
{
    rows.iter().skip(1).filter(|row| is_to_open(**row)).count()
}

// Whether the new rows still have numbers, and a path for the expanded pattern has at most 15 rows. That there are sixteen rows is part of
// what is promised, and needs no test.
fn is_fit(pattern: Pattern) -> bool
    ensures { result ≡ fits (shape_of pattern) }
{
    let rows = pattern.rows();
    let more = 2 * openings(&rows);
    usize::from(next_number(&rows)) + more <= 16 && usize::from(pattern.path_rows()) + more <= 15
}

pub(crate) fn all_fit(patterns: &[Pattern]) -> bool
    ensures { result ≡ all_fit patterns.now }
{
    patterns.iter().all(|pattern| is_fit(*pattern))
}
