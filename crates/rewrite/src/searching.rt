// The lowest-numbered row that asks for something.
ghost use Rattle.std.specs.Prelude.{◌≡◌, ◌<◌};
ghost use Rattle.pattern.specs.Rows.{seats, row};
ghost use Rattle.rewrite.specs.Turns.{FirstWant, turn_of, Told};

use crate::turns::Turn;
use crate::wants::{expansion_by, shift_by, stray_by};
use pattern::{Pattern, Row, row_at};
use record::{Axis, Step};

// The axis of a row; of one that is not in use, child, as the definition reads it.
fn axis_of(rows: &[Option<Row>; 16], r: u8) -> Axis
    ensures { result ≡ (row (seats rows.now) r).axis }
{
    row_at(rows, r).map_or(Axis::Along(Step::Child), |row| row.axis)
}

// The first answer that a row in use gives, from the lowest number on. The search goes by numbers, since a row's number is part of its answer,
// which `enumerate` has only as `usize`.
fn first_want<F: Fn(u8, Row) -> Option<Turn>>(rows: &[Option<Row>; 16], want: F) -> Option<Turn>
    requires { F.IsAlwaysCallable want }
    ensures { FirstWant rows.now (F.post want) result }
{
    (1..16).find_map(|i| want(i, rows[usize::from(i)]?))
}

// What is done next with a pattern: the lowest-numbered row is expanded; if there is none, the pattern is dropped where a row right under
// row 0 goes by another axis than child or descendant; if it is not, the lowest-numbered row is moved by the table that goes
// against a step from an up-row which goes along one; if there is none, the pattern is kept. A pattern that is kept looks only
// forward, and one that is dropped has no way in any record.
pub fn next_turn(pattern: Pattern) -> Turn
    ensures value { result ≡ turn_of (seats pattern.rows) }
    ensures told { Told pattern result }
{
    let rows = pattern.rows();
    first_want(&rows, |i, row| expansion_by(i, row.axis))
        .or_else(|| first_want(&rows, |_, row| stray_by(row.up, row.axis)))
        .or_else(|| first_want(
            &rows,
            |i, row| shift_by(i, row.axis, axis_of(&rows, row.up)),
        ))
        .unwrap_or(Turn::Kept)
}
