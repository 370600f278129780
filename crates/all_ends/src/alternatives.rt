// What a turn puts in the place of a pattern: one alternative each; none where there is none.
ghost use Rattle.std.specs.Prelude.{◌≡◌, ◌≤◌};
ghost use Rattle.std.specs.Option.{option_map};
ghost use Rattle.pattern.specs.Rows.{seats};
ghost use Rattle.all_ends.specs.Ends.{shape_of, merge_at, axis_at, next_number, open_at, move_at};

use pattern::{Pattern, Row};
use record::{Axis, Move};

// The next number after all in use.
pub(crate) fn next_number(rows: &[Option<Row>; 16]) -> u8
    ensures value { result ≡ next_number (seats rows.now) }
    ensures bound { result ≤ 16 }
{
    match rows.iter().rposition(|row| row.is_some()) {
        Some(highest) => highest as u8 + 1,
        None => 1,
    }
}

// Row z goes into its up-row.
pub(crate) fn merge_at(pattern: Pattern, z: u8) -> Option<Pattern>
    ensures { option_map shape_of result ≡ merge_at (shape_of pattern) z }
{
    pattern.merge(z).ok().flatten()
}

// Row z goes by the axis.
pub(crate) fn axis_at(pattern: Pattern, z: u8, axis: Axis) -> Option<Pattern>
    ensures { option_map shape_of result ≡ axis_at (shape_of pattern) z axis }
{
    pattern.with_axis(z, axis).ok()
}

// Row z is reached over two new rows.
pub(crate) fn open_at(pattern: Pattern, z: u8, aside: Axis) -> Option<Pattern>
    ensures { option_map shape_of result ≡ open_at (shape_of pattern) z aside }
{
    pattern.opened(z, next_number(&pattern.rows()), aside).ok()
}

// Row z is moved by the table.
pub(crate) fn move_at(pattern: Pattern, z: u8, by: Move) -> Option<Pattern>
    ensures { option_map shape_of result ≡ move_at (shape_of pattern) z by }
{
    pattern.moved(z, by).ok().flatten()
}
