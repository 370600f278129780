// A row of an array that goes into another.
ghost use Rattle.std.specs.Prelude.{◌≡◌, ℕ, ◌<◌, ◌≤◌, ◌≢◌, true, map, if◌then◌else◌, nat_eq};
ghost use Rattle.pattern.specs.Rows.{seats, row, redirected, merged_row};

use crate::row::{Row, Test};

// Row w where z was meant.
pub(crate) fn redirect(row: u8, z: u8, w: u8) -> u8
    ensures { result ≡ (if nat_eq row z then w else row) }
{
    if row == z { w } else { row }
}

// The rows, those under z now under w.
fn rehang(rows: [Option<Row>; 16], z: u8, w: u8) -> [Option<Row>; 16]
    requires { 1 ≤ z }
    ensures { seats result ≡ map (redirected z w) (seats rows) }
{
    let mut out = rows;
    for row in &mut out {
        *row = row.map(|row| Row {
            up: redirect(row.up, z, w),
            ..row
        });
    }
    out
}

// Row z goes into row w, which is in use and has the test then. Merging goes into the up-row and joining into the row over that, so that both are numbers
// here and no struct of the two.
pub(crate) fn merge_into(rows: [Option<Row>; 16], z: u8, w: u8, test: Test) -> [Option<Row>; 16]
    requires low { 1 ≤ z }
    requires high { z < 16 }
    requires within { w < 16 }
    requires two { w ≢ z }
    requires live { (row (seats rows) w).used ≡ true }
    ensures { (i : ℕ) → row (seats result) i ≡ merged_row (seats rows) z w test i }
{
    let mut out = rehang(rows, z, w);
    out[w as usize] = out[w as usize].map(|row| Row { test, ..row });
    out[z as usize] = None;
    out
}
