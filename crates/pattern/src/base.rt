// A pattern: sixteen rows by value, of which any but row 0 may be missing, and the row that is its output.
ghost use Rattle.std.specs.Prelude.{◌≡◌, true};
ghost use Rattle.pattern.specs.Rows.{seats, has_root, rooted, live};

use crate::row::Row;

// From every row in use the up-rows lead to row 0, and the output is in use. The rows name one another by number and stand in an array, and
// not in boxes: a pattern is copied for every alternative, and takes no memory.
#[derive(Clone, Copy, Debug, PartialEq, Eq)]
pub struct Pattern {
    pub(crate) rows: [Option<Row>; 16],
    pub(crate) output: u8,
    ghost root: { has_root (seats rows) ≡ true },
    ghost ok: { rooted (seats rows) ≡ true },
    ghost shown: { live (seats rows) output ≡ true },
}
