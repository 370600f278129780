// Which rows of a pattern ask for the root.
ghost use Rattle.std.specs.Prelude.{◌≡◌};
ghost use Rattle.ways.specs.Ways.{all_rows};
ghost use Rattle.pattern.specs.Rows.{seat, seats, row, fifteen};
ghost use Rattle.pattern.specs.Roots.{is_root, named, root_alone};

use crate::base::Pattern;
use crate::row::{Row, Test};

fn is_root(test: Test) -> bool
    ensures { result ≡ is_root test }
{
    matches!(test, Test::Root)
}

fn asks_for_root(row: Option<Row>) -> bool
    ensures { result ≡ is_root (seat row).test }
{
    row.is_some_and(|row| is_root(row.test))
}

// Whether the row is not in use, or does not ask for the root.
fn is_named(row: Option<Row>) -> bool
    ensures { result ≡ named (seat row) }
{
    !asks_for_root(row)
}

// One chain: with the test as a parameter it would be the library's `all` by another name.
fn all_named(rows: &[Option<Row>; 16]) -> bool
    ensures { result ≡ all_rows fifteen (λ i. named (row (seats rows.now) i)) }
{
    rows.iter().skip(1).all(|row| is_named(*row))
}

impl Pattern {
    // Whether row 0 asks for the root, and no other row in use does.
    pub fn is_root_alone(self) -> bool
        ensures { result ≡ root_alone (seats self.rows) }
    {
        asks_for_root(self.rows[0]) && all_named(&self.rows)
    }
}
