// How many rows a pattern has.
ghost use Rattle.std.specs.Prelude.{◌≡◌, ◌≤◌, ◌&&◌, ◌==◌};
ghost use Rattle.pattern.specs.Rows.{seat, seats};
ghost use Rattle.pattern.specs.Sizes.{how_many, in_use, at_top, path_rows};

use crate::base::Pattern;
use crate::row::Row;

// The rows in use. One chain, as the next one: with the test as a parameter it would be the library's `filter` and `count` by another name.
fn count_used(rows: &[Option<Row>; 16]) -> usize
    ensures value { result ≡ in_use (seats rows.now) }
    ensures bound { result ≤ 15 }
{
    rows.iter().skip(1).filter(|row| row.is_some()).count()
}

// Whether the row is in use and right under row 0.
fn is_top(row: Option<Row>) -> bool
    ensures { result ≡ ((seat row).used && (seat row).up == 0) }
{
    row.is_some_and(|row| row.up == 0)
}

// Those right under row 0.
fn count_top(rows: &[Option<Row>; 16]) -> usize
    ensures { result ≡ at_top (seats rows.now) }
{
    rows.iter().skip(1).filter(|row| is_top(**row)).count()
}

impl Pattern {
    // The rows of a path that is written for the pattern: one for each row in use, and one more if row 0 has a row under it that is
    // not on the way to the output.
    pub fn path_rows(self) -> u8
        ensures value { result ≡ path_rows (seats self.rows) self.output }
        ensures bound { result ≤ 16 }
    {
        let on_the_way = usize::from(self.output != 0);
        let forks = usize::from(count_top(&self.rows) > on_the_way);
        (count_used(&self.rows) + forks) as u8
    }
}
