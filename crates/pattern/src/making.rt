// Making patterns of rows, and looking into them.
ghost use Rattle.std.specs.Prelude.{◌≡◌, true, false, ◌&&◌, None, MatchOption, slice_index_or};
ghost use Rattle.pattern.specs.Rows.{seats, row, has_root, climbs, well_hung, rooted, live, free_two};

use crate::base::Pattern;
use crate::row::Row;

// The row with that number, if it is in use. This and others take the plain array, as `from_rows` does from callers, and speak of its `seats`: a type around
// the array would be one more step to each row.
pub fn row_at(rows: &[Option<Row>; 16], r: u8) -> Option<Row>
    ensures { result ≡ slice_index_or rows.now r None }
{
    rows.get(usize::from(r)).copied().flatten()
}

// Whether the up-rows lead from a row to row 0, all of them in use.
fn leads_to_root(rows: &[Option<Row>; 16], start: u8) -> bool
    ensures { result ≡ climbs (λ i. (row (seats rows.now) i).used) (λ i. (row (seats rows.now) i).up) 16 start }
{
    let mut r = start;
    // The number of steps is bounded, since rows that are not known to be a tree may lead in a circle.
    for _ in 0..16_u8 {
        if r == 0 {
            return true;
        }
        let Some(row) = row_at(rows, r) else {
            return false;
        };
        r = row.up;
    }
    r == 0
}

// Whether the row is not in use, or its up-rows lead to row 0.
fn is_well_hung(rows: &[Option<Row>; 16], r: u8) -> bool
    ensures { result ≡ well_hung (λ i. (row (seats rows.now) i).used) (λ i. (row (seats rows.now) i).up) r }
{
    row_at(rows, r).is_none() || leads_to_root(rows, r)
}

// By numbers, as the definition climbs from a row's number.
fn is_rooted(rows: &[Option<Row>; 16]) -> bool
    ensures { result ≡ rooted (seats rows.now) }
{
    (1..16).all(|r| is_well_hung(rows, r))
}

fn is_live(rows: &[Option<Row>; 16], r: u8) -> bool
    ensures { result ≡ live (seats rows.now) r }
{
    r == 0 || row_at(rows, r).is_some()
}

impl Pattern {
    // Whether the two rows from n on are below row 0 and free. The test of n is a match, and the rows are taken out first, since a chain of three
    // tests, or a row lent out of a pattern, finds no proof.
    pub(crate) fn are_free(self, n: u8) -> bool
        ensures { result ≡ free_two (seats self.rows) n }
    {
        let rows = self.rows;
        match n {
            1..=14 => row_at(&rows, n).is_none() && row_at(&rows, n + 1).is_none(),
            _ => false,
        }
    }

    // The pattern of these rows with that output. None exactly if row 0 is missing, or the up-rows of some row in use do not lead to it, or
    // the output is neither row 0 nor in use.
    pub fn from_rows(rows: [Option<Row>; 16], output: u8) -> Option<Pattern>
        ensures { MatchOption result ((has_root (seats rows) && (rooted (seats rows) && live (seats rows) output)) ≡ false) (λ p. (p.rows ≡ rows) × (p.output ≡ output)) }
    {
        // A pattern can be written down only where its tests are known to have passed: so no `then_some`, and no
        // `then`, since within its closure nothing is known of them.
        if rows[0].is_some() && is_rooted(&rows) && is_live(&rows, output) {
            Some(Pattern { rows, output })
        } else {
            None
        }
    }

    // The rows, by number.
    pub fn rows(self) -> [Option<Row>; 16]
        ensures { result ≡ self.rows }
    {
        self.rows
    }

    // The row whose places the pattern selects.
    pub fn output(self) -> u8
        ensures { result ≡ self.output }
    {
        self.output
    }
}
