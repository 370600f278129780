// A row of a pattern, looked up by its number.
ghost use Rattle.std.specs.Prelude.{◌≡◌, ◌≤◌, true, false, Some, None, MatchResult, codes, slice_index_or};
ghost use Rattle.pattern.specs.Rows.{seats, inner, deep};

use crate::base::Pattern;
use crate::making::row_at;
use crate::row::Row;
use std::error::Error;
use std::fmt;

// The pattern has no rows as the change needs them: the row that is named is not in use below row 0, or hangs right under row 0 where it may not,
// or the two rows to come are not free. One error for all, since a caller asks only whether the numbers fit the pattern.
#[derive(Clone, Copy, Debug, PartialEq, Eq)]
pub struct NoSuchRow;

impl fmt::Display for NoSuchRow {
    ghost output = { λ _. Some (codes "the pattern has no rows as the change needs them") };

    fn fmt<W: fmt::Write>(&self, f: &mut fmt::Formatter<W>) -> fmt::Result {
        f.write_str("the pattern has no rows as the change needs them")
    }
}

impl Error for NoSuchRow {}

// Row z, in use and not row 0, and its up-row.
#[derive(Clone, Copy)]
pub(crate) struct Inner {
    pub(crate) pattern: Pattern,
    pub(crate) z: u8,
    pub(crate) row: Row,
    pub(crate) upper: Row,
    ghost low: { 1 ≤ z },
    ghost here: { slice_index_or pattern.rows z None ≡ Some row },
    ghost above: { slice_index_or pattern.rows row.up None ≡ Some upper },
}

// A row that does not hang right under row 0, and the row over its up-row.
#[derive(Clone, Copy)]
pub(crate) struct Deep {
    pub(crate) inner: Inner,
    pub(crate) over: Row,
    ghost below: { 1 ≤ inner.row.up },
    ghost top: { slice_index_or inner.pattern.rows inner.upper.up None ≡ Some over },
}

impl Pattern {
    // Each public contract says when there is no such row, in the row's own words, and not by these two, which callers do not see.
    pub(crate) fn inner(self, z: u8) -> Result<Inner, NoSuchRow>
        ensures { MatchResult result (λ i. (i.pattern ≡ self) × (i.z ≡ z) × (inner (seats self.rows) z ≡ true)) (λ _. inner (seats self.rows) z ≡ false) }
    {
        match row_at(&self.rows, z) {
            Some(row) if z != 0 => Ok(Inner {
                pattern: self,
                z,
                row,
                upper: row_at(&self.rows, row.up).unwrap(),
            }),
            _ => Err(NoSuchRow),
        }
    }

    pub(crate) fn deep(self, z: u8) -> Result<Deep, NoSuchRow>
        ensures { MatchResult result (λ d. (d.inner.pattern ≡ self) × (d.inner.z ≡ z) × (deep (seats self.rows) z ≡ true)) (λ _. deep (seats self.rows) z ≡ false) }
    {
        let inner = self.inner(z)?;
        if inner.row.up == 0 {
            return Err(NoSuchRow);
        }
        let over = row_at(&self.rows, inner.upper.up).unwrap();
        Ok(Deep { inner, over })
    }
}
