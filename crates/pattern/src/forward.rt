// Patterns that look only forward.
ghost use Rattle.std.specs.Prelude.{◌≡◌, true};
ghost use Rattle.pattern.specs.Rows.{seats, all_along};

use crate::base::Pattern;

// A pattern in which every row in use goes along a step.
#[derive(Clone, Copy, Debug, PartialEq, Eq)]
pub struct Forward {
    pub(crate) pattern: Pattern,
    ghost ahead: { all_along (seats pattern.rows) ≡ true },
}
