// What is done next with a pattern.
use record::{Axis, Step};

// `Kept` and `Dropped` are ends. `Merge`: the row goes into its up-row. `Split`: the row goes by the axis, and besides it is merged.
// `Open`: the row is reached over two new rows, aside by the axis. `Shift`: the row, which goes against the second step from an up-row
// that goes along the first, is moved by the table.
#[derive(Clone, Copy, Debug, PartialEq, Eq)]
pub enum Turn {
    Kept,
    Dropped,
    Merge(u8),
    Split(u8, Axis),
    Open(u8, Axis),
    Shift(u8, Step, Step),
}
