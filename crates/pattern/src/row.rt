// The rows of a pattern.
use record::Axis;

// What a row asks of its place: nothing; not to be the root; a label; to be the root.
#[derive(Clone, Copy, Debug, PartialEq, Eq)]
pub enum Test {
    Any,
    Star,
    Label(u16),
    Root,
}

// A row hangs under its up-row by an axis, and has a test. Row 0 is the root's, and its `up` and `axis` count for nothing: a row of its own
// kind would part the array, in which a row's number is its place.
#[derive(Clone, Copy, Debug, PartialEq, Eq)]
pub struct Row {
    pub up: u8,
    pub axis: Axis,
    pub test: Test,
}
