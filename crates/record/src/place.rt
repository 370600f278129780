// One place of a record.

// What it is, how deep in the core it lies, in millimetres, and how deep it is nested. The root has 0 for each.
#[derive(Clone, Copy, Debug, PartialEq, Eq)]
pub struct Place {
    pub label: u16,
    pub stamp: u32,
    pub depth: u8,
}
