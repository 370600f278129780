// From a list of names to the block of a glossary, and from a block to text for a person.
#![tactic(auto)]

mod showing;
mod splitting;
mod writing;

pub use showing::{complaint, listing};
pub use splitting::lines;
pub use writing::write_block;
