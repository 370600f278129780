// The glossary: a block of bytes that gives each label a name.
#![tactic(auto)]

mod base;
mod entries;
mod forms;
mod limits;
mod lookup;
mod names;
mod reading;

pub use base::Glossary;
pub use forms::is_name;
pub use limits::{HEAD_SIZE, MAX_BLOCK, MAX_NAME, MAX_NAMES};
pub use names::Names;
