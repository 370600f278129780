// A pattern that looks back, followed by the rules to all its ends: patterns that look forward, with exactly its ways.
#![tactic(auto)]

mod alternatives;
mod base;
mod ending;
mod fitting;
mod laws;
mod rewriting;

pub use base::Ends;
pub use laws::{alternatives_keep_the_value, ends_follow_the_rules, ends_in_the_examples};
pub use rewriting::rewrite;
