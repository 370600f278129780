// The rules by which a pattern that looks back becomes patterns that look forward, and that they keep what it comes to in every
// tally. Each function's contract is the law that its name says; it does nothing.
#![tactic(auto)]

mod laws;

pub use laws::{changes_keep_the_value, expansion_keeps_the_value, rewriting_keeps_the_value};
