// From a pattern that looks back to patterns that look forward, with exactly its ways.
#![tactic(auto)]

mod laws;
mod searching;
mod turns;
mod wants;

pub use laws::changes_keep_every_way;
pub use searching::next_turn;
pub use turns::Turn;
