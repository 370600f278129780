// Tallies: what the ways of a question come to. A tally is a commutative semiring, as code.
#![tactic(auto)]

mod counts;
mod impls;
mod laws;
mod tallies;

pub use counts::{Count, YesNo};
pub use laws::{count_follows_the_number, sums_obey_their_laws, yes_follows_the_number};
pub use tallies::Tally;
