// Patterns: the rows of a path, what each asks of its place, and the ways in which a record meets them.
#![tactic(auto)]

mod arrays;
mod base;
mod changes;
mod forward;
mod inner;
mod joins;
mod laws;
mod looking;
mod making;
mod moving;
mod opening;
mod roots;
mod row;
mod sizes;

pub use base::Pattern;
pub use forward::Forward;
pub use inner::NoSuchRow;
pub use laws::{
    count_is_the_ways, more_places_lose_no_way, values_obey_their_laws, ways_in_the_example,
    yes_is_a_way,
};
pub use making::row_at;
pub use row::{Row, Test};
