// Records: places in the order in which they come, and the axes between them.
#![tactic(auto)]

mod axis;
mod laws;
mod place;
mod rules;
mod words;

pub use axis::{Axis, Reach, Step};
pub use laws::{
    axes_find_in_the_example, axes_stay, children_are_listed, descendants_are_unbroken,
    descendants_go_by_children, following_goes_by_one_pair, forward_is_later, inverses_lead_back,
    one_move_holds, parents_are_found,
};
pub use place::Place;
pub use rules::{Move, moves};
