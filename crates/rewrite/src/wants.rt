// What a single row asks for.
ghost use Rattle.std.specs.Prelude.{◌≡◌};
ghost use Rattle.ways.specs.Rewriting.{strays};
ghost use Rattle.rewrite.specs.Turns.{expansion_by, shift_by, stray_by};

use crate::turns::Turn;
use record::{Axis, Reach, Step};

// What expansion does with row i by its axis.
pub(crate) fn expansion_by(i: u8, axis: Axis) -> Option<Turn>
    ensures { result ≡ expansion_by i axis }
{
    match axis {
        Axis::Along(_) | Axis::Against(_) => None,
        Axis::Itself => Some(Turn::Merge(i)),
        Axis::Wide(Reach::DescendantOrSelf) => Some(Turn::Split(i, Axis::Along(Step::Descendant))),
        Axis::Wide(Reach::AncestorOrSelf) => Some(Turn::Split(i, Axis::Against(Step::Descendant))),
        Axis::Wide(Reach::Following) => Some(Turn::Open(i, Axis::Along(Step::FollowingSibling))),
        Axis::Wide(Reach::Preceding) => Some(Turn::Open(i, Axis::Against(Step::FollowingSibling))),
    }
}

// What rewriting does with row i by its axis and that of its up-row.
pub(crate) fn shift_by(i: u8, axis: Axis, above: Axis) -> Option<Turn>
    ensures { result ≡ shift_by i axis above }
{
    match (axis, above) {
        (Axis::Against(lower), Axis::Along(upper)) => Some(Turn::Shift(i, upper, lower)),
        _ => None,
    }
}

// Whether the axis leads nowhere from the root.
fn strays(axis: Axis) -> bool
    ensures { result ≡ strays axis }
{
    matches!(
        axis,
        Axis::Along(Step::Next | Step::FollowingSibling) | Axis::Against(_)
    )
}

// A row under row 0 that leads nowhere drops the pattern.
pub(crate) fn stray_by(up: u8, axis: Axis) -> Option<Turn>
    ensures { result ≡ stray_by up axis }
{
    (up == 0 && strays(axis)).then_some(Turn::Dropped)
}
