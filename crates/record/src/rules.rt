// The table of rules by which a row that looks back is moved.
ghost use Rattle.std.specs.Prelude.{◌≡◌};
ghost use Rattle.record.specs.Moves.{table};

use crate::axis::Step;

// How a row Z is moved that goes against a step from its up-row Y; W is the up-row of Y. `Up`: Z hangs under W by its own axis.
// `Join(a)`: Z goes into W, and Y hangs under W by a. `Between(a, b)`: Z hangs under W by a, and Y under Z by b.
#[derive(Clone, Copy, Debug, PartialEq, Eq)]
pub enum Move {
    Up,
    Join(Step),
    Between(Step, Step),
}

// The moves where Y goes along the step `upper` and Z against the step `lower`, in their order.
pub fn moves(upper: Step, lower: Step) -> &'static [Move]
    ensures { result.now ≡ table upper lower }
{
    use Move::{Between, Join, Up};
    use Step::{Child, Descendant, FollowingSibling, Next};
    match (upper, lower) {
        (Child, Child) => &[Join(Child)],
        (Child, Descendant) => &[Up, Join(Child)],
        (Child, Next) => &[Between(Child, Next)],
        (Child, FollowingSibling) => &[Between(Child, FollowingSibling)],
        (Descendant, Child) => &[Join(Child), Between(Descendant, Child)],
        (Descendant, Descendant) => &[Up, Join(Descendant), Between(Descendant, Descendant)],
        (Descendant, Next) => &[Between(Descendant, Next)],
        (Descendant, FollowingSibling) => &[Between(Descendant, FollowingSibling)],
        (Next, Child) => &[Up],
        (Next, Descendant) => &[Up],
        (Next, Next) => &[Join(Next)],
        (Next, FollowingSibling) => &[Up, Join(Next)],
        (FollowingSibling, Child) => &[Up],
        (FollowingSibling, Descendant) => &[Up],
        (FollowingSibling, Next) => &[Join(Next), Between(FollowingSibling, Next)],
        (FollowingSibling, FollowingSibling) => &[
            Up,
            Join(FollowingSibling),
            Between(FollowingSibling, FollowingSibling),
        ],
    }
}
