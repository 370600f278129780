// Axes and tests, by the words of the questions.
use pattern::Test;
use record::{Axis, Reach, Step};

pub const CHILD: Axis = Axis::Along(Step::Child);

pub const DESCENDANT: Axis = Axis::Along(Step::Descendant);

pub const FOLLOWING_SIBLING: Axis = Axis::Along(Step::FollowingSibling);

pub const PARENT: Axis = Axis::Against(Step::Child);

pub const ANCESTOR: Axis = Axis::Against(Step::Descendant);

pub const PREVIOUS: Axis = Axis::Against(Step::Next);

pub const DESCENDANT_OR_SELF: Axis = Axis::Wide(Reach::DescendantOrSelf);

pub const ANCESTOR_OR_SELF: Axis = Axis::Wide(Reach::AncestorOrSelf);

pub const FOLLOWING: Axis = Axis::Wide(Reach::Following);

pub const PRECEDING: Axis = Axis::Wide(Reach::Preceding);

pub const NODE: Test = Test::Any;

pub const STAR: Test = Test::Star;

pub const BAG: Test = Test::Label(2);

pub const ASH: Test = Test::Label(3);

pub const DUST: Test = Test::Label(4);

pub const SALT: Test = Test::Label(5);
