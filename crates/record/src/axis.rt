// The thirteen axes, by which one place leads to another.

// Four ways forward in the record.
#[derive(Clone, Copy, Debug, PartialEq, Eq)]
pub enum Step {
    Child,
    Descendant,
    Next,
    FollowingSibling,
}

// The axes that are put together from steps.
#[derive(Clone, Copy, Debug, PartialEq, Eq)]
pub enum Reach {
    DescendantOrSelf,
    AncestorOrSelf,
    Following,
    Preceding,
}

// An axis goes along a step or against it: parent is against child, ancestor against descendant, previous against next,
// preceding-sibling against following-sibling. `Itself` is the axis with the word self.
#[derive(Clone, Copy, Debug, PartialEq, Eq)]
pub enum Axis {
    Along(Step),
    Against(Step),
    Itself,
    Wide(Reach),
}
