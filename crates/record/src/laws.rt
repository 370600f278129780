// The laws of the axes that the rest rests on. Each function's contract is the law that its name says; its answer says nothing.
ghost use Rattle.record.specs.Example.{AxisExamples};
ghost use Rattle.record.specs.Laws.{ParentsFound, DescendantsUnbroken, DescendantsByChildren, FollowingByOnePair, OneMoveHolds, ChildrenListed, AxesStay, InversesLeadBack, ForwardIsLater};

// Every place but the root has a parent: the last earlier one that is one less deep.
pub fn parents_are_found()
    ensures { ParentsFound }
{}

// The descendants of a place are those that follow it without a break and lie deeper.
pub fn descendants_are_unbroken()
    ensures { DescendantsUnbroken }
{}

// A descendant is a child, or a descendant of a child.
pub fn descendants_go_by_children()
    ensures { DescendantsByChildren }
{}

// A place follows another exactly if one pair of siblings lies between them, and then only one.
pub fn following_goes_by_one_pair()
    ensures { FollowingByOnePair }
{}

// Of the moves of the table exactly one holds where the two rows stand, and none elsewhere.
pub fn one_move_holds()
    ensures { OneMoveHolds }
{}

// The first child and the next siblings list the children.
pub fn children_are_listed()
    ensures { ChildrenListed }
{}

// Between places of a record every axis stays the same as the record grows.
pub fn axes_stay()
    ensures { AxesStay }
{}

// The inverse of an axis leads back.
pub fn inverses_lead_back()
    ensures { InversesLeadBack }
{}

// A forward axis leads to no earlier place.
pub fn forward_is_later()
    ensures { ForwardIsLater }
{}

// What each axis finds in a record of eleven places.
pub fn axes_find_in_the_example()
    ensures { AxisExamples }
{}
