// Axes by their words, and the axes that lead back.
ghost use Rattle.std.specs.Prelude.{◌≡◌, Some};
ghost use Rattle.record.specs.Axes.{inverse_of, is_forward};
ghost use Rattle.record.specs.Words.{word_of};

use crate::axis::{Axis, Reach, Step};

// All thirteen axes, by hand: no derive lists the values of an enum.
const AXES: [Axis; 13] = [
    Axis::Along(Step::Child),
    Axis::Along(Step::Descendant),
    Axis::Along(Step::Next),
    Axis::Along(Step::FollowingSibling),
    Axis::Against(Step::Child),
    Axis::Against(Step::Descendant),
    Axis::Against(Step::Next),
    Axis::Against(Step::FollowingSibling),
    Axis::Itself,
    Axis::Wide(Reach::DescendantOrSelf),
    Axis::Wide(Reach::AncestorOrSelf),
    Axis::Wide(Reach::Following),
    Axis::Wide(Reach::Preceding),
];

impl Axis {
    // The word of the axis in a question. Not a `Display`: questions are bytes, so that text would be a conversion more.
    pub fn word(self) -> &'static [u8]
        ensures { result.now ≡ word_of self }
    {
        match self {
            Axis::Along(Step::Child) => b"child",
            Axis::Along(Step::Descendant) => b"descendant",
            Axis::Along(Step::Next) => b"next",
            Axis::Along(Step::FollowingSibling) => b"following-sibling",
            Axis::Against(Step::Child) => b"parent",
            Axis::Against(Step::Descendant) => b"ancestor",
            Axis::Against(Step::Next) => b"previous",
            Axis::Against(Step::FollowingSibling) => b"preceding-sibling",
            Axis::Itself => b"self",
            Axis::Wide(Reach::DescendantOrSelf) => b"descendant-or-self",
            Axis::Wide(Reach::AncestorOrSelf) => b"ancestor-or-self",
            Axis::Wide(Reach::Following) => b"following",
            Axis::Wide(Reach::Preceding) => b"preceding",
        }
    }

    // The axis with that word, if there is one. Not a `TryFrom`, whose error would have nothing to say.
    pub fn from_word(word: &[u8]) -> Option<Axis>
        ensures fits { (a : Axis) → result ≡ Some a → word_of a ≡ word.now }
        ensures finds { (a : Axis) → word_of a ≡ word.now → result ≡ Some a }
    {
        AXES.iter().find(|axis| axis.word() == word).copied()
    }

    // The axis that leads back.
    pub fn inverse(self) -> Axis
        ensures { result ≡ inverse_of self }
    {
        match self {
            Axis::Along(step) => Axis::Against(step),
            Axis::Against(step) => Axis::Along(step),
            Axis::Itself => Axis::Itself,
            Axis::Wide(Reach::DescendantOrSelf) => Axis::Wide(Reach::AncestorOrSelf),
            Axis::Wide(Reach::AncestorOrSelf) => Axis::Wide(Reach::DescendantOrSelf),
            Axis::Wide(Reach::Following) => Axis::Wide(Reach::Preceding),
            Axis::Wide(Reach::Preceding) => Axis::Wide(Reach::Following),
        }
    }

    // Whether the axis leads to no earlier place. Self does, and its inverse too.
    pub fn is_forward(self) -> bool
        ensures { result ≡ is_forward self }
    {
        matches!(
            self,
            Axis::Along(_) | Axis::Itself | Axis::Wide(Reach::DescendantOrSelf | Reach::Following)
        )
    }
}
