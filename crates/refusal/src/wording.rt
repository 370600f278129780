// What is wrong, in words for a person.
ghost use Rattle.std.specs.Prelude.{◌≡◌, Some};
ghost use Rattle.refusal.specs.Texts.{words_of};

use crate::cause::Cause;
use std::fmt;

fn words(cause: Cause) -> &'static str
    ensures { result.now ≡ words_of cause }
{
    match cause {
        Cause::BlockSize => "the block is empty or too long, or its count of names is out of range",
        Cause::BlockEnd => "a name runs past the end of the block, or bytes follow the last name",
        Cause::NameForm => "a name has 1 to 16 bytes of a-z, 0-9 and -, a letter first",
        Cause::NameTwice => "the name stands earlier in the list",
        Cause::TextLength => "a question has 1 to 1024 bytes",
        Cause::TextForm => "the text cannot go on here",
        Cause::UnknownAxis => "no axis has this word",
        Cause::UnknownName => "the glossary does not list this name",
        Cause::TooManyRows => "a path has at most 15 rows below its root",
        Cause::TooManyPaths => "a question has at most four paths",
        Cause::TooManyEnds => "the question has more than 64 ends",
        Cause::TooManyQuestions => "eight questions are enrolled",
        Cause::BadLabel => "the label is out of range",
        Cause::BadStamp => "the stamp is below the last place's or out of range",
        Cause::TooDeep => "the open place is as deep as a place may be",
        Cause::StoreFull => "the store is full",
        Cause::RootOpen => "only the root is open",
        Cause::BadPlace => "a label, stamp or depth that no next place may have",
        Cause::UnknownQuestion => "no question has this number",
        Cause::UnknownPlace => "no place has this number",
        Cause::TooFewSlots => "too few working slots",
        Cause::UnknownAlternative => "no alternative has this number",
        Cause::UnnamedLabel => "the glossary has no name for a label",
        Cause::BufferTooShort => "the buffer is too short",
        Cause::LineForm => "no command has this form",
        Cause::NoMemory => "no memory is left",
    }
}

impl fmt::Display for Cause {
    ghost output = { λ c. Some (words_of c) };

    fn fmt<W: fmt::Write>(&self, f: &mut fmt::Formatter<W>) -> fmt::Result {
        f.write_str(words(*self))
    }
}
