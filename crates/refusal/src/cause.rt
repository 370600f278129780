// The causes of refusals, each named by what is wrong, with the number that stands for it in every reply.
ghost use Rattle.std.specs.Prelude.{◌≡◌};
ghost use Rattle.refusal.specs.Numbers.{number_of};

#[derive(Clone, Copy, PartialEq, Eq, Debug)]
pub enum Cause {
    BlockSize = 11,
    BlockEnd = 12,
    NameForm = 13,
    NameTwice = 14,
    TextLength = 21,
    TextForm = 22,
    UnknownAxis = 23,
    UnknownName = 24,
    TooManyRows = 25,
    TooManyPaths = 26,
    TooManyEnds = 31,
    TooManyQuestions = 41,
    BadLabel = 51,
    BadStamp = 52,
    TooDeep = 53,
    StoreFull = 54,
    RootOpen = 55,
    BadPlace = 57,
    UnknownQuestion = 61,
    UnknownPlace = 62,
    TooFewSlots = 63,
    UnknownAlternative = 64,
    UnnamedLabel = 65,
    BufferTooShort = 66,
    LineForm = 71,
    NoMemory = 91,
}

impl Cause {
    // The number that stands for the cause in every reply. A method and no `From`: `u8::from(cause)` would not say which number it is.
    pub fn number(self) -> u8
        ensures { result ≡ number_of self }
    {
        self as u8
    }
}
