// A refusal: its cause, and the position that it speaks of.
ghost use Rattle.std.specs.Prelude.{◌≡◌, Some};
ghost use Rattle.refusal.specs.Texts.{reply_of};

use crate::cause::Cause;
use std::error::Error;
use std::fmt;

// The position is a byte of the text from 0, the number of a name from 1, or 0. It is a number in any case, since the reply line has one in
// any case.
#[derive(Clone, Copy, PartialEq, Eq, Debug)]
pub struct Refusal {
    pub cause: Cause,
    pub position: usize,
}

impl Cause {
    // The refusal for this cause that speaks of the position.
    pub fn at(self, position: usize) -> Refusal
        ensures { result ≡ record { cause = self; position = position } }
    {
        Refusal {
            cause: self,
            position,
        }
    }
}

// A cause alone speaks of no position, which is 0.
impl From<Cause> for Refusal {
    ghost from_gives = { λ c r. r ≡ record { cause = c; position = 0 } };

    fn from(cause: Cause) -> Refusal {
        cause.at(0)
    }
}

// The reply line: `no NUMBER POSITION`.
impl fmt::Display for Refusal {
    ghost output = { λ r. Some (reply_of r) };

    fn fmt<W: fmt::Write>(&self, f: &mut fmt::Formatter<W>) -> fmt::Result {
        let number = self.cause.number();
        let position = self.position;
        write!(f, "no {number} {position}")
    }
}

impl Error for Refusal {}
