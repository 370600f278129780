// A pattern followed to its ends, by the rules.
ghost use Rattle.std.specs.Prelude.{◌≡◌, [], ◌∷◌};
ghost use Rattle.std.specs.Option.{option_map};
ghost use Rattle.all_ends.specs.Ends.{shape_of, ends_from, ends_of};
ghost use Rattle.all_ends.specs.Reached.{forward_shape, Reached};

use crate::alternatives::{axis_at, merge_at, move_at, open_at};
use crate::base::Ends;
use pattern::{Forward, Pattern};
use record::moves;
use refusal::{Cause, Refusal};
use rewrite::{Turn, next_turn};

const MAX_ENDS: usize = 64;

impl Ends {
    // One end more, kept or dropped.
    fn reach(&mut self, end: Option<Forward>) -> Result<(), Refusal>
        ensures { Reached self.old (option_map forward_shape end ∷ []) result self.new }
    {
        if self.number >= MAX_ENDS {
            return Err(Cause::TooManyEnds.into());
        }
        self.number += 1;
        if let Some(forward) = end {
            self.kept.push(forward)?;
        }
        Ok(())
    }
}

// Goes on with an alternative; one that is not there is a dropped end.
#[cycle(follow_go_on)]
fn go_on(alternative: Option<Pattern>, ends: &mut Ends) -> Result<(), Refusal>
    ensures { Reached ends.old (ends_from ends_of (option_map shape_of alternative)) result ends.new }
{
    match alternative {
        None => ends.reach(None),
        Some(pattern) => follow(pattern, ends),
    }
}

// Follows the pattern to its ends, each alternative with its own copy of the pattern and finished before the next.
#[cycle(follow_go_on)]
pub(crate) fn follow(pattern: Pattern, ends: &mut Ends) -> Result<(), Refusal>
    ensures { Reached ends.old (ends_of (shape_of pattern)) result ends.new }
{
    match next_turn(pattern) {
        Turn::Kept => ends.reach(Forward::new(pattern)),
        Turn::Dropped => ends.reach(None),
        Turn::Merge(z) => go_on(merge_at(pattern, z), ends),
        Turn::Split(z, axis) => {
            let plain = axis_at(pattern, z, axis);
            let merged = merge_at(pattern, z);
            go_on(plain, ends)?;
            go_on(merged, ends)
        }
        Turn::Open(z, aside) => go_on(open_at(pattern, z, aside), ends),
        Turn::Shift(z, upper, lower) => {
            for by in moves(upper, lower) {
                go_on(move_at(pattern, z, *by), ends)?;
            }
            Ok(())
        }
    }
}
