// Questions made by hand, row by row, and what rewriting makes of them.
ghost use Rattle.std.specs.Prelude.{◌≤◌};

use crate::words::{CHILD, NODE};
use all_ends::rewrite;
use pattern::{Pattern, Row, Test};
use record::Axis;
use refusal::Refusal;
use std::alloc::Global;
use std::array;

// The rows of a path from row 1 on, each with its up-row, its axis and its test, and the output. Tuples, so that a row of a question stands on one line.
pub(crate) type Path<'a> = (&'a [(u8, Axis, Test)], u8);

// The pattern of a path; none where the rows make none.
pub(crate) fn pattern_of((steps, output): Path) -> Option<Pattern> {
    if steps.len() > 15 {
        return None;
    }
    let mut rows = [None; 16];
    rows[0] = Some(Row {
        up: 0,
        axis: CHILD,
        test: Test::Root,
    });
    for (row, (up, axis, test)) in rows[1..].iter_mut().zip(steps) {
        *row = Some(Row {
            up: *up,
            axis: *axis,
            test: *test,
        });
    }
    Pattern::from_rows(rows, output)
}

// N rows one under another, each by the axis and to any place.
pub(crate) fn one_under_another<const N: usize>(axis: Axis) -> [(u8, Axis, Test); N]
    requires { N ≤ 15 }
{
    array::from_fn(|up| (up as u8, axis, NODE))
}

// How many ends the question of these paths has, and how many of them are kept. A path that makes no pattern is left out.
pub(crate) fn counts(heap: Global, paths: &[Path]) -> Result<(usize, usize), Refusal> {
    let sources: Vec<Pattern> = paths
        .iter()
        .filter_map(|path| pattern_of(*path))
        .collect(heap)?;
    let ends = rewrite(heap, &sources)?;
    Ok((ends.number(), ends.kept().len()))
}
