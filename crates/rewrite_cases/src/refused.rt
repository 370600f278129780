// Questions that are refused.
use crate::making::{Path, counts, one_under_another};
use crate::words::*;
use pattern::{Pattern, Row, Test};
use record::Axis;
use std::alloc::Global;
use std::process::Abort;
use std::test::Fail;

// As in the tests of glossaries: a crate of tests lends nothing to another. The number and not the cause: the number is what a user reads, and a test keeps it.
fn refused(rt: &impl Abort, heap: Global, paths: &[Path], number: u8) -> Result<(), Fail> {
    let Err(refusal) = counts(heap, paths) else {
        return Err("is not refused".into());
    };
    assert_eq!(rt; refusal.cause.number(), number);
    assert_eq!(rt; refusal.position, 0);
    Ok(())
}

// Four times /descendant::node(), then [ancestor::node()] twice: 81 ends.
#[test]
fn too_many_ends(rt: HostRuntime) -> Result<(), Fail> {
    let four = [
        (0, DESCENDANT, NODE),
        (1, DESCENDANT, NODE),
        (2, DESCENDANT, NODE),
        (3, DESCENDANT, NODE),
        (4, ANCESTOR, NODE),
        (4, ANCESTOR, NODE),
    ];
    refused(&rt, rt.alloc(), &[(&four, 4)], 31)
}

// Four times /following::node(): 144 ends, all of them dropped.
#[test]
fn too_many_dropped_ends(rt: HostRuntime) -> Result<(), Fail> {
    let nowhere = one_under_another::<4>(FOLLOWING);
    refused(&rt, rt.alloc(), &[(&nowhere, 4)], 31)
}

// One end more than 64, in another path.
#[test]
fn one_end_too_many(rt: HostRuntime) -> Result<(), Fail> {
    let six = one_under_another::<6>(DESCENDANT_OR_SELF);
    refused(&rt, rt.alloc(), &[(&[], 0), (&six, 6)], 31)
}

// Twelve times /child::node(), then two more steps.
fn line(next: Axis, last: Axis) -> [(u8, Axis, Test); 14] {
    let mut rows = one_under_another(CHILD);
    rows[12].1 = next;
    rows[13].1 = last;
    rows
}

// A row by following counts three: behind twelve rows it has room, and behind thirteen it has none, whatever stands beside it.
#[test]
fn too_many_rows(rt: HostRuntime) -> Result<(), Fail> {
    let heap = rt.alloc();
    let all = line(CHILD, CHILD);
    assert_eq!(rt; counts(heap, &[(&all, 14)])?, (1, 1));
    let widened = line(FOLLOWING, CHILD);
    assert_eq!(rt; counts(heap, &[(&widened[..13], 13)])?, (28, 24));
    let behind = line(CHILD, FOLLOWING);
    refused(&rt, heap, &[(&[], 0), (&behind, 14)], 25)
}

// Rows without row 0 make no pattern, and row 0 alone makes one.
#[test]
fn no_root(rt: HostRuntime) -> Result<(), Fail> {
    let mut rows = [None; 16];
    assert!(rt; Pattern::from_rows(rows, 0).is_none());
    rows[0] = Some(Row {
        up: 0,
        axis: CHILD,
        test: NODE,
    });
    assert!(rt; Pattern::from_rows(rows, 0).is_some());
    Ok(())
}
