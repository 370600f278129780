// How many ends a question has, and how many of them are kept.
use crate::making::{Path, counts, one_under_another, pattern_of};
use crate::words::*;
use all_ends::rewrite;
use std::test::Fail;

// Questions, how many ends each has, and how many of them are kept.
const CASES: [(Path, (usize, usize)); 13] = [
    // /
    ((&[], 0), (1, 1)),
    // /ancestor::node()
    ((&[(0, ANCESTOR, NODE)], 1), (1, 0)),
    // /descendant::ash/parent::bag
    ((&[(0, DESCENDANT, ASH), (1, PARENT, BAG)], 2), (2, 1)),
    // /descendant::dust/ancestor::node()
    ((&[(0, DESCENDANT, DUST), (1, ANCESTOR, NODE)], 2), (3, 2)),
    // /descendant::ash/preceding::dust
    ((&[(0, DESCENDANT, ASH), (1, PRECEDING, DUST)], 2), (8, 4)),
    // /following::node()
    ((&[(0, FOLLOWING, NODE)], 1), (4, 0)),
    // /following::*[following::node()]
    ((&[(0, FOLLOWING, STAR), (1, FOLLOWING, NODE)], 1), (12, 0)),
    // /descendant::node()/following::salt/parent::node()
    (
        (
            &[
                (0, DESCENDANT, NODE),
                (1, FOLLOWING, SALT),
                (2, PARENT, NODE),
            ],
            3,
        ),
        (14, 8),
    ),
    // /descendant::bag[child::ash/following::dust]/previous::bag
    (
        (
            &[
                (0, DESCENDANT, BAG),
                (1, CHILD, ASH),
                (2, FOLLOWING, DUST),
                (1, PREVIOUS, BAG),
            ],
            4,
        ),
        (10, 6),
    ),
    // /descendant::*/preceding::*/preceding::*
    (
        (
            &[
                (0, DESCENDANT, STAR),
                (1, PRECEDING, STAR),
                (2, PRECEDING, STAR),
            ],
            3,
        ),
        (56, 24),
    ),
    // /descendant::*[preceding::ash][following::dust]
    (
        (
            &[
                (0, DESCENDANT, STAR),
                (1, PRECEDING, ASH),
                (1, FOLLOWING, DUST),
            ],
            1,
        ),
        (56, 24),
    ),
    // /descendant::ash/ancestor-or-self::node()/following-sibling::bag
    (
        (
            &[
                (0, DESCENDANT, ASH),
                (1, ANCESTOR_OR_SELF, NODE),
                (2, FOLLOWING_SIBLING, BAG),
            ],
            3,
        ),
        (4, 2),
    ),
    // three times /descendant::node(), then [ancestor::node()] twice
    (
        (
            &[
                (0, DESCENDANT, NODE),
                (1, DESCENDANT, NODE),
                (2, DESCENDANT, NODE),
                (3, ANCESTOR, NODE),
                (3, ANCESTOR, NODE),
            ],
            3,
        ),
        (49, 42),
    ),
];

#[test]
fn ends_and_kept_ends(rt: HostRuntime) -> Result<(), Fail> {
    let heap = rt.alloc();
    for (path, expected) in CASES {
        assert_eq!(rt; counts(heap, &[path])?, expected);
    }
    Ok(())
}

// Six times /descendant-or-self::node() has exactly as many ends as there may be.
#[test]
fn as_many_as_may_be(rt: HostRuntime) -> Result<(), Fail> {
    let six = one_under_another::<6>(DESCENDANT_OR_SELF);
    assert_eq!(rt; counts(rt.alloc(), &[(&six, 6)])?, (64, 64));
    Ok(())
}

// The ends of a question's patterns are counted together, and equal ones each for itself.
#[test]
fn several_paths(rt: HostRuntime) -> Result<(), Fail> {
    let heap = rt.alloc();
    let root: Path = (&[], 0);
    let back: Path = (&[(0, DESCENDANT, ASH), (1, PRECEDING, DUST)], 2);
    assert_eq!(rt; counts(heap, &[root, root])?, (2, 2));
    assert_eq!(rt; counts(heap, &[root, back, root, back])?, (18, 10));
    assert_eq!(rt; counts(heap, &[])?, (0, 0));
    Ok(())
}

// The alternatives stand in the order of the rules: for /descendant::dust/ancestor::node() the root first, then what is below it.
#[test]
fn in_order(rt: HostRuntime) -> Result<(), Fail> {
    let Some(source) = pattern_of((&[(0, DESCENDANT, DUST), (1, ANCESTOR, NODE)], 2)) else {
        return Err("no pattern".into());
    };
    let ends = rewrite(rt.alloc(), &[source])?;
    let [first, second] = ends.kept() else {
        return Err("two alternatives".into());
    };
    assert_eq!(rt; first.pattern().output(), 0);
    assert_eq!(rt; second.pattern().output(), 2);
    let rows = second.pattern().rows();
    assert_eq!(rt; rows[1].map(|row| row.up), Some(2));
    assert_eq!(rt; rows[2].map(|row| row.up), Some(0));
    Ok(())
}
