// Lists of 200 good names in which some are replaced, so that they are refused: as a block and as a list alike.
use crate::asking::refused;
use crate::making::{block_of, numbered_list, slices};
use glossary::Glossary;
use name_list::write_block;
use std::alloc::Global;
use std::process::Abort;
use std::test::Fail;

// Puts another name at a place, counted from 1.
fn replace(names: &mut Vec<[u8; 4]>, place: usize, name: [u8; 4]) -> Result<(), Fail> {
    let index = place.checked_sub(1).ok_or("places begin at 1")?;
    *names.get_mut(index).ok_or("there is no such place")? = name;
    Ok(())
}

// The names are refused with that number at that position. The number, as in `refused`.
fn both_refused(
    rt: &impl Abort,
    heap: Global,
    names: &[[u8; 4]],
    number: u8,
    position: usize,
) -> Result<(), Fail> {
    refused(rt, Glossary::new(&block_of(heap, names)?), number, position)?;
    let list = slices(heap, names)?;
    refused(rt, write_block(heap, &list), number, position)
}

// The name at the place k is `n` and the digits of k - 1.
#[test]
fn one_name(rt: HostRuntime) -> Result<(), Fail> {
    let heap = rt.alloc();
    for (place, name, number, position) in [
        (1, *b"N000", 13, 1),
        (100, *b"n09_", 13, 100),
        (200, *b"9199", 13, 200),
        (2, *b"n000", 14, 2),
        (200, *b"n000", 14, 200),
        (200, *b"n198", 14, 200),
        (1, *b"n199", 14, 200),
        (1, *b"n050", 14, 51),
    ] {
        let mut names = numbered_list(heap, 200)?;
        replace(&mut names, place, name)?;
        both_refused(&rt, heap, &names, number, position)?;
    }
    Ok(())
}

// A bad name goes before a repeated one, wherever they stand, and an earlier place before a later one.
#[test]
fn two_names(rt: HostRuntime) -> Result<(), Fail> {
    let heap = rt.alloc();
    for (place, name, other_place, other_name, number, position) in [
        (2, *b"n000", 200, *b"n19A", 13, 200),
        (1, *b"-000", 2, *b"n199", 13, 1),
        (7, *b"n 06", 150, *b"n 06", 13, 7),
        (3, *b"n003", 5, *b"N004", 13, 5),
        (10, *b"n000", 5, *b"n000", 14, 5),
        (199, *b"n000", 200, *b"n000", 14, 199),
    ] {
        let mut names = numbered_list(heap, 200)?;
        replace(&mut names, place, name)?;
        replace(&mut names, other_place, other_name)?;
        both_refused(&rt, heap, &names, number, position)?;
    }
    Ok(())
}
