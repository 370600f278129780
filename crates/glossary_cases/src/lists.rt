// Lists of names that become a block, and lists that have too few names or too many.
use crate::asking::{holds_full_list, refused};
use crate::making::{block_of, numbered_list, slices};
use glossary::Glossary;
use name_list::write_block;
use std::test::Fail;

#[test]
fn two_names(rt: HostRuntime) -> Result<(), Fail> {
    let block = write_block(rt.alloc(), &[b"run", b"bag"])?;
    assert_eq!(rt;
        block.as_slice(),
        [0x02, 0x03, 0x72, 0x75, 0x6E, 0x03, 0x62, 0x61, 0x67].as_slice()
    );
    Ok(())
}

#[test]
fn short_lists(rt: HostRuntime) -> Result<(), Fail> {
    let heap = rt.alloc();
    refused(&rt, write_block(heap, &[]), 11, 0)?;
    refused(&rt, write_block(heap, &[b""]), 13, 1)?;
    refused(&rt, write_block(heap, &[b"run", b"Bag"]), 13, 2)?;
    refused(&rt, write_block(heap, &[b"run", b"bag", b"9"]), 13, 3)?;
    refused(&rt, write_block(heap, &[b"run", b"run"]), 14, 2)?;
    refused(&rt, write_block(heap, &[b"run", b"bag", b"run"]), 14, 3)?;
    refused(
        &rt,
        write_block(heap, &[b"run", b"run", b"bag", b""]),
        13,
        4,
    )?;
    refused(&rt, write_block(heap, &[&[b'a'; 257]]), 13, 1)
}

#[test]
fn full_list(rt: HostRuntime) -> Result<(), Fail> {
    let heap = rt.alloc();
    let names = numbered_list(heap, 200)?;
    let block = write_block(heap, &slices(heap, &names)?)?;
    assert_eq!(rt; block.as_slice(), block_of(heap, &names)?.as_slice());
    holds_full_list(&rt, &Glossary::new(&block)?)
}

// Counts above the largest, and some that would be good again if they were cut to one byte.
#[test]
fn too_many_names(rt: HostRuntime) -> Result<(), Fail> {
    let heap = rt.alloc();
    for count in [201, 202, 255, 256, 257, 456] {
        let names = numbered_list(heap, count)?;
        refused(&rt, write_block(heap, &slices(heap, &names)?), 11, 0)?;
    }
    Ok(())
}
