// A block of as many names as there may be: 200, of four bytes each, so that the block has 1001 bytes.
use crate::asking::{front, holds_full_list, refused};
use crate::making::{block_of, numbered_list};
use glossary::Glossary;
use std::test::Fail;

#[test]
fn labels_and_names(rt: HostRuntime) -> Result<(), Fail> {
    let heap = rt.alloc();
    let block = block_of(heap, &numbered_list(heap, 200)?)?;
    assert_eq!(rt; block.len(), 1001);
    holds_full_list(&rt, &Glossary::new(&block)?)
}

// The name of the label k ends with byte 1 + 5 k.
#[test]
fn cut_anywhere(rt: HostRuntime) -> Result<(), Fail> {
    let heap = rt.alloc();
    let block = block_of(heap, &numbered_list(heap, 200)?)?;
    assert_eq!(rt; block.len(), 1001);
    refused(&rt, Glossary::new(front(&block, 0)?), 11, 0)?;
    for size in 1..1001 {
        let cut = Glossary::new(front(&block, size)?);
        refused(&rt, cut, 12, (size - 1) / 5 + 1)?;
    }
    assert!(rt; Glossary::new(&block).is_ok());
    Ok(())
}

#[test]
fn one_byte_more(rt: HostRuntime) -> Result<(), Fail> {
    let heap = rt.alloc();
    for byte in [0, 1, b'a', u8::MAX] {
        let mut block = block_of(heap, &numbered_list(heap, 200)?)?;
        block.push(byte)?;
        refused(&rt, Glossary::new(&block), 12, 0)?;
    }
    Ok(())
}

#[test]
fn another_count(rt: HostRuntime) -> Result<(), Fail> {
    let heap = rt.alloc();
    let mut block = block_of(heap, &numbered_list(heap, 200)?)?;
    for (count, number, position) in [
        (0, 11, 0),
        (1, 12, 0),
        (199, 12, 0),
        (201, 11, 0),
        (255, 11, 0),
    ] {
        *block.get_mut(0).ok_or("no count")? = count;
        refused(&rt, Glossary::new(&block), number, position)?;
    }
    Ok(())
}

#[test]
fn one_name_too_many(rt: HostRuntime) -> Result<(), Fail> {
    let heap = rt.alloc();
    let block = block_of(heap, &numbered_list(heap, 201)?)?;
    assert_eq!(rt; block.len(), 1006);
    refused(&rt, Glossary::new(&block), 11, 0)
}
