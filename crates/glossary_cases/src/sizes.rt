// Blocks of the sizes at which a check turns.
use crate::asking::{paired, refused};
use crate::making::{append, numbered};
use glossary::Glossary;
use std::test::Fail;

#[test]
fn no_bytes(rt: HostRuntime) -> Result<(), Fail> {
    refused(&rt, Glossary::new(&[]), 11, 0)
}

// The largest block that is accepted: 200 names of 16 bytes, 1 + 200 * 17 bytes.
#[test]
fn filled_with_names(rt: HostRuntime) -> Result<(), Fail> {
    let mut block = Vec::new(rt.alloc());
    block.push(200)?;
    for number in 0..200 {
        block.push(16)?;
        block.extend_from_slice(b"long-name-is")?;
        block.extend_from_slice(&numbered(number))?;
    }
    assert_eq!(rt; block.len(), 3401);
    let glossary = Glossary::new(&block)?;
    paired(&rt, &glossary, 1, b"long-name-isn000")?;
    paired(&rt, &glossary, 200, b"long-name-isn199")
}

// Sixteen entries that fill the largest block, with names that are too long: 1 + 15 * 256 + 255 bytes.
#[test]
fn filled_with_long_names(rt: HostRuntime) -> Result<(), Fail> {
    let mut block = Vec::new(rt.alloc());
    block.push(16)?;
    for _ in 0..15 {
        append(&mut block, &[b'a'; 255])?;
    }
    append(&mut block, &[b'a'; 254])?;
    assert_eq!(rt; block.len(), 4096);
    refused(&rt, Glossary::new(&block), 13, 1)?;
    block.push(b'a')?;
    refused(&rt, Glossary::new(&block), 11, 0)
}

#[test]
fn filled_with_zeros(rt: HostRuntime) -> Result<(), Fail> {
    let mut block = [1, 3, b'r', b'u', b'n'].to_vec(rt.alloc())?;
    assert!(rt; Glossary::new(&block).is_ok());
    block.extend_from_slice(&[0; 4091])?;
    assert_eq!(rt; block.len(), 4096);
    refused(&rt, Glossary::new(&block), 12, 0)?;
    block.push(0)?;
    refused(&rt, Glossary::new(&block), 11, 0)
}

// What every block of more than 4096 bytes is refused with, whatever its count.
#[test]
fn too_large(rt: HostRuntime) -> Result<(), Fail> {
    let mut block = [0; 4097].to_vec(rt.alloc())?;
    for count in [0, 1, 16, 200, 201, 255] {
        *block.get_mut(0).ok_or("no count")? = count;
        refused(&rt, Glossary::new(&block), 11, 0)?;
    }
    Ok(())
}
