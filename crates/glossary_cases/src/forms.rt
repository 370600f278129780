// The forms of names, each asked of the name alone, of a block of that name and of a list of that name.
use crate::asking::{front, paired, refused};
use crate::making::block_of;
use glossary::{Glossary, is_name};
use name_list::write_block;
use std::alloc::Global;
use std::process::Abort;
use std::test::Fail;

// The bytes are a name.
fn good(rt: &impl Abort, heap: Global, name: &[u8]) -> Result<(), Fail> {
    assert!(rt; is_name(name), "{name:?} is a name");
    let block = block_of(heap, &[name])?;
    paired(rt, &Glossary::new(&block)?, 1, name)?;
    assert_eq!(rt; write_block(heap, &[name])?.as_slice(), block.as_slice());
    Ok(())
}

// The bytes are no name.
fn bad(rt: &impl Abort, heap: Global, name: &[u8]) -> Result<(), Fail> {
    assert!(rt; !is_name(name), "{name:?} is no name");
    refused(rt, Glossary::new(&block_of(heap, &[name])?), 13, 1)?;
    refused(rt, write_block(heap, &[name]), 13, 1)
}

#[test]
fn good_names(rt: HostRuntime) -> Result<(), Fail> {
    for name in [
        "a",
        "z",
        "z9-",
        "a-",
        "a--0",
        "m0",
        "run",
        "abcdefghijklmnop",
        "q--------------9",
    ] {
        good(&rt, rt.alloc(), name.as_bytes())?;
    }
    Ok(())
}

#[test]
fn bad_names(rt: HostRuntime) -> Result<(), Fail> {
    for name in [
        "",
        "A",
        "9a",
        "-a",
        "9",
        "-",
        "a_",
        "a ",
        " a",
        "aA",
        "a\0",
        "\u{e9}",
        "a\u{e9}",
        "abcdefghijklmnopq",
        "abcdefghijklmnop_",
    ] {
        bad(&rt, rt.alloc(), name.as_bytes())?;
    }
    Ok(())
}

// Every byte as the first of a name.
#[test]
fn first_bytes(rt: HostRuntime) -> Result<(), Fail> {
    let heap = rt.alloc();
    for byte in 0..=u8::MAX {
        if b"abcdefghijklmnopqrstuvwxyz".contains(&byte) {
            good(&rt, heap, &[byte])?;
        } else {
            bad(&rt, heap, &[byte])?;
        }
    }
    Ok(())
}

// Every byte within a name.
#[test]
fn later_bytes(rt: HostRuntime) -> Result<(), Fail> {
    let heap = rt.alloc();
    for byte in 0..=u8::MAX {
        if b"abcdefghijklmnopqrstuvwxyz0123456789-".contains(&byte) {
            good(&rt, heap, &[b'a', byte, b'z'])?;
        } else {
            bad(&rt, heap, &[b'a', byte, b'z'])?;
        }
    }
    Ok(())
}

// Every length up to the largest that a byte can give.
#[test]
fn lengths(rt: HostRuntime) -> Result<(), Fail> {
    let heap = rt.alloc();
    let letters = [b'k'; 255];
    bad(&rt, heap, &[])?;
    for size in 1..256 {
        let name = front(&letters, size)?;
        if size < 17 {
            good(&rt, heap, name)?;
        } else {
            bad(&rt, heap, name)?;
        }
    }
    Ok(())
}
