// The lines of a text, the listing of a block, and what is told of a refused list.
use name_list::{complaint, lines, listing};
use refusal::{Cause, Refusal};
use std::test::Fail;

// The text has that many lines, and the last of them is that.
#[test]
fn last_lines(rt: HostRuntime) -> Result<(), Fail> {
    for (text, count, last) in [
        ("\n", 1, ""),
        ("run", 1, "run"),
        ("run\n", 1, "run"),
        ("run\nbag", 2, "bag"),
        ("run\nbag\n", 2, "bag"),
        ("run\n\n", 2, ""),
        ("\n\nrun\r\n", 3, "run\r"),
    ] {
        let found = lines(rt.alloc(), text.as_bytes())?;
        assert_eq!(rt; found.len(), count, "{}", text);
        let line = found.as_slice().last().copied().ok_or("no line")?;
        assert_eq!(rt; line, last.as_bytes(), "{}", text);
    }
    assert_eq!(rt; lines(rt.alloc(), b"")?.len(), 0);
    Ok(())
}

#[test]
fn listings(rt: HostRuntime) -> Result<(), Fail> {
    let block = [2, 3, b'r', b'u', b'n', 3, b'b', b'a', b'g'];
    let text = listing(rt.alloc(), &block)?;
    assert_eq!(rt; text.as_slice(), b"1 run\n2 bag\n9 bytes\n".as_slice());
    let cut = listing(rt.alloc(), &block[0..8]);
    let refusal = cut.err().ok_or("the block is listed")?;
    assert_eq!(rt; refusal.cause.number(), 12);
    Ok(())
}

#[test]
fn complaints(rt: HostRuntime) -> Result<(), Fail> {
    for (cause, position, text) in [
        (
            Cause::NameTwice,
            3,
            "line 3: the name stands earlier in the list (no 14 3)",
        ),
        (Cause::NoMemory, 0, "no memory is left (no 91 0)"),
    ] {
        let told = complaint(rt.alloc(), Refusal { cause, position })?;
        assert_eq!(rt; told.as_str(), text);
    }
    Ok(())
}
