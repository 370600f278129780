// A block of two names.
use crate::asking::{front, paired, refused};
use glossary::Glossary;
use std::test::Fail;

// run, bag
const BLOCK: [u8; 9] = [0x02, 0x03, 0x72, 0x75, 0x6E, 0x03, 0x62, 0x61, 0x67];

#[test]
fn labels_and_names(rt: HostRuntime) -> Result<(), Fail> {
    let glossary = Glossary::new(&BLOCK)?;
    assert_eq!(rt; glossary.count(), 2);
    paired(&rt, &glossary, 1, b"run")?;
    paired(&rt, &glossary, 2, b"bag")
}

#[test]
fn unknown_names(rt: HostRuntime) -> Result<(), Fail> {
    let glossary = Glossary::new(&BLOCK)?;
    for name in [
        "", "r", "ru", "runs", "unb", "Run", "rug", "bag-", "\u{3}run",
    ] {
        assert_eq!(rt; glossary.label(name.as_bytes()), None, "{}", name);
    }
    Ok(())
}

#[test]
fn unknown_labels(rt: HostRuntime) -> Result<(), Fail> {
    let glossary = Glossary::new(&BLOCK)?;
    for label in [0, 3, 4, 200, 201, 256, 257, u16::MAX] {
        assert_eq!(rt; glossary.name(label), None, "{}", label);
    }
    Ok(())
}

// The first name ends with byte 5, the second with byte 9.
#[test]
fn cut_anywhere(rt: HostRuntime) -> Result<(), Fail> {
    for (size, number, position) in [
        (0, 11, 0),
        (1, 12, 1),
        (2, 12, 1),
        (3, 12, 1),
        (4, 12, 1),
        (5, 12, 2),
        (6, 12, 2),
        (7, 12, 2),
        (8, 12, 2),
    ] {
        refused(&rt, Glossary::new(front(&BLOCK, size)?), number, position)?;
    }
    assert!(rt; Glossary::new(&BLOCK).is_ok());
    Ok(())
}
