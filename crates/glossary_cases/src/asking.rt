// What the tests ask of blocks and of lists of names.
use crate::making::numbered;
use glossary::Glossary;
use refusal::Refusal;
use std::process::Abort;
use std::test::Fail;

// The answer is a refusal with that number at that position. Where tests need memory too they hand on the heap beside `rt`, of which they ask only
// that it stops.
pub(crate) fn refused<T: Drop>(
    rt: &impl Abort,
    answer: Result<T, Refusal>,
    // The number is said as a reply shows it, apart from the names that the code has for it; so the two are no `Refusal`.
    number: u8,
    position: usize,
) -> Result<(), Fail> {
    let Err(refusal) = answer else {
        panic!(rt; "accepted, expected {number} at {position}");
    };
    assert_eq!(rt;
        (refusal.cause.number(), refusal.position),
        (number, position)
    );
    Ok(())
}

// The label and the name belong together.
pub(crate) fn paired(
    rt: &impl Abort,
    glossary: &Glossary<'_>,
    label: u16,
    name: &[u8],
) -> Result<(), Fail> {
    assert_eq!(rt; glossary.label(name), Some(label), "at the name {name:?}");
    assert_eq!(rt; glossary.name(label), Some(name), "at the label {label}");
    Ok(())
}

// The names are the first 200 that are numbered, in their order.
pub(crate) fn holds_full_list(rt: &impl Abort, glossary: &Glossary<'_>) -> Result<(), Fail> {
    assert_eq!(rt; glossary.count(), 200);
    for label in 1..201 {
        paired(rt, glossary, label, &numbered(label - 1))?;
    }
    assert_eq!(rt; glossary.label(&numbered(200)), None);
    assert!(rt; glossary.name(0).is_none());
    assert!(rt; glossary.name(201).is_none());
    Ok(())
}

// The first bytes of a block.
pub(crate) fn front(block: &[u8], size: usize) -> Result<&[u8], Fail> {
    Ok(block.get(0..size).ok_or("the block is too short")?)
}
