// The checks go in the order of their numbers, each over the whole block.
use crate::asking::refused;
use glossary::Glossary;
use std::test::Fail;

// The count goes before all else, and a name past the end before the forms of the names.
#[test]
fn of_counts_and_ends(rt: HostRuntime) -> Result<(), Fail> {
    refused(&rt, Glossary::new(&[0]), 11, 0)?;
    refused(&rt, Glossary::new(&[0, 1, b'a']), 11, 0)?;
    refused(&rt, Glossary::new(&[201, 1, b'A']), 11, 0)?;
    refused(&rt, Glossary::new(&[255]), 11, 0)?;
    refused(&rt, Glossary::new(&[200]), 12, 1)?;
    refused(&rt, Glossary::new(&[1, 1]), 12, 1)?;
    refused(&rt, Glossary::new(&[1, 17]), 12, 1)?;
    refused(&rt, Glossary::new(&[1, 255, b'A']), 12, 1)?;
    refused(&rt, Glossary::new(&[2, 1, b'A']), 12, 2)?;
    refused(&rt, Glossary::new(&[3, 0, 0, 1]), 12, 3)
}

// Bytes behind the last name go before the forms, and the forms before repeated names.
#[test]
fn of_forms_and_repeats(rt: HostRuntime) -> Result<(), Fail> {
    refused(&rt, Glossary::new(&[1, 0, 0]), 12, 0)?;
    refused(&rt, Glossary::new(&[2, 1, b'a', 1, b'a', 0]), 12, 0)?;
    refused(&rt, Glossary::new(&[1, 0]), 13, 1)?;
    refused(&rt, Glossary::new(&[2, 0, 0]), 13, 1)?;
    refused(&rt, Glossary::new(&[2, 1, b'a', 0]), 13, 2)?;
    refused(&rt, Glossary::new(&[3, 1, b'a', 1, b'a', 1, b'A']), 13, 3)?;
    refused(&rt, Glossary::new(&[3, 1, b'a', 1, b'b', 1, b'a']), 14, 3)?;
    refused(&rt, Glossary::new(&[3, 1, b'a', 1, b'a', 1, b'a']), 14, 2)?;
    let two_pairs = [4, 1, b'a', 1, b'b', 1, b'b', 1, b'a'];
    refused(&rt, Glossary::new(&two_pairs), 14, 3)
}
