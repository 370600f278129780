// What a person reads of a refusal.
use crate::cause::Cause;
use crate::refusing::Refusal;
use std::test::Fail;

#[test]
fn replies(rt: HostRuntime) -> Result<(), Fail> {
    let heap = rt.alloc();
    for (cause, position, reply) in [
        (Cause::BlockSize, 0, "no 11 0"),
        (Cause::NameTwice, 200, "no 14 200"),
        (Cause::UnknownName, 13, "no 24 13"),
        (Cause::TooManyRows, 211, "no 25 211"),
        (Cause::NoMemory, 0, "no 91 0"),
        (Cause::LineForm, usize::MAX, "no 71 18446744073709551615"),
    ] {
        let refusal = Refusal { cause, position };
        assert!(rt; format!(in heap; "{refusal}")?.as_str() == reply);
    }
    let cause = Cause::StoreFull;
    assert!(rt; format!(in heap; "{cause}")?.as_str() == "the store is full");
    Ok(())
}
