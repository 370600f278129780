// Names, lists and blocks for the tests, made by the rules of the format alone.
use std::alloc::Global;
use std::convert::AsSlice;
use std::test::Fail;

// The last digit of a number.
fn digit(number: u16) -> u8 {
    b'0' + (number % 10) as u8
}

// A good name for each number below 1000: `n` and three digits.
pub(crate) fn numbered(number: u16) -> [u8; 4] {
    [b'n', digit(number / 100), digit(number / 10), digit(number)]
}

// The names of the numbers below `count`, in their order.
pub(crate) fn numbered_list(heap: Global, count: u16) -> Result<Vec<[u8; 4]>, Fail> {
    Ok((0..count).map(numbered).collect(heap)?)
}

// The names as a list of slices.
pub(crate) fn slices(heap: Global, names: &[[u8; 4]]) -> Result<Vec<&[u8]>, Fail> {
    Ok(names.iter().map(|name| name.as_slice()).collect(heap)?)
}

// Adds a name behind a byte with its length.
pub(crate) fn append(block: &mut Vec<u8>, name: &[u8]) -> Result<(), Fail> {
    block.push(u8::try_from(name.len())?)?;
    block.extend_from_slice(name)?;
    Ok(())
}

// The block of a list of names, good or bad.
pub(crate) fn block_of<N: AsSlice<u8>>(heap: Global, names: &[N]) -> Result<Vec<u8>, Fail> {
    let mut block = Vec::new(heap);
    block.push(u8::try_from(names.len())?)?;
    for name in names {
        append(&mut block, name.as_slice())?;
    }
    Ok(block)
}
