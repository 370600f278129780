// The sizes of a block: the only place where the code has them as numbers.

// the bytes of a whole block, at most
pub const MAX_BLOCK: usize = 4096;

// the bytes before the first name, which hold the count of names
pub const HEAD_SIZE: usize = 1;

// the names of a block, at most
pub const MAX_NAMES: u16 = 200;

// the bytes of one name, at most
pub const MAX_NAME: usize = 16;
