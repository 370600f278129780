// What a name may be made of.
ghost use Rattle.std.specs.Prelude.{◌≡◌};
ghost use Rattle.glossary.specs.Names.{name_byte, all_name_bytes, good_name};

use crate::limits::MAX_NAME;

fn is_name_byte(byte: u8) -> bool
    ensures { result ≡ name_byte byte }
{
    matches!(byte, b'a'..=b'z' | b'0'..=b'9' | b'-')
}

fn all_name_bytes(bytes: &[u8]) -> bool
    ensures { result ≡ all_name_bytes bytes.now }
{
    bytes.iter().all(|byte| is_name_byte(*byte))
}

// Whether the bytes are a name: a letter first, not too many, and name bytes throughout.
pub fn is_name(bytes: &[u8]) -> bool
    ensures { result ≡ good_name bytes.now }
{
    bytes
        .first()
        .is_some_and(|first| first.is_ascii_lowercase())
        && bytes.len() <= MAX_NAME
        && all_name_bytes(bytes)
}
