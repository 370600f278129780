// The names of entries that stand one behind the other.
ghost use Rattle.std.specs.Prelude.{◌≡◌, ◌+◌, ◌<◌, ◌≤◌, length, take, drop, slice_index, IfSome, IfNone};
ghost use Rattle.std.specs.Iterator.{YieldsFirstRef, at_most};
ghost use Rattle.glossary.specs.Meaning.{names_left};

// The names in the first `left` entries of the bytes, up to the first entry that is cut off.
#[derive(Drop)]
pub struct Names<'a> {
    pub(crate) bytes: &'a [u8],
    pub(crate) left: u16,
}

impl<'a> Iterator for Names<'a> {
    type Item = &'a [u8];

    ghost next_gives = { YieldsFirstRef names_left };

    ghost remaining = { λ s. at_most s.left };

    fn next(&mut self) -> Option<&'a [u8]> {
        self.left = self.left.checked_sub(1)?;
        let (name, others) = split_entry(self.bytes)?;
        self.bytes = others;
        Some(name)
    }
}

// The name in the first entry of the bytes, and what stands behind the entry, if it is not cut off.
pub(crate) fn split_entry(bytes: &[u8]) -> Option<(&[u8], &[u8])>
    ensures cut { IfNone result (length bytes.now < 1 + slice_index bytes.now 0) }
    ensures whole { IfSome result (λ _. 1 + slice_index bytes.now 0 ≤ length bytes.now) }
    ensures name { IfSome result (λ p. p.0.now ≡ take (slice_index bytes.now 0) (drop 1 bytes.now)) }
    ensures rest { IfSome result (λ p. p.1.now ≡ drop (1 + slice_index bytes.now 0) bytes.now) }
{
    let (size, rest) = bytes.split_first()?;
    rest.split_at_checked(usize::from(*size))
}
