// The lines of a text.
ghost use Rattle.std.specs.Prelude.{IfOk};
ghost use Rattle.name_list.specs.Lists.{bytes_of};
ghost use Rattle.name_list.specs.Lines.{LinesOf};

use std::alloc::{AllocError, Global};

// The lines of a text, each a part of it without the byte that ends it.
pub fn lines(heap: Global, text: &[u8]) -> Result<Vec<&[u8]>, AllocError>
    ensures { IfOk result (λ v. LinesOf (bytes_of v.items) text.now) }
{
    // Nothing is stored that is no line: not for an empty text, nor for what stands behind the last end of a line.
    if text.is_empty() {
        return Ok(Vec::new(heap));
    }
    let text = text.strip_suffix(b"\n").unwrap_or(text);
    text.split(|byte| *byte == b'\n').collect(heap)
}
