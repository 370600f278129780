// Text for a person: the rows of a block, and what is wrong with a list.
ghost use Rattle.std.specs.Prelude.{◌≡◌, ℕ, List, ◌++◌, length, IfOk, OnOk, Some, Err, string_bytes, MatchResult};
ghost use Rattle.refusal.specs.Memory.{no_memory};
ghost use Rattle.glossary.specs.Format.{BlockOf};
ghost use Rattle.glossary.specs.Layout.{Judged};
ghost use Rattle.glossary.specs.Meaning.{names_of};
ghost use Rattle.name_list.specs.Shown.{row, rows, listing_of, complaint_of};

use glossary::Glossary;
use refusal::Refusal;
use std::alloc::{AllocError, Global};

// Adds the row of one label. A name is bytes, which no `write!` or `format!` takes.
fn append_row(heap: Global, text: &mut Vec<u8>, label: usize, name: &[u8]) -> Result<(), AllocError>
    ensures { OnOk result (text.new.items ≡ text.old.items ++ row label name.now) }
{
    let label = format!(in heap; "{label} ")?;
    text.extend_from_slice(label.as_bytes())?;
    text.extend_from_slice(name)?;
    text.push(b'\n')?;
    Ok(())
}

// The rows of all labels.
fn all_rows(heap: Global, glossary: &Glossary<'_>) -> Result<Vec<u8>, AllocError>
    ensures { IfOk result (λ t. t.items ≡ rows (names_of glossary.now) (length (names_of glossary.now))) }
{
    let mut text = Vec::new(heap);
    for (k, name) in glossary.names().enumerate() {
        append_row(heap, &mut text, k + 1, name)?;
    }
    Ok(text)
}

// A row for each label, then the size of the block.
fn describe(heap: Global, glossary: &Glossary<'_>, size: usize) -> Result<Vec<u8>, AllocError>
    ensures { IfOk result (λ t. t.items ≡ listing_of (names_of glossary.now) size) }
{
    let mut text = all_rows(heap, glossary)?;
    let size = format!(in heap; "{size} bytes\n")?;
    text.extend_from_slice(size.as_bytes())?;
    Ok(text)
}

// What a block holds. A bad block is refused as the glossary refuses it.
pub fn listing(heap: Global, block: &[u8]) -> Result<Vec<u8>, Refusal>
    ensures shown { (names : List (List ℕ)) → BlockOf names block.now → MatchResult result (λ t. t.items ≡ listing_of names (length block.now)) (λ x. x ≡ no_memory) }
    ensures refused { (x : Refusal) → Judged block.now (Some x) → result ≡ Err x }
{
    let glossary = Glossary::new(block)?;
    Ok(describe(heap, &glossary, block.len())?)
}

// What is wrong with a list of names, one a line. A type with `Display` would only move this match.
pub fn complaint(heap: Global, refusal: Refusal) -> Result<String, AllocError>
    ensures { IfOk result (λ s. string_bytes s ≡ complaint_of refusal) }
{
    let Refusal { cause, position } = refusal;
    match position {
        0 => format!(in heap; "{cause} ({refusal})"),
        line => format!(in heap; "line {line}: {cause} ({refusal})"),
    }
}
