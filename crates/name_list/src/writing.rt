// The block of a list of names.
ghost use Rattle.std.specs.Prelude.{◌≡◌, ◌≤◌, ◌++◌, length, not, position, IfOk, OnOk, MatchResult};
ghost use Rattle.glossary.specs.Checks.{NoneOf};
ghost use Rattle.glossary.specs.Format.{entry_of, written, BlockOf};
ghost use Rattle.glossary.specs.Limits.{max_name, max_names};
ghost use Rattle.glossary.specs.Names.{good_name};
ghost use Rattle.name_list.specs.Lists.{bytes_of, Bad, Refused};

use glossary::{Glossary, MAX_NAMES, is_name};
use refusal::{Cause, Refusal};
use std::alloc::{AllocError, Global};

// The first of the names that is none. One call of the library, as for the entries of a block: one function over any iterator would be longer than both.
fn first_bad(names: &[&[u8]]) -> Option<usize>
    ensures { result ≡ position (λ name. not (good_name name.now)) names.now }
{
    names.iter().position(|name| !is_name(name))
}

// Adds one name behind a byte with its length.
fn append(block: &mut Vec<u8>, name: &[u8]) -> Result<(), AllocError>
    requires { length name.now ≤ max_name }
    ensures { OnOk result (block.new.items ≡ block.old.items ++ entry_of name.now) }
{
    block.push(name.len() as u8)?;
    block.extend_from_slice(name)?;
    Ok(())
}

// The bytes of the block of names that pass the checks.
fn encode(heap: Global, names: &[&[u8]]) -> Result<Vec<u8>, AllocError>
    requires few { length (bytes_of names.now) ≤ max_names }
    requires good { NoneOf (Bad (bytes_of names.now)) (length (bytes_of names.now)) }
    ensures { IfOk result (λ v. v.items ≡ written (bytes_of names.now)) }
{
    let mut block = Vec::new(heap);
    block.push(names.len() as u8)?;
    for name in names {
        append(&mut block, name)?;
    }
    Ok(block)
}

// The block of the names, or why they have none.
pub fn write_block(heap: Global, names: &[&[u8]]) -> Result<Vec<u8>, Refusal>
    ensures { MatchResult result (λ v. BlockOf (bytes_of names.now) v.items) (λ x. Refused (bytes_of names.now) x) }
{
    if !(1..=usize::from(MAX_NAMES)).contains(&names.len()) {
        return Err(Cause::BlockSize.into());
    }
    if let Some(k) = first_bad(names) {
        return Err(Cause::NameForm.at(k + 1));
    }
    let block = encode(heap, names)?;
    Glossary::new(&block)?;
    Ok(block)
}
