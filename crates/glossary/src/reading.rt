// Reading a block.
ghost use Rattle.std.specs.Prelude.{◌≡◌, ℕ, List, IfOk, Option, MatchResult};
ghost use Rattle.std.specs.Result.{result_err};
ghost use Rattle.glossary.specs.Format.{BlockOf};
ghost use Rattle.glossary.specs.Layout.{count_in, Judged};
ghost use Rattle.glossary.specs.Meaning.{names_of};

use crate::base::{Entries, Glossary};
use crate::limits::{HEAD_SIZE, MAX_BLOCK, MAX_NAMES};
use refusal::{Cause, Refusal};

// The checks in their order, and the entries where all pass.
fn judge(block: &[u8]) -> Result<Entries<'_>, Refusal>
    ensures judged { Judged block.now (result_err result) }
    ensures same { IfOk result (λ e. (e.block.now ≡ block.now) × (e.count ≡ count_in block.now)) }
{
    // One check for both ends of the size, after which the first byte is there.
    if !(HEAD_SIZE..=MAX_BLOCK).contains(&block.len()) {
        return Err(Cause::BlockSize.into());
    }
    let count = u16::from(block[0]);
    if !(1..=MAX_NAMES).contains(&count) {
        return Err(Cause::BlockSize.into());
    }
    let entries = Entries::read(block, count)?;
    if let Some(k) = entries.first_bad() {
        return Err(Cause::NameForm.at(k + 1));
    }
    if let Some(k) = entries.first_repeated() {
        return Err(Cause::NameTwice.at(k + 1));
    }
    Ok(entries)
}

impl<'a> Glossary<'a> {
    // Reads a block: accepted exactly if it is the block of a list of good names, and then it stands for that list;
    // otherwise refused by the first check that fails.
    pub fn new(block: &'a [u8]) -> Result<Glossary<'a>, Refusal>
        ensures judged { Judged block.now (result_err result) }
        ensures alone { (v : Option Refusal) → Judged block.now v → v ≡ result_err result }
        ensures stands_for { IfOk result (λ g. (g.entries.block.now ≡ block.now) × BlockOf (names_of g) block.now) }
        ensures accepts { (names : List (List ℕ)) → BlockOf names block.now → MatchResult result (λ g. names_of g ≡ names) (λ _. ⊥) }
    {
        let entries = judge(block)?;
        Ok(Glossary { entries })
    }
}
