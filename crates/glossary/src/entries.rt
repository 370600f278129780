// The entries of a block.
ghost use Rattle.std.specs.Prelude.{◌≡◌, ◌+◌, ◌<◌, ◌≤◌, length, IfOk};
ghost use Rattle.std.specs.Result.{IfErr};
ghost use Rattle.refusal.specs.declared.cause.Cause.TheVariants.{BlockEnd};
ghost use Rattle.glossary.specs.Limits.{head_size};
ghost use Rattle.glossary.specs.Checks.{FirstIn, NoneOf, IfSome};
ghost use Rattle.glossary.specs.Layout.{start, name_at, listed, Cut, Bad, Repeated};
ghost use Rattle.glossary.specs.Meaning.{names_left};

use crate::base::Entries;
use crate::forms::is_name;
use crate::limits::HEAD_SIZE;
use crate::names::{Names, split_entry};
use refusal::{Cause, Refusal};

impl<'a> Entries<'a> {
    // The `count` entries of a block that has nothing behind them. That they are those of this block no type can know.
    pub(crate) fn read(block: &'a [u8], count: u16) -> Result<Entries<'a>, Refusal>
        requires { head_size ≤ length block.now }
        ensures same { IfOk result (λ e. (e.block.now ≡ block.now) × (e.count ≡ count)) }
        ensures filled { IfOk result (λ _. start block.now count ≡ length block.now) }
        ensures refused { IfErr result (λ x. IfSome (Cut block.now) count (λ k. x ≡ record { cause = BlockEnd; position = k + 1 }) ((start block.now count < length block.now) × (x ≡ record { cause = BlockEnd; position = 0 }))) }
    {
        let mut rest = &block[HEAD_SIZE..];
        // The loop counts, since a refusal names the entry by its number.
        for k in 0..count {
            (_, rest) = split_entry(rest).ok_or(Cause::BlockEnd.at(usize::from(k) + 1))?;
        }
        if !rest.is_empty() {
            return Err(Cause::BlockEnd.into());
        }
        Ok(Entries { block, count })
    }

    // The names of the entries.
    pub(crate) fn names(&self) -> Names<'a>
        ensures { names_left result ≡ listed self.now.block.now self.now.count }
    {
        Names {
            bytes: &self.block[HEAD_SIZE..],
            left: self.count,
        }
    }

    // The first name that is none.
    pub(crate) fn first_bad(&self) -> Option<usize>
        ensures { FirstIn (Bad self.now.block.now) self.now.count result }
    {
        self.names().position(|name| !is_name(name))
    }

    // The first name that is `sought`.
    pub(crate) fn find(&self, sought: &[u8]) -> Option<usize>
        ensures { FirstIn (λ k. name_at self.now.block.now k ≡ sought.now) self.now.count result }
    {
        self.names().position(|name| name == sought)
    }

    // The first name that stands earlier too.
    pub(crate) fn first_repeated(&self) -> Option<usize>
        ensures { FirstIn (Repeated self.now.block.now) self.now.count result }
    {
        self.names()
            .enumerate()
            .position(|(k, name)| self.find(name).is_some_and(|first| first < k))
    }
}
