// The entries of a block, and a glossary.
ghost use Rattle.std.specs.Prelude.{◌≤◌, length};
ghost use Rattle.glossary.specs.Checks.{NoneOf};
ghost use Rattle.glossary.specs.Format.{BlockOf};
ghost use Rattle.glossary.specs.Layout.{listed, Cut};
ghost use Rattle.glossary.specs.Limits.{head_size};

// The first `count` entries of a block, none of which is cut off. The block is here whole, since `name` promises where in it a name lies; `Names` is
// what is left of it as one goes over it.
#[derive(Clone, Copy)]
pub(crate) struct Entries<'a> {
    pub(crate) block: &'a [u8],
    pub(crate) count: u16,
    ghost headed: { head_size ≤ length block.now },
    ghost whole: { NoneOf (Cut block.now) count },
}

// A glossary: the entries of a block. Only `new` makes one, of a block that passes every check. Contracts say `names_of`, and the type has no view
// that is its names alone, since it stands for the places of the names in the block too.
#[derive(Clone, Copy)]
pub struct Glossary<'a> {
    pub(crate) entries: Entries<'a>,
    ghost of_names: { BlockOf (listed entries.block.now entries.count) entries.block.now },
}
