// Labels and names.
ghost use Rattle.std.specs.Prelude.{◌≡◌, ℕ, length, take, drop, IfSome, Some};
ghost use Rattle.std.specs.Option.{option_map};
ghost use Rattle.glossary.specs.Meaning.{names_of, names_left, offset_of};
ghost use Rattle.glossary.specs.Names.{name_of, label_of};

use crate::base::Glossary;
use crate::names::Names;

impl<'a> Glossary<'a> {
    // How many names there are; the labels are the numbers from 1 to this.
    #[tactic(auto, using(crate::proofs::Readback::length_listed))]
    pub fn count(&self) -> u16
        ensures { result ≡ length (names_of self.now) }
    {
        self.entries.count
    }

    // The names, in the order of their labels.
    pub fn names(&self) -> Names<'a>
        ensures { names_left result ≡ names_of self.now }
    {
        self.entries.names()
    }

    // The label of a name. It is the only one, and `name` gives the name back.
    pub fn label(&self, name: &[u8]) -> Option<u16>
        ensures value { result ≡ label_of (names_of self.now) name.now }
        ensures back { (l : ℕ) → result ≡ Some l → name_of (names_of self.now) l ≡ Some name.now }
        ensures only { (l : ℕ) → name_of (names_of self.now) l ≡ Some name.now → result ≡ Some l }
    {
        let k = self.entries.find(name)?;
        Some(k as u16 + 1)
    }

    // The name of a label: the part of the block that begins at the label's offset.
    pub fn name(&self, label: u16) -> Option<&'a [u8]>
        ensures value { option_map (λ x. x.now) result ≡ name_of (names_of self.now) label }
        ensures place { IfSome result (λ name. name.now ≡ take (length name.now) (drop (offset_of self.now label) self.now.entries.block.now)) }
    {
        // A label that there is not takes no walk over the block.
        if label > self.count() {
            return None;
        }
        let k = label.checked_sub(1)?;
        self.names().nth(usize::from(k))
    }
}
