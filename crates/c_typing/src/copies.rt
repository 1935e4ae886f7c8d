//! Leaves of the tree that the typed tree has again.
#![tactic(auto)]

ghost use Rattle.std.specs.Prelude.{◌≡◌, IfOk, option_copied};

use c_tree::{Identifier, Items, Star, Word};
use cc_base::NoMemory;
use std::alloc::Global;

/// A copy of a name.
pub fn copied_name(alloc: Global, name: &Identifier) -> Result<Identifier, NoMemory>
    ensures { IfOk result (λ copy. copy ≡ name.now) }
{
    let bytes = Items::from_slice(alloc, name.bytes.as_slice())?;
    Ok(Identifier {
        bytes,
        place: name.place,
    })
}

/// A tag that may be left out.
pub fn copied_tag(alloc: Global, tag: Option<&Identifier>) -> Result<Option<Identifier>, NoMemory>
    ensures { IfOk result (λ copy. copy ≡ option_copied tag.entry) }
{
    match tag {
        Some(name) => Ok(Some(copied_name(alloc, name)?)),
        None => Ok(None),
    }
}

/// A copy of the words of an array part.
pub fn copied_words(alloc: Global, words: &[Word]) -> Result<Items<Word>, NoMemory>
    ensures { IfOk result (λ copy. copy ≡ words.now) }
{
    Ok(Items::from_slice(alloc, words)?)
}

/// A copy of a star with its qualifiers.
pub fn copied_star(alloc: Global, star: &Star) -> Result<Star, NoMemory>
    ensures { IfOk result (λ copy. copy ≡ star.now) }
{
    let qualifiers = Items::from_slice(alloc, star.qualifiers.as_slice())?;
    Ok(Star {
        place: star.place,
        qualifiers,
    })
}
