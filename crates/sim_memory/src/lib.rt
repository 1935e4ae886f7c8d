//! What one act of C on memory and one line of cured code leave: in related states both read the same, change alike, and the states
//! stay related. It has objects without tags and objects with tags, and it is laws alone; no program calls it.
#![tactic(auto)]

ghost use Rattle.sim_memory.specs.Laws.{PlacesAreFound, IntegersAreLoaded, PointersAreLoaded, IntegersAreStored, PointersAreStored, ObjectsAreCleared, StructsAreCopied, BlocksFitAlike, BlocksAreMade, BlocksOfBytes, BlocksOfElements, HeapIsKept, HeapIsKeptByCalls};
ghost use Rattle.sim_memory.specs.Wild.{WildBytesAreFound, TagsAreRead, BasesAreRead, WildPointersAreLoaded, WildIntegersAreLoaded, WildPointersAreStored, NullsAreStored, WildIntegersAreStored, WildObjectsAreCleared, TaggedBlocksFitAlike, TaggedBlocksAreMade, TaggedWordsAreCopied, PlainBytesAreCopied, TaggedPlainBytesAreCopied};

/// A pointer that may be held and is a place of its type has the address of its byte as its first word: a SAFE one, an RTTI one, and a
/// SEQ one that passed BOUNDS.
pub fn places_are_found()
    ensures { PlacesAreFound }
{}

/// A load of an integer leaves its bytes in a slot, with zeros above; a load of a pointer, of any kind, leaves its words in slots.
pub fn loads_are_alike()
    ensures integer { IntegersAreLoaded }
    ensures pointer { PointersAreLoaded }
{}

/// A store of an integer, of which the low bytes count, and of a pointer of any kind.
pub fn stores_are_alike()
    ensures integer { IntegersAreStored }
    ensures pointer { PointersAreStored }
{}

/// A whole object is cleared; a struct or union is copied with all pointers that it holds, between two objects or within one.
pub fn clearings_and_copies_are_alike()
    ensures clearing { ObjectsAreCleared }
    ensures copy { StructsAreCopied }
{}

/// The heap has room for a block exactly where C has, and a block is made for both, with tags or without. One without tags has as many
/// bytes once cured as before, if it is of a type without pointers, and else as many elements.
pub fn blocks_are_alike()
    ensures room { BlocksFitAlike }
    ensures made { BlocksAreMade }
    ensures tagged_room { TaggedBlocksFitAlike }
    ensures tagged { TaggedBlocksAreMade }
    ensures bytes { BlocksOfBytes }
    ensures elements { BlocksOfElements }
    ensures top { HeapIsKept }
    ensures calls { HeapIsKeptByCalls }
{}

/// What a WILD pointer that WBOUNDS lets pass points to is found; in it a word's tag says whether a pointer is stored there, and the base
/// word behind it is that pointer's second word. A pointer is loaded, and an integer where no pointer stands over its bytes.
pub fn tagged_words_are_read()
    ensures found { WildBytesAreFound }
    ensures tag { TagsAreRead }
    ensures base { BasesAreRead }
    ensures pointer { WildPointersAreLoaded }
    ensures integer { WildIntegersAreLoaded }
{}

/// A pointer is stored with its tag and its base word, a null pointer as zeros without one; an integer takes the tags of the words that it
/// touches away; a whole object is cleared; whole words are copied with the pointers in them; and bytes that are no pointer's are copied from
/// an object without tags, or from one with tags, which may be the same one, and take tags away as an integer does.
pub fn tagged_words_are_written()
    ensures pointer { WildPointersAreStored }
    ensures null { NullsAreStored }
    ensures integer { WildIntegersAreStored }
    ensures clearing { WildObjectsAreCleared }
    ensures copy { TaggedWordsAreCopied }
    ensures plain { PlainBytesAreCopied }
    ensures tagged_plain { TaggedPlainBytesAreCopied }
{}
