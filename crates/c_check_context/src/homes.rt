//! The storage that specifiers ask for, and what it makes of the home of a name (C99 6.2.2, 6.7.1).
#![tactic(auto)]

ghost use Rattle.std.specs.Prelude.{◌≡◌, map, option_copied, option_map};
ghost use Rattle.c_tree.specs.TypedViews.{typed_specifiers_view, typed_specifier_view, typed_specifiers_of};
ghost use Rattle.c_tree.specs.TypedTree as typed;
ghost use Rattle.c_tree.specs.TypedTree.{TypedSpecifierList};
ghost use Rattle.c_check_context.specs.CodeViews.{storage_view, stored_or};
ghost use Rattle.c_unit_typing.specs.DeclarationJudging as judging;
ghost use Rattle.c_unit_typing.specs.UnitRefusals as refusals;
ghost use Rattle.c_unit_typing.specs.Units as units;
ghost use Rattle.c_unit_typing.specs.Units.{Storage as SeenStorage};

use c_lexer::Keyword;
use c_tree::{TypedSpecifier, TypedSpecifiers};
use c_typing::{Declared, Naming};

/// What the storage word of a declaration asks for.
#[derive(Clone, Copy, Debug, PartialEq, Eq)]
pub enum Storage {
    /// None of the words.
    Unstored,
    /// `typedef`.
    AsTypedef,
    /// `extern`.
    AsExtern,
    /// `static`.
    AsStatic,
    /// `auto` and `register`.
    AsAutomatic,
}

fn storage_of_word(word: Keyword) -> Option<Storage>
    ensures { (before : SeenStorage) → units.storage_of_word word before
        ≡ stored_or (option_map storage_view result) before }
{
    match word {
        Keyword::Typedef => Some(Storage::AsTypedef),
        Keyword::Extern => Some(Storage::AsExtern),
        Keyword::Static => Some(Storage::AsStatic),
        Keyword::Auto | Keyword::Register => Some(Storage::AsAutomatic),
        _ => None,
    }
}

/// What a specifier asks for, if it is a storage word.
#[tactic(auto, using(c_tree::proofs::TypedViewLaws::typed_views))]
fn own_storage(specifier: &TypedSpecifier) -> Option<Storage>
    ensures { (all : TypedSpecifierList) → units.storage_of_list
        (typed.AndSpecifier all (typed_specifier_view specifier.now))
        ≡ stored_or (option_map storage_view result) (units.storage_of_list all) }
{
    match specifier {
        TypedSpecifier::Keyword(word) => storage_of_word(word.keyword),
        _ => None,
    }
}

/// The last storage word counts.
#[tactic(auto, using(c_tree::proofs::TypedPushLaws::typed_pushes))]
fn storage_of_list(list: &[TypedSpecifier]) -> Storage
    ensures { storage_view result ≡ units.storage_of_list
        (typed_specifiers_of (map typed_specifier_view list.now)) }
{
    let mut rest = list;
    'backwards: while let Some((last, before)) = rest.split_last() {
        match own_storage(last) {
            Some(storage) => return storage,
            None => rest = before,
        }
    }
    Storage::Unstored
}

/// What specifiers ask for by their storage word.
#[tactic(auto, using(c_tree::proofs::TypedViewLaws::typed_views))]
pub fn storage_of(specifiers: &TypedSpecifiers) -> Storage
    ensures { storage_view result ≡ units.storage_of (typed_specifiers_view specifiers.now) }
{
    storage_of_list(specifiers.list.as_slice())
}

/// What has linkage keeps the home of its first declaration.
fn first_home(first: Option<&Declared>) -> Naming
    ensures { result ≡ judging.first_home (option_copied first.entry) }
{
    match first {
        Some(Declared::Object(_, home)) => Naming::Known(*home),
        _ => Naming::Static,
    }
}

/// What the home of a name is to be, unless it is a function; `first` is the first declaration of the name with linkage.
pub fn naming_for(file: bool, storage: Storage, first: Option<&Declared>) -> Naming
    ensures { result ≡ judging.naming_for file (storage_view storage) (option_copied first.entry) }
{
    match storage {
        Storage::AsTypedef => Naming::None,
        Storage::AsExtern => first_home(first),
        Storage::AsStatic => {
            if file {
                first_home(first)
            } else {
                Naming::Static
            }
        }
        Storage::Unstored | Storage::AsAutomatic => {
            if file {
                first_home(first)
            } else {
                Naming::Local
            }
        }
    }
}

/// Whether an object has linkage.
pub(crate) fn is_linked_object(file: bool, storage: Storage) -> bool
    ensures { result ≡ judging.is_linked_object file (storage_view storage) }
{
    match storage {
        Storage::AsExtern => true,
        _ => file,
    }
}

/// Whether an object lives as long as the program.
pub fn is_lasting(file: bool, storage: Storage) -> bool
    ensures { result ≡ refusals.is_lasting file (storage_view storage) }
{
    match storage {
        Storage::AsStatic | Storage::AsExtern => true,
        _ => file,
    }
}
