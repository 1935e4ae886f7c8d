//! Which words may stand where (C99 6.7.1 to 6.7.3, 6.7.5.2), and the typedef names.
ghost use Rattle.std.specs.Prelude.{◌≡◌};
ghost use Rattle.c_tree.specs.Words as spec;
ghost use Rattle.c_parse_words.specs.Seen.{names_of, scope_view};

use c_lexer::Keyword;
use indexmap::IndexSet;

/// Where a list of specifiers stands.
#[derive(Clone, Copy)]
pub enum Scope {
    AtFile,
    /// In a block, in the first part of a `for`, or in a parameter.
    InBlock,
    /// In a type name or a member.
    InType,
}

/// Whether the name is one of a type.
pub fn is_type_name(names: &IndexSet<Vec<u8>>, bytes: &[u8]) -> bool
    ensures { result ≡ spec.is_type_name (names_of names.now) bytes.now }
{
    names.contains(bytes)
}

/// Whether the word says a type.
pub fn is_type_word(word: Keyword) -> bool
    ensures { result ≡ spec.is_type_word word }
{
    matches!(
        word,
        Keyword::Void
            | Keyword::Char
            | Keyword::Short
            | Keyword::Int
            | Keyword::Long
            | Keyword::Signed
            | Keyword::Unsigned
    )
}

/// Whether the word is `const`, `volatile` or `restrict`.
pub fn is_qualifier(word: Keyword) -> bool
    ensures { result ≡ spec.is_qualifier word }
{
    matches!(word, Keyword::Const | Keyword::Volatile | Keyword::Restrict)
}

fn is_storage_word(word: Keyword) -> bool
    ensures { result ≡ spec.is_storage_word word }
{
    matches!(
        word,
        Keyword::Auto | Keyword::Extern | Keyword::Register | Keyword::Static | Keyword::Inline
    )
}

/// Whether the word is `static`.
pub fn is_static_word(word: Keyword) -> bool
    ensures { result ≡ spec.is_static_word word }
{
    matches!(word, Keyword::Static)
}

/// Whether the word is `long`.
pub fn is_long_word(word: Keyword) -> bool
    ensures { result ≡ spec.is_long_word word }
{
    matches!(word, Keyword::Long)
}

fn has_storage_words(scope: Scope) -> bool
    ensures { result ≡ spec.has_storage_words (scope_view scope) }
{
    matches!(scope, Scope::AtFile | Scope::InBlock)
}

fn has_typedef_word(scope: Scope) -> bool
    ensures { result ≡ spec.has_typedef_word (scope_view scope) }
{
    matches!(scope, Scope::AtFile)
}

fn is_typedef_word(word: Keyword) -> bool
    ensures { result ≡ spec.is_typedef_word word }
{
    matches!(word, Keyword::Typedef)
}

/// Whether the word may stand among the specifiers of a list there.
pub fn may_specify(scope: Scope, word: Keyword) -> bool
    ensures { result ≡ spec.may_specify (scope_view scope) word }
{
    is_type_word(word)
        || is_qualifier(word)
        || (has_storage_words(scope) && is_storage_word(word))
        || (has_typedef_word(scope) && is_typedef_word(word))
}
