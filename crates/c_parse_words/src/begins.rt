//! What begins with the next token: an expression, a specifier, a declarator, its parts, an initialiser, an enumerator.
ghost use Rattle.std.specs.Prelude.{◌≡◌};
ghost use Rattle.std.specs.Option.{is_some};
ghost use Rattle.c_parse_words.specs.Seen.{next_view, names_of, scope_view, naming_view, start_view, specifier_start_view, core_start_view, part_start_view};
ghost use Rattle.c_parse_words.specs.Tests as spec;

use crate::lookahead::{is_close_paren, open_brace, open_bracket, star_sign};
use crate::next::Next;
use crate::words::{Scope, is_type_name, may_specify};
use c_lexer::{IntegerType, Keyword, Punctuator};
use c_tree::{AggregateKind, Unary, Word};
use cc_base::Place;
use indexmap::IndexSet;

/// How an expression begins.
#[derive(Clone, Copy)]
pub enum Start<'a> {
    Name(&'a [u8], Place),
    Integer(IntegerType, u64, Place),
    Character(i32, Place),
    Quoted(&'a [u8], Place),
    Paren(Place),
    Prefix(Unary, Place),
    SizeOf(Place),
    None,
}

fn start_of(punctuator: Punctuator, at: Place) -> Start<'static>
    ensures { start_view result ≡ spec.start_of punctuator at }
{
    match punctuator {
        Punctuator::OpenParen => Start::Paren(at),
        Punctuator::PlusPlus => Start::Prefix(Unary::Increment, at),
        Punctuator::MinusMinus => Start::Prefix(Unary::Decrement, at),
        Punctuator::And => Start::Prefix(Unary::AddressOf, at),
        Punctuator::Star => Start::Prefix(Unary::Dereference, at),
        Punctuator::Plus => Start::Prefix(Unary::Plus, at),
        Punctuator::Minus => Start::Prefix(Unary::Minus, at),
        Punctuator::Tilde => Start::Prefix(Unary::Complement, at),
        Punctuator::Not => Start::Prefix(Unary::Not, at),
        _ => Start::None,
    }
}

fn start_of_word(word: Keyword, at: Place) -> Start<'static>
    ensures { start_view result ≡ spec.start_of_word word at }
{
    match word {
        Keyword::Sizeof => Start::SizeOf(at),
        _ => Start::None,
    }
}

/// How the expression that comes begins. A typedef name begins none.
pub fn next_start<'a>(names: &IndexSet<Vec<u8>>, next: Next<'a>) -> Start<'a>
    ensures { start_view result ≡ spec.start (names_of names.now) (next_view next.entry) }
{
    match next {
        Next::Name(bytes, at) => {
            if is_type_name(names, bytes) {
                Start::None
            } else {
                Start::Name(bytes, at)
            }
        }
        Next::Integer(kind, value, at) => Start::Integer(kind, value, at),
        Next::Character(value, at) => Start::Character(value, at),
        Next::Quoted(bytes, at) => Start::Quoted(bytes, at),
        Next::Word(word, at) => start_of_word(word, at),
        Next::Mark(punctuator, at) => start_of(punctuator, at),
        Next::Bare(_) | Next::End => Start::None,
    }
}

/// Whether an expression begins.
pub fn begins_expr(names: &IndexSet<Vec<u8>>, next: Next<'_>) -> bool
    ensures { result ≡ spec.begins_expr (names_of names.now) (next_view next.entry) }
{
    !matches!(next_start(names, next), Start::None)
}

/// How a specifier begins.
#[derive(Clone, Copy)]
pub enum SpecifierStart<'a> {
    Word(Word),
    Typedef(&'a [u8], Place),
    Aggregate(AggregateKind, Place),
    Enum(Place),
    None,
}

fn specifier_start_of_word(scope: Scope, word: Keyword, at: Place) -> SpecifierStart<'static>
    ensures { specifier_start_view result ≡ spec.specifier_start_of_word
        (scope_view scope) word at }
{
    match word {
        Keyword::Struct => SpecifierStart::Aggregate(AggregateKind::Struct, at),
        Keyword::Union => SpecifierStart::Aggregate(AggregateKind::Union, at),
        Keyword::Enum => SpecifierStart::Enum(at),
        _ => {
            if may_specify(scope, word) {
                SpecifierStart::Word(Word {
                    keyword: word,
                    place: at,
                })
            } else {
                SpecifierStart::None
            }
        }
    }
}

/// How the specifier that comes begins, where the list stands there.
pub fn next_specifier<'a>(
    names: &IndexSet<Vec<u8>>,
    scope: Scope,
    next: Next<'a>,
) -> SpecifierStart<'a>
    ensures { specifier_start_view result ≡ spec.specifier_start (names_of names.now)
        (scope_view scope) (next_view next.entry) }
{
    match next {
        Next::Name(bytes, at) => {
            if is_type_name(names, bytes) {
                SpecifierStart::Typedef(bytes, at)
            } else {
                SpecifierStart::None
            }
        }
        Next::Word(word, at) => specifier_start_of_word(scope, word, at),
        _ => SpecifierStart::None,
    }
}

/// Whether a specifier begins that may stand there.
pub fn begins_specifier(names: &IndexSet<Vec<u8>>, scope: Scope, next: Next<'_>) -> bool
    ensures { result ≡ spec.begins_specifier (names_of names.now) (scope_view scope)
        (next_view next.entry) }
{
    !matches!(next_specifier(names, scope, next), SpecifierStart::None)
}

/// Whether a declarator has a name: it must, it must not, or it may.
#[derive(Clone, Copy)]
pub enum Naming {
    WithName,
    WithoutName,
    WithOrWithout,
}

fn may_name(naming: Naming) -> bool
    ensures { result ≡ spec.may_name (naming_view naming) }
{
    matches!(naming, Naming::WithName | Naming::WithOrWithout)
}

/// Whether the name may be left out.
pub fn may_omit_name(naming: Naming) -> bool
    ensures { result ≡ spec.may_omit_name (naming_view naming) }
{
    matches!(naming, Naming::WithoutName | Naming::WithOrWithout)
}

/// What stands in the middle of a declarator.
#[derive(Clone, Copy)]
pub enum CoreStart<'a> {
    Name(&'a [u8], Place),
    Paren(Place),
    None,
}

/// What stands in the middle of the declarator.
pub fn next_core<'a>(names: &IndexSet<Vec<u8>>, naming: Naming, next: Next<'a>) -> CoreStart<'a>
    ensures { core_start_view result ≡ spec.core_start (names_of names.now) (naming_view naming)
        (next_view next.entry) }
{
    match next {
        Next::Name(bytes, at) => {
            if may_name(naming) && !is_type_name(names, bytes) {
                CoreStart::Name(bytes, at)
            } else {
                CoreStart::None
            }
        }
        Next::Mark(Punctuator::OpenParen, at) => CoreStart::Paren(at),
        _ => CoreStart::None,
    }
}

/// Whether a declarator begins: a star, a name that may stand there, a parenthesis, or a bracket
/// where the name may be left out.
pub fn begins_declarator(names: &IndexSet<Vec<u8>>, naming: Naming, next: Next<'_>) -> bool
    ensures { result ≡ spec.begins_declarator (names_of names.now) (naming_view naming)
        (next_view next.entry) }
{
    star_sign(next).is_some()
        || !matches!(next_core(names, naming, next), CoreStart::None)
        || (may_omit_name(naming) && open_bracket(next).is_some())
}

/// Whether parameters come after a `(` in a declarator whose name may be left out, and no declarator.
pub fn begins_parameters(names: &IndexSet<Vec<u8>>, next: Next<'_>) -> bool
    ensures { result ≡ spec.begins_parameters (names_of names.now) (next_view next.entry) }
{
    is_close_paren(next) || begins_specifier(names, Scope::InBlock, next)
}

/// How an array or function part begins.
#[derive(Clone, Copy)]
pub enum PartStart {
    Array(Place),
    Function(Place),
    None,
}

/// How the part that comes begins.
pub fn next_part(next: Next<'_>) -> PartStart
    ensures { part_start_view result ≡ spec.part_start (next_view next.entry) }
{
    match next {
        Next::Mark(Punctuator::OpenBracket, at) => PartStart::Array(at),
        Next::Mark(Punctuator::OpenParen, at) => PartStart::Function(at),
        _ => PartStart::None,
    }
}

/// Whether an array or function part begins.
pub fn begins_part(next: Next<'_>) -> bool
    ensures { result ≡ spec.begins_part (next_view next.entry) }
{
    !matches!(next_part(next), PartStart::None)
}

/// Whether a `.` or a `[` comes, which would begin a designator.
pub fn is_designator(next: Next<'_>) -> bool
    ensures { result ≡ spec.is_designator (next_view next.entry) }
{
    matches!(
        next,
        Next::Mark(Punctuator::Dot | Punctuator::OpenBracket, _)
    )
}

/// Whether an initialiser begins.
pub fn begins_initialiser(names: &IndexSet<Vec<u8>>, next: Next<'_>) -> bool
    ensures { result ≡ spec.begins_initialiser (names_of names.now) (next_view next.entry) }
{
    open_brace(next).is_some() || begins_expr(names, next)
}

/// Whether a name comes that is no type.
pub fn begins_enumerator(names: &IndexSet<Vec<u8>>, next: Next<'_>) -> bool
    ensures { result ≡ is_some (spec.plain_name (names_of names.now) (next_view next.entry)) }
{
    match next {
        Next::Name(bytes, _) => !is_type_name(names, bytes),
        _ => false,
    }
}
