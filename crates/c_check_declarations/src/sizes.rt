//! The size that an initialiser gives to an array (C99 6.7.8).
#![tactic(auto)]

ghost use Rattle.std.specs.Prelude.{◌≡◌, ◌+◌, length, map, option_copied, option_map, IfOk};
ghost use Rattle.c_types.specs.Table.{shape_at};
ghost use Rattle.c_tree.specs.Literals.{pieces_bytes};
ghost use Rattle.c_tree.specs.StatementViews.{initialiser_view, items_of};
ghost use Rattle.c_tree.specs.Tree as tree;
ghost use Rattle.c_tree.specs.Views.{core_view, declarator_view, expr_view};
ghost use Rattle.c_check_declarations.specs.ListedViews.{only_literal};
ghost use Rattle.c_typing.specs.KindViews.{shape_or_void};
ghost use Rattle.c_unit_typing.specs.Initialisers as initialisers;
ghost use Rattle.c_unit_typing.specs.UnitRefusals as refusals;

use c_tree::{Core, Declarator, Expr, Initialiser, Part, StringPiece, pieces_bytes};
use c_types::{TypeShape, Types};
use c_typing::shapes::shape_at;
use cc_base::{NoMemory, TypeId};
use std::alloc::Global;

/// Whether a declarator is its name alone.
#[cycle(bare)]
#[tactic(auto, using(c_tree::proofs::ViewLaws::expr_views, c_tree::proofs::PushLaws::pushes, crate::proofs::DeclaratorLaws::bare_without_parts))]
fn is_bare(d: &Declarator) -> bool
    ensures { result ≡ initialisers.is_bare (declarator_view d.now) }
{
    if d.stars.as_slice().split_first().is_some() {
        return false;
    }
    match d.parts.as_slice().split_last() {
        None => is_bare_core(&d.core),
        Some(_) => false,
    }
}

#[cycle(bare)]
#[tactic(auto, using(c_tree::proofs::ViewLaws::expr_views))]
fn is_bare_core(core: &Core) -> bool
    ensures { result ≡ initialisers.is_bare_core (core_view core.now) }
{
    match core {
        Core::Names(_) => true,
        Core::Unnamed => true,
        Core::Nested(_, d) => is_bare(d.get()),
    }
}

/// Whether a declarator makes an array without a size, and nothing else.
#[cycle(one_array)]
#[tactic(auto, using(c_tree::proofs::ViewLaws::expr_views, c_tree::proofs::PushLaws::pushes, crate::proofs::DeclaratorLaws::array_alone))]
fn is_one_array(d: &Declarator) -> bool
    ensures { result ≡ initialisers.is_one_array (declarator_view d.now) }
{
    if d.stars.as_slice().split_first().is_some() {
        return false;
    }
    match d.parts.as_slice().split_last() {
        None => is_one_array_core(&d.core),
        Some((Part::Array(_, _, None), before)) => match before.split_last() {
            None => is_bare_core(&d.core),
            Some(_) => false,
        },
        Some((Part::Array(_, _, Some(_)), _)) => false,
        Some((Part::Function(_, _), _)) => false,
    }
}

#[cycle(one_array)]
#[tactic(auto, using(c_tree::proofs::ViewLaws::expr_views))]
fn is_one_array_core(core: &Core) -> bool
    ensures { result ≡ initialisers.is_one_array_core (core_view core.now) }
{
    match core {
        Core::Names(_) => false,
        Core::Unnamed => false,
        Core::Nested(_, d) => is_one_array(d.get()),
    }
}

fn is_char(shape: Option<&TypeShape>) -> bool
    ensures { result ≡ initialisers.is_char_shape (shape_or_void (option_copied shape.entry)) }
{
    match shape {
        Some(TypeShape::Integer { bytes, .. }) => *bytes == 1,
        _ => false,
    }
}

/// Whether a declarator makes an array of char of this type.
pub(crate) fn makes_chars(types: &Types, base: TypeId, d: &Declarator) -> bool
    ensures { result ≡ initialisers.makes_chars types.now base (declarator_view d.now) }
{
    is_one_array(d) && is_char(shape_at(types, base))
}

/// How many characters a literal has, the zero byte among them.
fn text_size(alloc: Global, pieces: &[StringPiece]) -> Result<u64, NoMemory>
    ensures { IfOk result (λ n. n ≡ length (pieces_bytes pieces.now) + 1) }
{
    let bytes = pieces_bytes(alloc, pieces)?;
    Ok(bytes.len() as u64 + 1)
}

/// The literal that stands in braces by itself.
#[tactic(auto, using(c_tree::proofs::StatementViewLaws::statement_views, c_tree::proofs::ViewLaws::expr_views, c_tree::proofs::PushLaws::pushes))]
pub(crate) fn only_literal(items: &[Initialiser]) -> Option<&[StringPiece]>
    ensures { option_map (λ pieces. pieces.now) result
        ≡ only_literal (items_of (map initialiser_view items.now)) }
{
    match items.split_last() {
        Some((Initialiser::Value(Expr::String(pieces)), before)) => match before.split_last() {
            None => Some(pieces.as_slice()),
            Some(_) => None,
        },
        _ => None,
    }
}

/// The size that is listed in braces: how many items there are, or the size of a literal for an array of char.
#[tactic(auto, using(crate::proofs::LiteralLaws::literal_size, crate::proofs::LiteralLaws::other_size, crate::proofs::LiteralLaws::count_listed))]
fn listed_written(alloc: Global, of_char: bool, items: &[Initialiser]) -> Result<u64, NoMemory>
    ensures { IfOk result (λ n. n ≡ refusals.listed_written of_char
        (items_of (map initialiser_view items.now))) }
{
    match only_literal(items) {
        Some(pieces) if of_char => text_size(alloc, pieces),
        _ => Ok(items.len() as u64),
    }
}

/// The size that an expression without braces gives: a literal for an array of char has one.
#[tactic(auto, using(c_tree::proofs::ViewLaws::expr_views))]
fn value_written(alloc: Global, of_char: bool, e: &Expr) -> Result<Option<u64>, NoMemory>
    ensures { IfOk result (λ size. size ≡ refusals.size_written of_char
        (tree.Value (expr_view e.now))) }
{
    match e {
        Expr::String(pieces) if of_char => Ok(Some(text_size(alloc, pieces.as_slice())?)),
        _ => Ok(None),
    }
}

/// The size that an initialiser gives to an array part without one, of char or not.
#[tactic(auto, using(c_tree::proofs::StatementViewLaws::statement_views))]
pub(crate) fn size_written(
    alloc: Global,
    of_char: bool,
    i: &Initialiser,
) -> Result<Option<u64>, NoMemory>
    ensures { IfOk result (λ size. size ≡ refusals.size_written of_char (initialiser_view i.now)) }
{
    match i {
        Initialiser::Value(e) => value_written(alloc, of_char, e),
        Initialiser::Listed(_, items, _) => {
            Ok(Some(listed_written(alloc, of_char, items.as_slice())?))
        }
    }
}
