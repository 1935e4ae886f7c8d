//! Initialisers (C99 6.7.8).
#![tactic(auto)]

ghost use Rattle.std.specs.Prelude.{◌≡◌, ◌&&◌, map, true};
ghost use Rattle.c_types.specs.Table.{shape_at};
ghost use Rattle.c_tree.specs.Tree as tree;
ghost use Rattle.c_tree.specs.TypedTree as typed;
ghost use Rattle.c_tree.specs.Views.{added, expr_view};
ghost use Rattle.c_tree.specs.StatementViews.{initialiser_view, items_of};
ghost use Rattle.c_tree.specs.TypedViews.{typed_expr_view, typed_place_view};
ghost use Rattle.c_tree.specs.TypedStatementViews.{typed_initialiser_view, typed_item_view};
ghost use Rattle.c_check_context.specs.ContextViews.{state_of};
ghost use Rattle.c_unit_typing.specs.Initialisers.{items_count, is_char_array};
ghost use Rattle.c_unit_typing.specs.UnitJudging.{Answers, Gives, UnitState};
ghost use Rattle.c_unit_typing.specs.InitialiserJudging as judging;

use crate::constants::is_constant;
use crate::sizes::only_literal;
use crate::slots::{char_count, item_slot};
use crate::texts::text;
use c_check_context::Context;
use c_tree::{Boxed, Expr, Initialiser, Items, TypedExpr, TypedInitialiser, TypedItem, TypedPlace};
use c_types::Types;
use c_typing::shapes::{is_scalar, shape_at};
use c_typing::stops::{no_room, refusal};
use cc_base::{Fault, Place, Rule, TypeId};

/// The first place of a text.
const NOWHERE: Place = Place { line: 1, col: 1 };

/// Whether what is listed for a type is a literal for the whole of it.
#[tactic(auto, using(crate::proofs::LiteralLaws::is_literal, crate::proofs::LiteralLaws::is_no_literal))]
fn is_text(types: &Types, items: &[Initialiser], t: TypeId) -> bool
    ensures { result ≡ (judging.is_only_literal (items_of (map initialiser_view items.now)) &&
        is_char_array types.now t) }
{
    match only_literal(items) {
        Some(_) => char_count(types, t).is_some(),
        None => false,
    }
}

/// A struct is copied, and the pointers that it holds are counted.
#[tactic(auto, using(c_tree::proofs::TypedViewLaws::typed_views, c_tree::proofs::TypedStatementViewLaws::typed_statement_views), unfolding(c_unit_typing::specs::InitialiserJudging::initialised))]
fn copied(
    context: &mut Context,
    at: Place,
    p: Boxed<TypedPlace>,
) -> Result<Boxed<TypedInitialiser>, Fault>
    ensures { Answers typed_initialiser_view (judging.initialised at
        (typed.Unread (typed_place_view p)) (state_of context.old)) result (state_of context.new) }
{
    context.count_cells(at, p.get().ty())?;
    let copied = TypedInitialiser::Copied(p.into_inner(), at);
    Ok(Boxed::new(context.scope.alloc(), copied)?)
}

/// A struct is copied, a value is taken.
#[tactic(auto, using(c_tree::proofs::TypedViewLaws::typed_views, c_tree::proofs::TypedStatementViewLaws::typed_statement_views), unfolding(c_unit_typing::specs::InitialiserJudging::initialised))]
fn initialised(
    context: &mut Context,
    at: Place,
    e: Boxed<TypedExpr>,
) -> Result<Boxed<TypedInitialiser>, Fault>
    ensures { Answers typed_initialiser_view (judging.initialised at (typed_expr_view e)
        (state_of context.old)) result (state_of context.new) }
{
    match e.into_inner() {
        TypedExpr::Unread(p) => copied(context, at, p),
        e => Ok(Boxed::new(context.scope.alloc(), TypedInitialiser::Value(e))?),
    }
}

/// A value that is converted to the type at the place; `constant` says that it has to be constant.
#[tactic(auto, unfolding(c_unit_typing::specs::InitialiserJudging::value_for))]
fn value_for(
    context: &mut Context,
    constant: bool,
    at: Place,
    t: TypeId,
    e: &Expr,
) -> Result<Boxed<TypedInitialiser>, Fault>
    ensures { Answers typed_initialiser_view (judging.value_for constant at t (expr_view e.now)
        (state_of context.old)) result (state_of context.new) }
{
    let v = context.value(t, at, true, e)?;
    if constant && !is_constant(&context.types, &context.linkage.statics, v.get()) {
        return Err(refusal(e.place(), Rule::NotConstant));
    }
    initialised(context, at, v)
}

/// A literal for an array of so many characters, or a value.
#[tactic(auto, using(c_tree::proofs::ViewLaws::expr_views), unfolding(c_unit_typing::specs::InitialiserJudging::value_or_text))]
fn value_or_text(
    context: &mut Context,
    constant: bool,
    at: Place,
    t: TypeId,
    e: &Expr,
    count: Option<u64>,
) -> Result<Boxed<TypedInitialiser>, Fault>
    ensures { Answers typed_initialiser_view (judging.value_or_text constant at t
        (expr_view e.now) count (state_of context.old)) result (state_of context.new) }
{
    match (e, count) {
        (Expr::String(pieces), Some(count)) => text(context, at, count, pieces.as_slice()),
        _ => value_for(context, constant, at, t, e),
    }
}

/// What there is no room for.
#[tactic(auto, unfolding(c_unit_typing::specs::InitialiserJudging::excess))]
fn excess(context: &mut Context, at: Place, e: &Expr) -> Result<Boxed<TypedInitialiser>, Fault>
    ensures { Answers typed_initialiser_view (judging.excess at (expr_view e.now)
        (state_of context.old)) result (state_of context.new) }
{
    context.expr(e)?;
    Err(refusal(at, Rule::Mismatch))
}

/// What there is no room for is judged all the same, each expression in the order of the text.
#[cycle(excess)]
#[tactic(auto, using(c_tree::proofs::StatementViewLaws::statement_views), unfolding(c_unit_typing::specs::InitialiserJudging::judge_excess))]
fn judged_excess(context: &mut Context, i: &Initialiser) -> Result<(), Fault>
    ensures { Answers (λ u. true) (judging.judge_excess (initialiser_view i.now)
        (state_of context.old)) result (state_of context.new) }
{
    match i {
        Initialiser::Value(e) => {
            context.expr(e)?;
            Ok(())
        }
        Initialiser::Listed(_, items, _) => judged_all_excess(context, items.as_slice()),
    }
}

#[cycle(excess)]
#[tactic(auto, unfolding(c_unit_typing::specs::InitialiserJudging::judge_all_excess))]
fn judged_all_excess(context: &mut Context, items: &[Initialiser]) -> Result<(), Fault>
    ensures { Answers (λ u. true) (judging.judge_all_excess
        (items_of (map initialiser_view items.now)) (state_of context.old)) result
        (state_of context.new) }
{
    for item in items {
        judged_excess(context, item)?;
    }
    Ok(())
}

/// Braces that no type is for.
#[tactic(auto, unfolding(c_unit_typing::specs::InitialiserJudging::excess_braces))]
fn excess_braces(
    context: &mut Context,
    brace: Place,
    items: &[Initialiser],
) -> Result<Boxed<TypedInitialiser>, Fault>
    ensures { Answers typed_initialiser_view (judging.excess_braces brace
        (items_of (map initialiser_view items.now)) (state_of context.old)) result
        (state_of context.new) }
{
    judged_all_excess(context, items)?;
    Err(refusal(brace, Rule::Mismatch))
}

/// An expression without braces; it has no type where there is no room for it.
#[tactic(auto, unfolding(c_unit_typing::specs::InitialiserJudging::judge_plain))]
fn plain(
    context: &mut Context,
    constant: bool,
    e: &Expr,
    at: Place,
    to: Option<TypeId>,
) -> Result<Boxed<TypedInitialiser>, Fault>
    ensures { Answers typed_initialiser_view (judging.judge_plain constant (expr_view e.now) at to
        (state_of context.old)) result (state_of context.new) }
{
    match to {
        Some(t) => {
            let count = char_count(&context.types, t);
            value_or_text(context, constant, at, t, e, count)
        }
        None => excess(context, at, e),
    }
}

/// An initialiser of the type, of none where there is no room for it; `single` says that a scalar's braces stand around it.
#[cycle(initialisers)]
#[tactic(auto, using(c_tree::proofs::StatementViewLaws::statement_views, c_tree::proofs::TypedStatementViewLaws::typed_statement_views), unfolding(c_unit_typing::specs::InitialiserJudging::judge_initialiser))]
pub(crate) fn initialiser(
    context: &mut Context,
    constant: bool,
    i: &Initialiser,
    at: Place,
    to: Option<TypeId>,
    single: bool,
) -> Result<Boxed<TypedInitialiser>, Fault>
    ensures { Answers typed_initialiser_view (judging.judge_initialiser constant
        (initialiser_view i.now) at to single (state_of context.old)) result
        (state_of context.new) }
{
    match i {
        Initialiser::Value(e) => plain(context, constant, e, at, to),
        Initialiser::Listed(brace, items, comma) => {
            let Some(t) = to else {
                return excess_braces(context, *brace, items.as_slice());
            };
            if single {
                return excess_braces(context, *brace, items.as_slice());
            }
            let text = is_text(&context.types, items.as_slice(), t);
            let list = judged_items(context, constant, items.as_slice(), text, t)?;
            let listed = TypedInitialiser::Listed(*brace, list, *comma, t);
            Ok(Boxed::new(context.scope.alloc(), listed)?)
        }
    }
}

/// What is listed in braces for the type; `text` says that it is a literal for the whole.
#[cycle(initialisers)]
#[tactic(auto, unfolding(c_unit_typing::specs::InitialiserJudging::judge_items))]
fn judged_items(
    context: &mut Context,
    constant: bool,
    items: &[Initialiser],
    text: bool,
    t: TypeId,
) -> Result<Items<TypedItem>, Fault>
    ensures { Answers (λ list. added typed.NoItem (map typed_item_view list))
        (judging.judge_items constant (items_of (map initialiser_view items.now)) text t
        (state_of context.old)) result (state_of context.new) }
{
    let mut list = Items::new(context.scope.alloc());
    for item in items {
        let one = judged_item(context, constant, item, text, t, list.len() as u64)?;
        list.push(one)?;
    }
    Ok(list)
}

/// The item with this number.
#[cycle(initialisers)]
#[tactic(auto, using(c_tree::proofs::TypedStatementViewLaws::typed_statement_views), unfolding(c_unit_typing::specs::InitialiserJudging::judge_initialiser, c_unit_typing::specs::InitialiserJudging::with_item))]
fn judged_item(
    context: &mut Context,
    constant: bool,
    item: &Initialiser,
    text: bool,
    t: TypeId,
    number: u64,
) -> Result<TypedItem, Fault>
    ensures { (all : tree.Items) (start : UnitState) (list : typed.TypedItems)
        → judging.judge_items constant all text t start ≡ Gives list (state_of context.old)
        → items_count list ≡ number → Answers (λ one. typed_item_view one list)
        (judging.judge_items constant (tree.AndItem all (initialiser_view item.now)) text t start)
        result (state_of context.new) }
{
    let slot = item_slot(&context.types, text, t, number);
    let single = is_scalar(shape_at(&context.types, t));
    let to = slot.map(|slot| slot.ty);
    let initialiser = initialiser(context, constant, item, item.place(), to, single)?;
    match slot {
        Some(slot) => Ok(TypedItem {
            offset: slot.offset,
            ty: slot.ty,
            initialiser: initialiser.into_inner(),
        }),
        None => Err(no_room(NOWHERE)),
    }
}
