//! The code of the initialiser of an object, part by part.
ghost use Rattle.std.specs.Prelude.{◌≡◌, ◌+◌, ◌<◌, ◌^◌, [], ◌∷◌, map};
ghost use Rattle.c_types.specs.Table.{shape_at};
ghost use Rattle.c_tree.specs.Views.{added};
ghost use Rattle.c_tree.specs.TypedTree as typed;
ghost use Rattle.c_tree.specs.TypedParts.{item_place, place_at};
ghost use Rattle.c_tree.specs.TypedViews.{typed_place_view};
ghost use Rattle.c_tree.specs.TypedStatementViews.{typed_initialiser_view, typed_item_view};
ghost use Rattle.src_machine.specs.Statements.{clears, is_aggregate_shape};
ghost use Rattle.cil_form.specs.declared.instr.Instr.TheVariants as instr;
ghost use Rattle.cil_form.specs.declared.instr.Access.TheVariants as access;
ghost use Rattle.lower_rules.specs.declared.after.After.TheVariants as after;
ghost use Rattle.lower_rules.specs.Pieces.{Line, When};
ghost use Rattle.lower_rules.specs.Initialisers.{Clears, IsCodeOfInitialiser, IsCodeOfItems, part};
ghost use Rattle.lower_rules.specs.Words.{value};
ghost use Rattle.lower_exprs.specs.declared.draft.Draft.{Draft as SeenDraft};
ghost use Rattle.lower_exprs.specs.Drafts.{context_of, Grows};
ghost use Rattle.lower_initialisers.specs.Ready.{Fills, HasCodeOfInitialiser, HasCodeOfItems, initialised_of};

use crate::starts::item_place;
use crate::text::put_literal;
use c_tree::{TypedInitialiser, TypedItem, TypedPlace};
use c_types::TypeShape;
use cc_base::{NodeId, Place, TypeId};
use cil_form::{Access, Instr, Object, Target, Temp};
use lower_exprs::{Draft, Scope, expr, keep, place, place_at, put, refuse};
use lower_rules::After;

/// An object that is initialised, with its home and type.
#[derive(Clone, Copy)]
pub(crate) struct Whole {
    pub(crate) object: Object,
    pub(crate) home: NodeId,
    pub(crate) ty: TypeId,
}

/// A part of an object that is initialised: the byte of the object at which it begins, its type, and where its
/// initialiser stands in the text.
#[derive(Clone, Copy)]
pub(crate) struct Portion {
    pub(crate) whole: Whole,
    pub(crate) base: u64,
    pub(crate) ty: TypeId,
    pub(crate) at: Place,
}

/// Appends the code of an object's initialiser.
pub(crate) fn fill_whole(
    out: &mut Draft,
    k: &Scope<'_>,
    whole: Whole,
    at: Place,
    i: &TypedInitialiser,
)
    ensures { Grows (Fills (initialised_of whole) at (typed_initialiser_view i.now)
        (context_of k.now)) (Unit {0} × HasCodeOfInitialiser (typed_initialiser_view i.now)
        (context_of k.now) whole.ty 0) out.old out.new }
{
    put_clear(out, whole, clears(k, i));
    let p = Portion {
        whole,
        base: 0,
        ty: whole.ty,
        at,
    };
    fill(out, k, p, i)
}

/// Whether an initialiser first sets its whole object to zero.
#[tactic(auto, using(c_tree::proofs::TypedStatementViewLaws::typed_statement_views))]
fn clears(k: &Scope<'_>, i: &TypedInitialiser) -> bool
    ensures { result ≡ clears k.now.types.now (typed_initialiser_view i.now) }
{
    match i {
        TypedInitialiser::Value(_) => false,
        TypedInitialiser::Copied(_, _) => false,
        TypedInitialiser::Text(_, _) => true,
        TypedInitialiser::Listed(_, _, _, t) => is_aggregate(k, *t),
    }
}

/// Whether a type is an array, a struct or a union.
fn is_aggregate(k: &Scope<'_>, t: TypeId) -> bool
    ensures { result ≡ is_aggregate_shape (shape_at k.now.types.now t) }
{
    if t.0 < k.types.count() {
        match k.types.shape(t) {
            TypeShape::Array(_, _) => true,
            TypeShape::Struct(_) => true,
            TypeShape::Union(_) => true,
            _ => false,
        }
    } else {
        false
    }
}

/// The whole object is set to zero, if this is so.
#[tactic(auto, unfolding(lower_rules::specs::Initialisers::Clears))]
fn put_clear(out: &mut Draft, o: Whole, clears: bool)
    ensures { Grows (Clears clears o.object) (Unit {0}) out.old out.new }
{
    if clears {
        put(out, Instr::Access(Access::Clear { object: o.object }))
    } else {
        keep(out)
    }
}

/// Appends the code of the initialiser of a part.
#[cycle(initialisers)]
fn fill(out: &mut Draft, k: &Scope<'_>, p: Portion, i: &TypedInitialiser)
    ensures { Grows (IsCodeOfInitialiser (typed_initialiser_view i.now)
        (context_of k.now) p.at p.ty p.base (initialised_of p.whole))
        (HasCodeOfInitialiser (typed_initialiser_view i.now) (context_of k.now) p.ty p.base) out.old
        out.new }
{
    match i {
        TypedInitialiser::Value(e) => {
            expr(out, k, 0, e);
            put_part(out, p)
        }
        TypedInitialiser::Copied(from, at) => place(out, k, 0, from, copy_into(p, from, *at)),
        TypedInitialiser::Text(_, bytes) => put_literal(out, k, p, bytes.as_slice()),
        TypedInitialiser::Listed(_, all, _, _) => items(out, k, p, all.as_slice()),
    }
}

/// Appends the code of items in order.
#[cycle(initialisers)]
fn items(out: &mut Draft, k: &Scope<'_>, p: Portion, all: &[TypedItem])
    ensures { Grows (IsCodeOfItems (added typed.NoItem (map typed_item_view all.now))
        (context_of k.now) p.base (initialised_of p.whole))
        (HasCodeOfItems (added typed.NoItem (map typed_item_view all.now))
        (context_of k.now) p.base) out.old out.new }
{
    for one in all {
        item(out, k, p, one)
    }
}

/// Appends the code of an item behind the code of others.
#[cycle(initialisers)]
fn item(out: &mut Draft, k: &Scope<'_>, p: Portion, one: &TypedItem)
    ensures { (all : typed.TypedItems) (start : SeenDraft)
        → Grows (IsCodeOfItems all (context_of k.now) p.base (initialised_of p.whole))
        (HasCodeOfItems all (context_of k.now) p.base) start out.old
        → Grows (IsCodeOfItems (typed_item_view one.now all) (context_of k.now) p.base
        (initialised_of p.whole)) (HasCodeOfItems (typed_item_view one.now all)
        (context_of k.now) p.base) start out.new }
{
    let i = &one.initialiser;
    let inner = part_of(out, p, one.offset, one.ty, item_place(i));
    fill(out, k, inner, i)
}

/// The part that begins at this offset in another part.
fn part_of(out: &mut Draft, p: Portion, offset: u64, ty: TypeId, at: Place) -> Portion
    ensures room { Grows (When (p.base + offset < 2 ^ 64) (Line []))
        (p.base + offset < 2 ^ 64) out.old out.new }
    ensures base { p.base + offset < 2 ^ 64 → result.base ≡ p.base + offset }
    ensures whole { result.whole ≡ p.whole }
    ensures of_type { result.ty ≡ ty }
    ensures at { result.at ≡ at }
{
    if offset > u64::MAX - p.base {
        refuse(out);
        return Portion { ty, at, ..p };
    }
    Portion {
        whole: p.whole,
        base: p.base + offset,
        ty,
        at,
    }
}

/// Appends the store of value 0 into a part.
fn put_part(out: &mut Draft, p: Portion)
    ensures { Grows (Line (instr.Access (access.Store (part (initialised_of p.whole) p.base)
        (value 0) p.ty p.at p.at) ∷ [])) (Unit {0}) out.old out.new }
{
    put(
        out,
        Instr::Access(Access::Store {
            target: Target::Part {
                object: p.whole.object,
                home: p.whole.home,
                ty: p.whole.ty,
                offset: p.base,
            },
            value: Temp::Value(0),
            ty: p.ty,
            place: p.at,
            assignment: p.at,
        }),
    )
}

/// A struct or union is copied into a part.
fn copy_into(p: Portion, from: &TypedPlace, at: Place) -> After
    ensures { result ≡ after.Copy (part (initialised_of p.whole) p.base) at
        (place_at (typed_place_view from.now)) p.ty at }
{
    After::Copy {
        target: Target::Part {
            object: p.whole.object,
            home: p.whole.home,
            ty: p.whole.ty,
            offset: p.base,
        },
        target_place: at,
        from_place: place_at(from),
        ty: p.ty,
        assignment: at,
    }
}
