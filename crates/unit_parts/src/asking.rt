//! The sites that single parts ask.
ghost use Rattle.std.specs.Prelude.{◌≡◌, true, [], ◌∷◌, ◌++◌};
ghost use Rattle.c_types.specs.Table.{shape_at};
ghost use Rattle.kind_sites.specs.declared.site.Site.TheVariants as site;
ghost use Rattle.c_tree.specs.TypedParts.{named_type, pointer_side, type_of};
ghost use Rattle.c_tree.specs.TypedViews.{typed_expr_view, typed_place_view, typed_type_name_view};
ghost use Rattle.src_mem.specs.Operations.{node_at, pointee_at};
ghost use Rattle.src_machine.specs.Sites.{address_at, linked_to, moves, moves_where_pointer, sites_of_aggregate, sites_of_comparison, sites_of_conversion};
ghost use Rattle.unit_parts.specs.Collecting.{Asks};

use crate::collected::{Collected, Scope};
use c_tree::{AggregateKind, Binary, Conversion, Side, TypedExpr, TypedPlace, TypedTypeName};
use c_types::TypeShape;
use cc_base::{NodeId, Place, TypeId};
use kind_sites::Site;

/// Appends a site, or remembers that memory was wanted.
#[tactic(auto, using(crate::proofs::Rules::site_rules))]
pub fn ask(out: &mut Collected, one: Site)
    ensures { Asks (one ∷ []) out.old out.new }
{
    if out.sites.push(one).is_err() {
        out.fine = false;
    }
}

/// Appends nothing.
#[tactic(auto, using(crate::proofs::Rules::site_rules))]
pub fn ask_nothing(out: &mut Collected)
    ensures { Asks [] out.old out.new }
{
    let _ = out;
}

/// The node of a pointer type.
pub(crate) fn node_at(k: &Scope<'_>, t: TypeId) -> NodeId
    ensures { result ≡ node_at k.now.types.now t }
{
    if t.0 < k.types.count() {
        match k.types.shape(t) {
            TypeShape::Pointer(node, _) => *node,
            _ => NodeId(0),
        }
    } else {
        NodeId(0)
    }
}

/// What a pointer type points to.
fn pointee_at(k: &Scope<'_>, t: TypeId) -> TypeId
    ensures { result ≡ pointee_at k.now.types.now t }
{
    if t.0 < k.types.count() {
        match k.types.shape(t) {
            TypeShape::Pointer(_, to) => *to,
            _ => TypeId(0),
        }
    } else {
        TypeId(0)
    }
}

/// The type that a type name names.
#[tactic(auto, using(c_tree::proofs::TypedViewLaws::typed_views))]
pub(crate) fn named_type(name: &TypedTypeName) -> TypeId
    ensures { result ≡ named_type (typed_type_name_view name.now) }
{
    name.ty
}

/// The type of the operand that is the pointer.
pub(crate) fn pointer_type(which: Side, a: &TypedExpr, b: &TypedExpr) -> TypeId
    ensures { result ≡ type_of (pointer_side which (typed_expr_view a.now)
        (typed_expr_view b.now)) }
{
    match which {
        Side::Left => a.ty(),
        Side::Right => b.ty(),
    }
}

/// The node of the address of a place.
pub(crate) fn address_at(k: &Scope<'_>, p: &TypedPlace) -> NodeId
    ensures { result ≡ address_at k.now.types.now (typed_place_view p.now) }
{
    match p {
        TypedPlace::Variable(_, home, _) => *home,
        TypedPlace::String(_, home, _) => *home,
        TypedPlace::ParenPlace(_, p) => address_at(k, p.get()),
        TypedPlace::Target(_, e, _) => node_at(k, e.get().ty()),
        TypedPlace::Element(which, a, _, b, _) => {
            node_at(k, pointer_type(*which, a.get(), b.get()))
        }
        TypedPlace::Member(_, _, _, _, node, _) => *node,
        TypedPlace::MemberAt(_, _, _, _, node, _) => *node,
        TypedPlace::StructAssign(p, _, _) => address_at(k, p.get()),
        TypedPlace::StructConditional(_, _, p, _) => address_at(k, p.get()),
        TypedPlace::StructComma(_, p) => address_at(k, p.get()),
    }
}

/// A node is WILD exactly where the address of the place is.
pub(crate) fn ask_link(out: &mut Collected, k: &Scope<'_>, node: NodeId, p: &TypedPlace)
    ensures { Asks (site.Linked node (address_at k.now.types.now (typed_place_view p.now)) ∷ [])
        out.old out.new }
{
    let to = address_at(k, p);
    ask(out, Site::Linked { a: node, b: to })
}

/// The same of each address that the place may have.
pub fn ask_links(out: &mut Collected, k: &Scope<'_>, node: NodeId, p: &TypedPlace)
    ensures { Asks (linked_to k.now.types.now node (typed_place_view p.now)) out.old out.new }
{
    match p {
        TypedPlace::Variable(_, _, _) => ask_link(out, k, node, p),
        TypedPlace::String(_, _, _) => ask_link(out, k, node, p),
        TypedPlace::ParenPlace(_, p) => ask_links(out, k, node, p.get()),
        TypedPlace::Target(_, _, _) => ask_link(out, k, node, p),
        TypedPlace::Element(_, _, _, _, _) => ask_link(out, k, node, p),
        TypedPlace::Member(_, _, _, _, _, _) => ask_link(out, k, node, p),
        TypedPlace::MemberAt(_, _, _, _, _, _) => ask_link(out, k, node, p),
        TypedPlace::StructAssign(_, _, _) => ask_link(out, k, node, p),
        TypedPlace::StructConditional(_, _, p, q) => {
            ask_links(out, k, node, p.get());
            ask_links(out, k, node, q.get())
        }
        TypedPlace::StructComma(_, p) => ask_links(out, k, node, p.get()),
    }
}

/// A pointer moves.
pub(crate) fn ask_move(out: &mut Collected, k: &Scope<'_>, t: TypeId, at: Place)
    ensures { Asks (moves k.now.types.now t at ∷ []) out.old out.new }
{
    let node = node_at(k, t);
    ask(out, Site::Arith { node, place: at })
}

/// Two pointers are subtracted, or put in order.
#[tactic(auto, using(crate::proofs::Rules::both_rules))]
pub(crate) fn ask_moves(out: &mut Collected, k: &Scope<'_>, t: TypeId, u: TypeId, at: Place)
    ensures { Asks (moves k.now.types.now t at ∷ moves k.now.types.now u at ∷ []) out.old out.new }
{
    ask_move(out, k, t, at);
    ask_move(out, k, u, at)
}

/// A pointer moves where the type is one.
pub(crate) fn ask_move_of_pointer(out: &mut Collected, k: &Scope<'_>, t: TypeId, at: Place)
    ensures { Asks (moves_where_pointer (shape_at k.now.types.now t) at) out.old out.new }
{
    if t.0 < k.types.count() {
        match k.types.shape(t) {
            TypeShape::Pointer(node, _) => ask(
                out,
                Site::Arith {
                    node: *node,
                    place: at,
                },
            ),
            _ => ask_nothing(out),
        }
    } else {
        ask_nothing(out)
    }
}

/// A value of type t is converted to the type u.
pub(crate) fn ask_conversion(
    out: &mut Collected,
    k: &Scope<'_>,
    which: Conversion,
    at: Place,
    t: TypeId,
    u: TypeId,
)
    ensures { Asks (sites_of_conversion k.now.types.now which at t u) out.old out.new }
{
    match which {
        Conversion::PointerToPointer => ask(
            out,
            Site::Flow {
                from: node_at(k, t),
                from_ty: pointee_at(k, t),
                to: node_at(k, u),
                to_ty: pointee_at(k, u),
                place: at,
            },
        ),
        Conversion::IntegerToPointer => ask(
            out,
            Site::Integer {
                node: node_at(k, u),
                place: at,
            },
        ),
        _ => ask_nothing(out),
    }
}

/// Pointers of two types are compared.
pub(crate) fn ask_comparison(
    out: &mut Collected,
    k: &Scope<'_>,
    operator: Binary,
    at: Place,
    t: TypeId,
    u: TypeId,
)
    ensures { Asks (sites_of_comparison k.now.types.now operator at t u) out.old out.new }
{
    match operator {
        Binary::Equal => ask_nothing(out),
        Binary::NotEqual => ask_nothing(out),
        _ => ask_moves(out, k, t, u, at),
    }
}

/// A member's place is an address of a part of the struct at a place.
#[tactic(auto, using(crate::proofs::Rules::both_rules))]
pub(crate) fn ask_member(
    out: &mut Collected,
    k: &Scope<'_>,
    node: NodeId,
    t: TypeId,
    p: &TypedPlace,
)
    ensures { Asks (site.Pointee node t ∷ linked_to k.now.types.now node (typed_place_view p.now))
        out.old out.new }
{
    ask(out, Site::Pointee { node, ty: t });
    ask_links(out, k, node, p)
}

/// A member's place is an address of a part of the struct that a pointer of type u points to.
#[tactic(auto, using(crate::proofs::Rules::both_rules))]
pub(crate) fn ask_member_at(out: &mut Collected, k: &Scope<'_>, node: NodeId, t: TypeId, u: TypeId)
    ensures { Asks (site.Pointee node t ∷ site.Linked node (node_at k.now.types.now u) ∷ []) out.old
        out.new }
{
    ask(out, Site::Pointee { node, ty: t });
    let to = node_at(k, u);
    ask(out, Site::Linked { a: node, b: to })
}

/// The union whose members stand there.
pub(crate) fn ask_aggregate(out: &mut Collected, kind: AggregateKind, at: Place, t: TypeId)
    ensures { Asks (sites_of_aggregate kind at t) out.old out.new }
{
    match kind {
        AggregateKind::Struct => ask_nothing(out),
        AggregateKind::Union => ask(out, Site::Union { ty: t, place: at }),
    }
}
