//! How two operands that are no integers meet (C99 6.5.9, 6.5.15).
#![tactic(auto)]

ghost use Rattle.std.specs.Prelude.{◌≡◌, option_copied};
ghost use Rattle.cc_base.specs.declared.number.NodeId.{NodeId};
ghost use Rattle.c_types.specs.declared.shape.TypeShape.TheVariants.{Pointer};
ghost use Rattle.c_tree.specs.TypedViews.{typed_expr_view};
ghost use Rattle.c_typing.specs.KindViews.{shape_or_void};
ghost use Rattle.c_typing.specs.Rules as rules;
ghost use Rattle.c_check_operators.specs.ShapeViews.{meeting_view};
ghost use Rattle.c_typing.specs.OperandViews.{part_ref_view};
ghost use Rattle.c_typing.specs.Tests as tests;

use crate::conversion::{are_data, is_null_with, is_taken_as, points_to_void};
use crate::value_shape::shape_of;
use c_tree::TypedExpr;
use c_types::{TypeShape, Types};
use c_typing::constant::is_null_constant;
use c_typing::operand::PartRef;
use c_typing::same::is_same_type;
use c_typing::shapes::shape_at;
use cc_base::TypeId;

/// How two operands of `==` or of a `?:` that are no integers meet, and the type that they both point to.
#[derive(Clone, Copy)]
pub(crate) enum Meeting {
    RightIsNull(TypeId),
    LeftIsNull(TypeId),
    BothPoint(TypeId),
    NeverMeet,
}

impl Meeting {
    /// What both point to.
    pub(crate) fn pointee(self) -> Option<TypeId>
        ensures { result ≡ rules.meeting_type (meeting_view self) }
    {
        match self {
            Meeting::RightIsNull(t) | Meeting::LeftIsNull(t) | Meeting::BothPoint(t) => Some(t),
            Meeting::NeverMeet => None,
        }
    }
}

/// How pointers to two types meet.
fn meeting_pointee(types: &Types, t: TypeId, u: TypeId) -> Meeting
    ensures { meeting_view result ≡ rules.meeting_pointee types.now t u }
{
    if is_same_type(types, t, u) {
        return Meeting::BothPoint(t);
    }
    if are_data(types, t, u) && points_to_void(types, t) {
        return Meeting::BothPoint(t);
    }
    if are_data(types, t, u) && points_to_void(types, u) {
        return Meeting::BothPoint(u);
    }
    Meeting::NeverMeet
}

/// How a pointer on the left meets what is on the right.
fn pointer_meets(
    types: &Types,
    left_null: bool,
    right_null: bool,
    to: TypeId,
    right: Option<&TypeShape>,
) -> Meeting
    ensures { (n : NodeId) → meeting_view result ≡ rules.meeting_of types.now left_null right_null
        (Pointer n to) (shape_or_void (option_copied right.entry)) }
{
    if right_null {
        return Meeting::RightIsNull(to);
    }
    match right {
        Some(TypeShape::Pointer(_, u)) => {
            if left_null {
                Meeting::LeftIsNull(*u)
            } else {
                meeting_pointee(types, to, *u)
            }
        }
        _ => Meeting::NeverMeet,
    }
}

/// By whether the left side and the right side are null constants, and their shapes.
fn meeting_of(
    types: &Types,
    left_null: bool,
    right_null: bool,
    left: Option<&TypeShape>,
    right: Option<&TypeShape>,
) -> Meeting
    ensures { meeting_view result ≡ rules.meeting_of types.now left_null right_null
        (shape_or_void (option_copied left.entry)) (shape_or_void (option_copied right.entry)) }
{
    match left {
        Some(TypeShape::Pointer(_, t)) => pointer_meets(types, left_null, right_null, *t, right),
        _ => match right {
            Some(TypeShape::Pointer(_, u)) if left_null => Meeting::LeftIsNull(*u),
            _ => Meeting::NeverMeet,
        },
    }
}

pub(crate) fn how_they_meet(types: &Types, a: &TypedExpr, b: &TypedExpr) -> Meeting
    ensures { meeting_view result ≡ rules.meeting types.now (typed_expr_view a.now)
        (typed_expr_view b.now) }
{
    let left_null = is_null_constant(types, a);
    let right_null = is_null_constant(types, b);
    meeting_of(
        types,
        left_null,
        right_null,
        shape_at(types, a.ty()),
        shape_at(types, b.ty()),
    )
}

/// Whether a pointer of the one shape is taken where one of the other is wanted.
fn is_taken(types: &Types, a: Option<&TypeShape>, b: Option<&TypeShape>) -> bool
    ensures { result ≡ tests.taken_as types.now (shape_or_void (option_copied a.entry))
        (shape_or_void (option_copied b.entry)) }
{
    match (a, b) {
        (Some(TypeShape::Pointer(_, t)), Some(TypeShape::Pointer(_, u))) => {
            is_taken_as(types, *t, *u)
        }
        _ => false,
    }
}

/// Whether two operands may be compared by `==`, or meet in a `?:`, as pointers.
pub(crate) fn meet(types: &Types, x: PartRef, y: PartRef) -> bool
    ensures { result ≡ tests.meet types.now (part_ref_view x.entry) (part_ref_view y.entry) }
{
    let left = shape_of(types, x);
    let right = shape_of(types, y);
    is_null_with(types, y, left.get())
        || is_null_with(types, x, right.get())
        || is_taken(types, left.get(), right.get())
}
