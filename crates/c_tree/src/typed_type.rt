//! The types of typed expressions and places.
ghost use Rattle.std.specs.Prelude.{◌≡◌};
ghost use Rattle.c_tree.specs.TypedParts.{place_type, type_of};
ghost use Rattle.c_tree.specs.TypedViews.{typed_expr_view, typed_place_view};

use crate::typed_expr::{TypedExpr, TypedPlace};
use cc_base::TypeId;

impl TypedPlace {
    /// The type of what it designates.
    #[tactic(auto, using(crate::proofs::TypedViewLaws::typed_views))]
    pub fn ty(&self) -> TypeId
        ensures { result ≡ place_type (typed_place_view self.now) }
    {
        match self {
            TypedPlace::Variable(_, _, t) => *t,
            TypedPlace::String(_, _, t) => *t,
            TypedPlace::ParenPlace(_, p) => p.get().ty(),
            TypedPlace::Target(_, _, t) => *t,
            TypedPlace::Element(_, _, _, _, t) => *t,
            TypedPlace::Member(_, _, _, _, _, t) => *t,
            TypedPlace::MemberAt(_, _, _, _, _, t) => *t,
            TypedPlace::StructAssign(p, _, _) => p.get().ty(),
            TypedPlace::StructConditional(_, _, p, _) => p.get().ty(),
            TypedPlace::StructComma(_, p) => p.get().ty(),
        }
    }
}

impl TypedExpr {
    /// Its type.
    #[tactic(auto, using(crate::proofs::TypedViewLaws::typed_views))]
    pub fn ty(&self) -> TypeId
        ensures { result ≡ type_of (typed_expr_view self.now) }
    {
        match self {
            TypedExpr::Paren(_, e) => e.get().ty(),
            TypedExpr::AddressOfFunction(_, e) => e.get().ty(),
            TypedExpr::FunctionAt(_, e) => e.get().ty(),
            TypedExpr::Comma(_, e) => e.get().ty(),
            TypedExpr::Read(p) => p.get().ty(),
            TypedExpr::Unread(p) => p.get().ty(),
            TypedExpr::StepBefore(_, _, p) => p.get().ty(),
            TypedExpr::StepAfter(p, _, _) => p.get().ty(),
            TypedExpr::Assign(p, _, _) => p.get().ty(),
            TypedExpr::AssignWith(_, p, _, _, _) => p.get().ty(),
            TypedExpr::Cast(_, _, to, _) => to.get().ty,
            TypedExpr::Integer(_, _, _, t) => *t,
            TypedExpr::Character(_, _, t) => *t,
            TypedExpr::Enumerator(_, _, t) => *t,
            TypedExpr::FunctionName(_, _, _, t) => *t,
            TypedExpr::RuntimeName(_, _, t) => *t,
            TypedExpr::Decay(_, _, t) => *t,
            TypedExpr::Convert(_, _, t, _) => *t,
            TypedExpr::AddressOf(_, _, _, t) => *t,
            TypedExpr::AddressOfElement(_, _, t) => *t,
            TypedExpr::Prefix(_, _, _, t) => *t,
            TypedExpr::SizeOfPlace(_, _, _, t) => *t,
            TypedExpr::SizeOfValue(_, _, _, t) => *t,
            TypedExpr::SizeOfType(_, _, _, _, t) => *t,
            TypedExpr::Arithmetic(_, _, _, _, t) => *t,
            TypedExpr::Moved(_, _, _, _, _, t) => *t,
            TypedExpr::Difference(_, _, _, t) => *t,
            TypedExpr::Compared(_, _, _, _, t) => *t,
            TypedExpr::Logical(_, _, _, _, t) => *t,
            TypedExpr::Conditional(_, _, _, _, t) => *t,
            TypedExpr::PointerConditional(_, _, _, _, _, t) => *t,
            TypedExpr::Call(_, _, _, t) => *t,
            TypedExpr::CallRuntime(_, _, _, _, t) => *t,
            TypedExpr::Allocate(_, _, _, _, _, t) => *t,
            TypedExpr::AllocateFor(_, _, _, _, t) => *t,
        }
    }
}
