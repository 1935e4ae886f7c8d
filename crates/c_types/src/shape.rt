//! The shapes of types: what each type of the table is.
#![tactic(auto)]

ghost use Rattle.std.specs.Prelude.{◌≡◌};

use cc_base::{NodeId, TypeId};
use std::alloc::AllocError;
use std::hash::{Hash, Hasher};
use std::marker::Model;

/// The types of a function's parameters, in order. Contracts see the list.
#[derive(Debug, Drop)]
pub struct TypeList(Vec<TypeId>);

impl Model for TypeList {
    ghost use Rattle.std.specs.Prelude.{List};
    ghost use Rattle.cc_base.specs.declared.number.TypeId.{TypeId};

    ghost Value = { List TypeId };

    ghost view = { λ t. t.0.items };
}

impl TypeList {
    /// The list.
    pub fn of(list: Vec<TypeId>) -> TypeList
        ensures { result ≡ list.items }
    {
        TypeList(list)
    }

    /// The numbers of the types.
    pub fn ids(&self) -> &[TypeId]
        ensures { result.now ≡ self.now }
    {
        &self.0
    }
}

impl Clone for TypeList {
    ghost is_clone = { λ x y. y ≡ x };

    fn clone(&self) -> Result<TypeList, AllocError> {
        let list = &self.0;
        Ok(TypeList(Vec::from_slice(*list.allocator(), list)?))
    }
}

impl PartialEq for TypeList {
    ghost use Rattle.std.specs.Prelude.{nat_eq};
    ghost use lib.Pointwise.{pointwise};
    ghost use Rattle.std.proofs.lemmas.Cmp.{lists_equiv, on_equiv, nat_eq_equiv};
    ghost use Rattle.std.specs.Cmp.{partial_equiv_from_equiv};

    ghost eq = { pointwise (λ x y. nat_eq x.0 y.0) };

    ghost laws = { partial_equiv_from_equiv (lists_equiv (on_equiv (λ x. x.0) nat_eq_equiv)) };

    fn eq(&self, other: &TypeList) -> bool {
        self.ids() == other.ids()
    }
}

impl Eq for TypeList {
    ghost use Rattle.std.proofs.lemmas.Cmp.{lists_equiv, on_equiv, nat_eq_equiv};

    ghost laws = { lists_equiv (on_equiv (λ x. x.0) nat_eq_equiv) };
}

impl Hash for TypeList {
    ghost use Rattle.std.specs.Hash as fed;
    ghost use Rattle.std.proofs.lemmas.Bool.Decides.{Decides-eqb};

    ghost hash_input = { fed.slice (λ t. fed.u32 t.0) };

    ghost respects_eq = { (fed.items_Alike (fed.on_Alike (λ t. t.0) (fed.same_Alike fed.u32 Decides-eqb))).fed };

    fn hash<H: Hasher>(&self, state: &mut H) {
        self.ids().hash(state);
    }
}

/// What a type is made of.
#[derive(Debug, PartialEq, Eq, Hash)]
pub enum TypeShape {
    /// `void` (C99 6.2.5).
    Void,
    /// An integer type, by its size in bytes and its sign (C99 6.2.5).
    Integer { bytes: u64, signed: bool },
    /// A pointer, by its node and the type that it points to (C99 6.7.5.1).
    Pointer(NodeId, TypeId),
    /// An array, by the type and the number of its elements (C99 6.7.5.2).
    Array(TypeId, u64),
    /// A function, by the types of its parameters and of its result (C99 6.7.5.3).
    Function(TypeList, TypeId),
    /// A struct, by the number of its declaration (C99 6.7.2.1).
    Struct(u32),
    /// A union, by the number of its declaration (C99 6.7.2.1).
    Union(u32),
}

impl Drop for TypeShape {
    fn drop(self) {
        match self {
            Self::Void
            | Self::Integer {
                bytes: _,
                signed: _,
            }
            | Self::Pointer(_, _)
            | Self::Array(_, _)
            | Self::Function(_, _)
            | Self::Struct(_)
            | Self::Union(_) => {}
        }
    }
}

impl Clone for TypeShape {
    ghost is_clone = { λ x y. y ≡ x };

    fn clone(&self) -> Result<TypeShape, AllocError> {
        match self {
            TypeShape::Void => Ok(TypeShape::Void),
            TypeShape::Integer { bytes, signed } => Ok(TypeShape::Integer {
                bytes: *bytes,
                signed: *signed,
            }),
            TypeShape::Pointer(node, to) => Ok(TypeShape::Pointer(*node, *to)),
            TypeShape::Array(element, count) => Ok(TypeShape::Array(*element, *count)),
            TypeShape::Function(parameters, result) => {
                Ok(TypeShape::Function(parameters.clone()?, *result))
            }
            TypeShape::Struct(number) => Ok(TypeShape::Struct(*number)),
            TypeShape::Union(number) => Ok(TypeShape::Union(*number)),
        }
    }
}
