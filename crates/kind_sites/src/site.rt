//! The sites of a program: what its constructs ask of kinds.
#![tactic(auto)]

use cc_base::{NodeId, Place, TypeId};

/// What a construct of a program asks of the kinds of its nodes.
#[derive(Clone, Copy, Debug, PartialEq, Eq)]
pub enum Site {
    /// A pointer of the node `from` to the type `from_ty` is converted to one of the node `to` to the type `to_ty` (C99
    /// 6.3.2.3).
    Flow {
        from: NodeId,
        from_ty: TypeId,
        to: NodeId,
        to_ty: TypeId,
        place: Place,
    },
    /// A pointer of the node moves, is subtracted or is put in order (C99 6.5.2.1, 6.5.6, 6.5.8).
    Arith {
        node: NodeId,
        place: Place,
    },
    /// An integer that is no null constant becomes a pointer of the node (C99 6.3.2.3).
    Integer {
        node: NodeId,
        place: Place,
    },
    /// Both are addresses of parts of one object, or of the two sides of a struct assignment.
    Linked {
        a: NodeId,
        b: NodeId,
    },
    /// Two declarations of one name have these types.
    Same {
        a: TypeId,
        b: TypeId,
    },
    /// A pointer of the node points to the type.
    Pointee {
        node: NodeId,
        ty: TypeId,
    },
    /// The node is the home of an object of the type.
    Home {
        node: NodeId,
        ty: TypeId,
    },
    /// The members of the union stand behind its keyword at the place.
    Union {
        ty: TypeId,
        place: Place,
    },
}
