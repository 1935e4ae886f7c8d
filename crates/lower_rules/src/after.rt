//! What waits for the address of a place.
use c_tree::Step;
use cc_base::{NodeId, Place, TypeId};
use cil_form::Target;

/// What comes after the address of a place, which is in a value: instructions that wait for the node of the address.
#[derive(Clone, Copy)]
pub enum After {
    /// The address is the result.
    Nothing,
    /// The scalar of the type is read.
    Load {
        ty: TypeId,
        place: Place,
    },
    /// The address of the array's first element is taken.
    Decay {
        array: TypeId,
        checked: bool,
        inner: NodeId,
        element: TypeId,
        place: Place,
    },
    /// `&` of the place, which is of the type.
    Address {
        inner: NodeId,
        ty: TypeId,
    },
    /// The address of a member of the place, which is of the type.
    Member {
        ty: TypeId,
        member: u32,
        inner: NodeId,
        member_ty: TypeId,
        place: Place,
    },
    /// The struct or union is copied to the target.
    Copy {
        target: Target,
        target_place: Place,
        from_place: Place,
        ty: TypeId,
        assignment: Place,
    },
    /// `++` or `--`; the result is the old value, or the new one.
    Step {
        gives_old: bool,
        which: Step,
        pointer: bool,
        ty: TypeId,
        own: Place,
        place: Place,
    },
}
