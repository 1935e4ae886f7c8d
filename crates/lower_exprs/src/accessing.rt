//! Instructions that come after the address of a place, and updates of what is there.
ghost use Rattle.std.specs.Prelude.{◌≡◌, ◌<◌, suc, [], ◌∷◌, true, false};
ghost use Rattle.cil_form.specs.declared.instr.Instr.TheVariants as instr;
ghost use Rattle.cil_form.specs.declared.instr.Access.TheVariants as access;
ghost use Rattle.cil_form.specs.declared.instr.Calculate.TheVariants as calculate;
ghost use Rattle.cil_form.specs.declared.instr.Convert.TheVariants as convert;
ghost use Rattle.cil_form.specs.declared.instr.Point.TheVariants as point;
ghost use Rattle.cil_form.specs.declared.instr.Set.TheVariants as set;
ghost use Rattle.c_tree.specs.TypedParts.{place_type, place_at};
ghost use Rattle.c_tree.specs.TypedViews.{typed_place_view};
ghost use Rattle.cil_form.specs.declared.instr.Target.TheVariants as target;
ghost use Rattle.src_machine.specs.Expressions.{is_subtract, operator_of_step, operator_of_assignment, same_type};
ghost use Rattle.lower_rules.specs.Pieces.{Line};
ghost use Rattle.lower_rules.specs.Words.{value, work, direction_of, lowered_step, lowered_assignment, Follows, store_code, step_code, update_code, convert_code, stepping, step_result, updating};
ghost use Rattle.lower_rules.specs.Expressions.{node_in_place};
ghost use Rattle.lower_rules.specs.declared.after.After.TheVariants as after;
ghost use Rattle.lower_exprs.specs.Drafts.{context_of, Grows};
ghost use Rattle.lower_exprs.specs.Ready.{HasRoom, spot_of};

use crate::draft::{Draft, Scope};
use crate::operators::{
    INT, direction_of, goes_backwards, lowered_assignment, lowered_step, set_integer, subtracts,
};
use crate::pieces::{keep, put, refuse};
use crate::places::{node_in_place, place_at};
use c_tree::{Assignment, TypedPlace};
use cc_base::{NodeId, Place, TypeId};
use cil_form::{Access, Calculate, Convert, Instr, Operator, Point, Set, Target, Temp, Work};
use lower_rules::After;

const WORK: Temp = Temp::Work(Work::First);

/// A scalar at an address: the value with the address and its node, the scalar's type, the places of the checks of the
/// access and of the operator that makes it.
#[derive(Clone, Copy)]
pub(crate) struct Spot {
    pub(crate) address: u8,
    pub(crate) node: NodeId,
    pub(crate) ty: TypeId,
    pub(crate) own: Place,
    pub(crate) place: Place,
}

/// What comes after the address in value t, which has the node.
#[tactic(auto, using(crate::proofs::Rules::nothing_rules), unfolding(lower_rules::specs::Words::Follows))]
pub(crate) fn follow(out: &mut Draft, t: u8, node: NodeId, what: After)
    ensures { Grows (Follows what t node) (HasRoom what t) out.old out.new }
{
    let into = Temp::Value(t);
    let from = into;
    match what {
        After::Nothing => keep(out),
        After::Load { ty, place } => put(
            out,
            Instr::Access(Access::Load {
                into,
                from,
                node,
                ty,
                place,
            }),
        ),
        After::Decay {
            array,
            checked,
            inner,
            element,
            place,
        } => put(
            out,
            Instr::Point(Point::Decay {
                into,
                from,
                outer: node,
                array,
                checked,
                inner,
                element,
                place,
            }),
        ),
        After::Address { inner, ty } => put(
            out,
            Instr::Point(Point::Address {
                into,
                from,
                outer: node,
                inner,
                ty,
            }),
        ),
        After::Member {
            ty,
            member,
            inner,
            member_ty,
            place,
        } => put(
            out,
            Instr::Point(Point::Member {
                into,
                from,
                outer: node,
                ty,
                member,
                inner,
                member_ty,
                place,
            }),
        ),
        After::Copy {
            target,
            target_place,
            from_place,
            ty,
            assignment,
        } => put(
            out,
            Instr::Access(Access::Copy {
                target,
                target_place,
                from,
                from_node: node,
                from_place,
                ty,
                assignment,
            }),
        ),
        After::Step {
            gives_old,
            which,
            pointer,
            ty,
            own,
            place,
        } => {
            let spot = Spot {
                address: t,
                node,
                ty,
                own,
                place,
            };
            let how = Motion {
                operator: lowered_step(which),
                backwards: goes_backwards(which),
            };
            put_step(out, spot, pointer, how, gives_old)
        }
    }
}

fn put_load(out: &mut Draft, into: u8, spot: Spot)
    ensures { Grows (Line (instr.Access (access.Load (value into)
        (value spot.address) spot.node spot.ty spot.own) ∷ [])) (Unit {0}) out.old out.new }
{
    put(
        out,
        Instr::Access(Access::Load {
            into: Temp::Value(into),
            from: Temp::Value(spot.address),
            node: spot.node,
            ty: spot.ty,
            place: spot.own,
        }),
    )
}

/// What is stored is the result, or what another temporary holds.
#[tactic(auto, using(crate::proofs::Rules::line_rules))]
fn put_store(out: &mut Draft, spot: Spot, new: Temp, left: Temp)
    ensures { Grows (Line (store_code spot.node spot.ty spot.own spot.place spot.address new left))
        (Unit {0}) out.old out.new }
{
    put(
        out,
        Instr::Access(Access::Store {
            target: Target::Pointer {
                pointer: Temp::Value(spot.address),
                node: spot.node,
            },
            value: new,
            ty: spot.ty,
            place: spot.own,
            assignment: spot.place,
        }),
    );
    put(
        out,
        Instr::Set(Set::Copy {
            into: Temp::Value(spot.address),
            from: left,
        }),
    )
}

/// One step further or back, from an old value to a working temporary.
#[derive(Clone, Copy)]
pub(crate) struct Motion {
    pub(crate) operator: Operator,
    pub(crate) backwards: bool,
}

/// A step of the pointer at the address.
#[tactic(auto, using(crate::proofs::Rules::line_rules))]
fn put_pointer_step(out: &mut Draft, spot: Spot, how: Motion, left: Temp)
    requires { spot.address < 255 }
    ensures { Grows (Line (stepping true how.operator how.backwards left spot.node spot.ty spot.own
        spot.place spot.address)) (Unit {0}) out.old out.new }
{
    let old = spot.address + 1;
    put_load(out, old, spot);
    put(out, set_integer(WORK, 1, INT));
    put_motion(out, WORK, Temp::Value(old), WORK, how.backwards, spot);
    put_store(out, spot, WORK, left)
}

/// A step of the integer at the address.
#[tactic(auto, using(crate::proofs::Rules::line_rules))]
fn put_integer_step(out: &mut Draft, spot: Spot, how: Motion, left: Temp)
    requires { spot.address < 255 }
    ensures { Grows (Line (stepping false how.operator how.backwards left spot.node spot.ty spot.own
        spot.place spot.address)) (Unit {0}) out.old out.new }
{
    let old = spot.address + 1;
    put_load(out, old, spot);
    put(out, set_integer(WORK, 1, spot.ty));
    put(
        out,
        binary(
            WORK,
            how.operator,
            Temp::Value(old),
            WORK,
            spot.ty,
            spot.place,
        ),
    );
    put_store(out, spot, WORK, left)
}

/// A pointer of the spot's type moves.
fn put_motion(out: &mut Draft, into: Temp, pointer: Temp, amount: Temp, backwards: bool, spot: Spot)
    ensures { Grows (Line (instr.Point (point.Move into pointer amount
        (direction_of backwards) spot.ty spot.place) ∷ [])) (Unit {0}) out.old out.new }
{
    put(
        out,
        Instr::Point(Point::Move {
            into,
            pointer,
            amount,
            direction: direction_of(backwards),
            ty: spot.ty,
            place: spot.place,
        }),
    )
}

fn binary(
    into: Temp,
    operator: Operator,
    left: Temp,
    right: Temp,
    ty: TypeId,
    place: Place,
) -> Instr
    ensures { result ≡ instr.Calculate (calculate.Binary into operator left right ty place) }
{
    Instr::Calculate(Calculate::Binary {
        into,
        operator,
        left,
        right,
        ty,
        place,
    })
}

/// A step of the scalar at the address in value t.
#[tactic(auto, using(crate::proofs::Rules::failed_rules))]
fn put_step(out: &mut Draft, spot: Spot, pointer: bool, how: Motion, gives_old: bool)
    ensures { Grows (Line (stepping pointer how.operator how.backwards
        (step_result gives_old spot.address) spot.node spot.ty spot.own spot.place spot.address))
        (suc spot.address < 256) out.old out.new }
{
    if spot.address < 255 {
        let left = if gives_old {
            Temp::Value(spot.address + 1)
        } else {
            WORK
        };
        if pointer {
            put_pointer_step(out, spot, how, left)
        } else {
            put_integer_step(out, spot, how, left)
        }
    } else {
        refuse(out)
    }
}

/// `=` at the address, of what is in the next value.
#[tactic(auto, using(crate::proofs::Rules::failed_rules))]
pub(crate) fn put_assign(out: &mut Draft, spot: Spot)
    ensures { Grows (Line (store_code spot.node spot.ty spot.own spot.place spot.address
        (value (suc spot.address)) (value (suc spot.address))))
        (suc spot.address < 256) out.old out.new }
{
    if spot.address < 255 {
        let new = Temp::Value(spot.address + 1);
        put_store(out, spot, new, new)
    } else {
        refuse(out)
    }
}

/// A compound assignment at the address, of what is in the next value; an integer is computed in the type `computed`.
#[tactic(auto, using(crate::proofs::Rules::failed_rules))]
pub(crate) fn put_update(out: &mut Draft, spot: Spot, pointer: bool, how: Motion, computed: TypeId)
    ensures { Grows (Line (updating pointer how.operator how.backwards spot.node spot.ty computed
        spot.own spot.place spot.address)) (suc (suc spot.address) < 256) out.old out.new }
{
    if spot.address < 254 {
        if pointer {
            put_pointer_update(out, spot, how, computed)
        } else if spot.ty == computed {
            put_own_update(out, spot, how, computed)
        } else {
            put_converted_update(out, spot, how, computed)
        }
    } else {
        refuse(out)
    }
}

#[tactic(auto, using(crate::proofs::Rules::line_rules))]
fn put_pointer_update(out: &mut Draft, spot: Spot, how: Motion, computed: TypeId)
    requires { spot.address < 254 }
    ensures { Grows (Line (updating true how.operator how.backwards spot.node spot.ty computed
        spot.own spot.place spot.address)) (Unit {0}) out.old out.new }
{
    let by = spot.address + 1;
    let at = by + 1;
    let old = Temp::Value(at);
    put_load(out, at, spot);
    put_motion(out, old, old, Temp::Value(by), how.backwards, spot);
    put_store(out, spot, old, old)
}

/// An integer that is computed in its own type.
#[tactic(auto, using(crate::proofs::Rules::line_rules))]
fn put_own_update(out: &mut Draft, spot: Spot, how: Motion, computed: TypeId)
    requires room { spot.address < 254 }
    requires same { same_type spot.ty computed ≡ true }
    ensures { Grows (Line (updating false how.operator how.backwards spot.node spot.ty computed
        spot.own spot.place spot.address)) (Unit {0}) out.old out.new }
{
    let by = spot.address + 1;
    let at = by + 1;
    let old = Temp::Value(at);
    put_load(out, at, spot);
    put(
        out,
        binary(
            old,
            how.operator,
            old,
            Temp::Value(by),
            computed,
            spot.place,
        ),
    );
    put_store(out, spot, old, old)
}

/// An integer that is computed in another type.
#[tactic(auto, using(crate::proofs::Rules::line_rules))]
fn put_converted_update(out: &mut Draft, spot: Spot, how: Motion, computed: TypeId)
    requires room { spot.address < 254 }
    requires other { same_type spot.ty computed ≡ false }
    ensures { Grows (Line (updating false how.operator how.backwards spot.node spot.ty computed
        spot.own spot.place spot.address)) (Unit {0}) out.old out.new }
{
    let by = spot.address + 1;
    let at = by + 1;
    let old = Temp::Value(at);
    put_load(out, at, spot);
    put(out, converted(old, computed));
    put(
        out,
        binary(
            old,
            how.operator,
            old,
            Temp::Value(by),
            computed,
            spot.place,
        ),
    );
    put(out, converted(old, spot.ty));
    put_store(out, spot, old, old)
}

fn converted(at: Temp, ty: TypeId) -> Instr
    ensures { result ≡ instr.Convert (convert.Integer at at ty) }
{
    Instr::Convert(Convert::Integer {
        into: at,
        from: at,
        ty,
    })
}

/// What a compound assignment does.
pub(crate) fn motion_of(op: Assignment) -> Motion
    ensures { result ≡ record {
      operator = lowered_assignment op;
      backwards = is_subtract
          (operator_of_assignment op);
    } }
{
    Motion {
        operator: lowered_assignment(op),
        backwards: subtracts(op),
    }
}

/// Where an operator writes: the place whose address is in value t.
pub(crate) fn spot_of(k: &Scope<'_>, t: u8, p: &TypedPlace, at: Place) -> Spot
    ensures { result ≡ spot_of (context_of k.now) t (typed_place_view p.now) at }
{
    Spot {
        address: t,
        node: node_in_place(k, p),
        ty: p.ty(),
        own: place_at(p),
        place: at,
    }
}
