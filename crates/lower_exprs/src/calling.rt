//! Instructions of calls and allocations.
ghost use Rattle.std.specs.Prelude.{◌≡◌, ◌<◌, suc, map, [], ◌∷◌};
ghost use Rattle.cil_form.specs.declared.instr.Instr.TheVariants as instr;
ghost use Rattle.c_tree.specs.TypedViews.{typed_expr_view, typed_arguments_of};
ghost use Rattle.lower_rules.specs.Pieces.{Line};
ghost use Rattle.lower_rules.specs.Words.{value, RunsRuntime, Allocates};
ghost use Rattle.lower_rules.specs.Expressions.{count};
ghost use Rattle.lower_exprs.specs.Drafts.{Grows};
ghost use Rattle.lower_exprs.specs.Ready.{IsRuntime, IsAllocation};

use crate::draft::Draft;
use crate::pieces::{put, refuse};
use c_tree::{Runtime, TypedExpr};
use cc_base::{NodeId, Place, TypeId};
use cil_form::{Allocate, Call, Instr, RuntimeCall, Temp};

/// A call of the function in value t, with so many arguments behind it.
#[tactic(auto, using(crate::proofs::Rules::failed_rules))]
pub(crate) fn put_call(out: &mut Draft, t: u8, ty: TypeId, count: usize, place: Place)
    ensures { Grows (Line (instr.Call (record {
      into = value t;
      callee = value t;
      ty = ty;
      first =
          suc t;
      count = count;
      place = place;
    }) ∷ []))
        ((suc t < 256) × (count < 4294967296)) out.old out.new }
{
    if t < 255 && count < 4_294_967_296 {
        put(
            out,
            Instr::Call(Call {
                into: Temp::Value(t),
                callee: Temp::Value(t),
                ty,
                first: t + 1,
                count: count as u32,
                place,
            }),
        )
    } else {
        refuse(out)
    }
}

/// How many arguments there are.
#[tactic(auto, using(crate::proofs::Laws::count_arguments))]
pub(crate) fn count(all: &[TypedExpr]) -> usize
    ensures { result ≡ count (typed_arguments_of (map typed_expr_view all.now)) }
{
    all.len()
}

/// A call of a runtime function that is no allocation.
#[tactic(auto, using(crate::proofs::Rules::failed_rules), unfolding(lower_rules::specs::Words::RunsRuntime))]
pub(crate) fn put_runtime(out: &mut Draft, which: Runtime, count: usize, t: u8)
    ensures { Grows (RunsRuntime which count t) (IsRuntime which count t) out.old out.new }
{
    let into = Temp::Value(t);
    match which {
        Runtime::Getchar => {
            if count == 0 {
                put(out, Instr::Runtime(RuntimeCall::Getchar { into }))
            } else {
                refuse(out)
            }
        }
        Runtime::Putchar => {
            if count == 1 && t < 255 {
                let value = Temp::Value(t + 1);
                put(out, Instr::Runtime(RuntimeCall::Putchar { into, value }))
            } else {
                refuse(out)
            }
        }
        Runtime::Free => {
            if count == 1 && t < 255 {
                let pointer = Temp::Value(t + 1);
                put(out, Instr::Runtime(RuntimeCall::Free { into, pointer }))
            } else {
                refuse(out)
            }
        }
        Runtime::Exit => {
            if count == 1 && t < 255 {
                let status = Temp::Value(t + 1);
                put(out, Instr::Runtime(RuntimeCall::Exit { into, status }))
            } else {
                refuse(out)
            }
        }
        Runtime::Malloc => refuse(out),
        Runtime::Calloc => refuse(out),
    }
}

/// What an allocation is for: the node of the pointer, the type that its block is made for, and its place.
#[derive(Clone, Copy)]
pub(crate) struct Block {
    pub(crate) node: NodeId,
    pub(crate) ty: TypeId,
    pub(crate) place: Place,
}

pub(crate) fn block_of(node: NodeId, ty: TypeId, place: Place) -> Block
    ensures { result ≡ record { node = node; ty = ty; place = place } }
{
    Block { node, ty, place }
}

/// An allocation.
#[tactic(auto, using(crate::proofs::Rules::failed_rules), unfolding(lower_rules::specs::Words::Allocates))]
pub(crate) fn put_allocation(out: &mut Draft, which: Runtime, count: usize, t: u8, block: Block)
    ensures { Grows (Allocates which count t block.node block.ty block.place)
        (IsAllocation which count t) out.old out.new }
{
    let into = Temp::Value(t);
    let Block { node, ty, place } = block;
    match which {
        Runtime::Malloc => {
            if count == 1 && t < 255 {
                let size = Temp::Value(t + 1);
                put(
                    out,
                    Instr::Allocate(Allocate::Malloc {
                        into,
                        size,
                        node,
                        ty,
                        place,
                    }),
                )
            } else {
                refuse(out)
            }
        }
        Runtime::Calloc => {
            if count == 2 && t < 254 {
                put(
                    out,
                    Instr::Allocate(Allocate::Calloc {
                        into,
                        count: Temp::Value(t + 1),
                        size: Temp::Value(t + 2),
                        node,
                        ty,
                        place,
                    }),
                )
            } else {
                refuse(out)
            }
        }
        Runtime::Free => refuse(out),
        Runtime::Getchar => refuse(out),
        Runtime::Putchar => refuse(out),
        Runtime::Exit => refuse(out),
    }
}
