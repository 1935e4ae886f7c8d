//! The machine, from its making to the end of its run.
use crate::operation::Operation;
use cured_code::Parts;
use flat_mem::{Flat, FramePlan};
use std::marker::Model;

/// A function that waits for one that it called: its number, the slot that the results begin at, where its slots begin, and
/// the place of its call among the operations.
#[derive(Clone, Copy)]
pub(crate) struct Waiting {
    pub(crate) function: u32,
    pub(crate) into: u32,
    pub(crate) base: usize,
    pub(crate) call: usize,
}

/// A cured program before its run, with all the memory that the run takes. Contracts see it as the program's parts.
#[derive(Drop)]
pub struct Machine<'a> {
    pub(crate) parts: &'a Parts,
    // the program's code, laid out, and where the bodies of its functions begin
    pub(crate) operations: Vec<Operation<'a>>,
    pub(crate) starts: Vec<usize>,
    pub(crate) flat: Flat,
    // each function's frame, laid out
    pub(crate) frames: Vec<FramePlan>,
    // room for the slots of the live functions
    pub(crate) slots: Vec<u64>,
    // room for the functions that wait
    pub(crate) callers: Vec<Waiting>,
}

impl<'a> Model for Machine<'a> {
    ghost use Rattle.std.specs.Prelude.{vec_len, vec_capacity, ◌≡◌, []};
    ghost use Rattle.std.specs.Coded.{codes};
    ghost use Rattle.cured_code.specs.declared.parts.Parts.{Parts};
    ghost use Rattle.cured_code.specs.contracts.instr.Instr as instr;
    ghost use Rattle.cured_machine.specs.Ready.{IsReady};

    ghost Value = { Parts };

    ghost coded = { Prim.hlevel (codes, instr.the_row.coded) };

    ghost view = { λ m. m.parts.now };

    ghost invariant = { λ m. IsReady m.parts.now m.flat m.frames.items (vec_len m.slots) (vec_capacity m.callers) m.operations.items m.starts.items × (m.callers.items ≡ []) };
}
