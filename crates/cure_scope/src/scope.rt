//! What code is cured by, and the slots of a function.
ghost use Rattle.std.specs.Prelude.{◌≡◌, ◌+◌, ◌≤◌, ◌<◌, ◌^◌, Some, None, true, false};
ghost use Rattle.cc_base.specs.Kinds.{kind_at};
ghost use Rattle.c_types.specs.Table.{shape_at};
ghost use Rattle.c_types.specs.Cells.{IsBetweenPointers};
ghost use Rattle.c_types.specs.Equality.{cells_of};
ghost use Rattle.cure_rules.specs.Known.{reach_by, source_size, cured_size, pointer_slots};
ghost use Rattle.cure_scope.specs.Scopes.{fixed_column, fixed_work, world_of, whole_of};

use c_types::{TypeShape, Types};
use cc_base::{Kind, NodeId, TypeId};
use check_forms::{PointerSlots, Work};
use cil_form::{Planned, Temp, Work as Inner};
use fat_layouts::Layouts;

/// What the code of a function is cured by.
pub struct Scope<'a> {
    /// The types of the program, with the bytes that they take once cured.
    pub layouts: &'a Layouts<'a>,
    /// The kind of each node.
    pub kinds: &'a [Kind],
    /// The number of the type node that pointers to each type carry, and of the signature of functions of the type.
    pub nodes: &'a [u32],
    pub signatures: &'a [u32],
    /// The static objects, and the addresses of their areas.
    pub statics: &'a [Planned],
    pub addresses: &'a [u64],
    /// How many functions are defined.
    pub functions: u32,
    /// The variables of the function, the type of its result, its number in the cured program, and how many words its
    /// parameters take.
    pub variables: &'a [Planned],
    pub result: Option<TypeId>,
    pub number: u32,
    pub parameters: u32,
}

/// A slot that is never written.
pub const NOUGHT: u32 = 381;

/// The working slots that instructions name, one for each role.
pub const FIRST: u32 = 382;

pub const SECOND: u32 = 383;

pub const MOVED: u32 = 385;

pub const SIZE: u32 = 386;

pub const LEAST: u32 = 387;

pub const SPAN: u32 = 388;

pub const LEAST_FACTOR: u32 = 389;

pub const SPAN_FACTOR: u32 = 390;

pub const SEVEN: u32 = 391;

pub const EIGHT: u32 = 392;

pub const LAST: u32 = 393;

pub const SIGNATURE: u32 = 394;

pub const OFFSET: u32 = 395;

pub const MASK: u32 = 396;

pub const ADDRESS: u32 = 397;

pub const BASE: u32 = 398;

pub const WORD: u32 = 399;

pub const OTHER_WORD: u32 = 400;

pub const AMOUNT: u32 = 402;

pub const BYTES: u32 = 403;

pub const CHARGE: u32 = 404;

pub const MADE: u32 = 405;

/// The working slots of checks.
pub(crate) fn work() -> Work
    ensures { result ≡ fixed_work }
{
    Work {
        x: FIRST,
        y: SECOND,
        z: 384,
        to: MOVED,
        none: NOUGHT,
    }
}

/// Where the column of a temporary begins.
pub fn column(t: Temp) -> u32
    ensures value { result ≡ fixed_column t }
    ensures small { result + 3 ≤ 1948 }
{
    match t {
        Temp::Work(Inner::First) => 406,
        Temp::Work(Inner::Second) => 409,
        Temp::Value(n) => 412 + 3 * u32::from(n),
        Temp::Switch(n) => 1180 + 3 * u32::from(n),
    }
}

/// The slots of a pointer's words, which follow one another.
pub fn pointer_slots(a: u32) -> PointerSlots
    requires { a + 3 ≤ 1948 }
    ensures { result ≡ pointer_slots a }
{
    PointerSlots {
        first: a,
        second: a + 1,
        third: a + 2,
    }
}

impl<'a> Scope<'a> {
    /// The kind of a node.
    pub fn kind_of(&self, node: NodeId) -> Kind
        ensures { result ≡ kind_at self.now.kinds.now node }
    {
        match self.kinds.get(node.0 as usize) {
            Some(kind) => *kind,
            None => Kind::Safe,
        }
    }
}
