//! Lines that set a slot each, as data.
ghost use Rattle.std.specs.Prelude.{◌≡◌};
ghost use Rattle.cured_code.specs.Straight.{instr_of};
ghost use Rattle.check_insert.specs.Views.{straight_of};

use cured_code::{Instr, Narrow};

/// A line that sets a slot: the slot, and what is put there, of other slots. The last number of `Number` is a number
/// itself, that of `AreaOf` an area's, that of `IsBelow` a type node's, and that of `IsPlain` and `GreatestDepth` counts
/// bytes.
#[derive(Clone, Copy)]
pub enum SlotLine {
    Number(u32, u64),
    Same(u32, u32),
    Part(u32, u32, Narrow),
    Sum(u32, u32, u32),
    Difference(u32, u32, u32),
    Product(u32, u32, u32),
    And(u32, u32, u32),
    Or(u32, u32, u32),
    ExclusiveOr(u32, u32, u32),
    Quotient(u32, u32, u32),
    QuotientSigned(u32, u32, u32),
    Equal(u32, u32, u32),
    Different(u32, u32, u32),
    Less(u32, u32, u32),
    LessSigned(u32, u32, u32),
    RemainderSigned(u32, u32, u32),
    AreaOf(u32, u32),
    DepthOf(u32, u32),
    IsBelow(u32, u32, u32),
    SigOf(u32, u32),
    HasRoom(u32, u32),
    LengthOf(u32, u32),
    IsPlain(u32, u32, u32, u64),
    IsTagged(u32, u32, u32),
    BaseOf(u32, u32, u32),
    GreatestDepth(u32, u32, u32, u64),
}

/// The line as an instruction.
pub(crate) fn instruction_of(line: SlotLine) -> Instr
    ensures { result ≡ instr_of (straight_of line) }
{
    match line {
        SlotLine::Number(v, n) => Instr::Const(v, n),
        SlotLine::Same(v, a) => Instr::Copy(v, a),
        SlotLine::Part(v, a, form) => Instr::Ext(v, a, form),
        SlotLine::Sum(v, a, b) => Instr::Add(v, a, b),
        SlotLine::Difference(v, a, b) => Instr::Sub(v, a, b),
        SlotLine::Product(v, a, b) => Instr::Mul(v, a, b),
        SlotLine::And(v, a, b) => Instr::And(v, a, b),
        SlotLine::Or(v, a, b) => Instr::Or(v, a, b),
        SlotLine::ExclusiveOr(v, a, b) => Instr::Xor(v, a, b),
        SlotLine::Quotient(v, a, b) => Instr::Divu(v, a, b),
        SlotLine::QuotientSigned(v, a, b) => Instr::Divs(v, a, b),
        SlotLine::Equal(v, a, b) => Instr::Eq(v, a, b),
        SlotLine::Different(v, a, b) => Instr::Ne(v, a, b),
        SlotLine::Less(v, a, b) => Instr::Ltu(v, a, b),
        SlotLine::LessSigned(v, a, b) => Instr::Lts(v, a, b),
        SlotLine::RemainderSigned(v, a, b) => Instr::Rems(v, a, b),
        SlotLine::AreaOf(v, k) => Instr::Frame(v, k),
        SlotLine::DepthOf(v, a) => Instr::Depth(v, a),
        SlotLine::IsBelow(v, a, n) => Instr::Below(v, a, n),
        SlotLine::SigOf(v, a) => Instr::Sigof(v, a),
        SlotLine::HasRoom(v, a) => Instr::Room(v, a),
        SlotLine::LengthOf(v, b) => Instr::Len(v, b),
        SlotLine::IsPlain(v, a, b, n) => Instr::Plain(v, a, b, n),
        SlotLine::IsTagged(v, a, b) => Instr::Tagged(v, a, b),
        SlotLine::BaseOf(v, a, b) => Instr::Base(v, a, b),
        SlotLine::GreatestDepth(v, a, b, n) => Instr::Tdepth(v, a, b, n),
    }
}
