//! The cured code of operators on integers, and of truth values.
ghost use Rattle.std.specs.Prelude.{◌≡◌, ◌+◌, ◌-◌, ◌≤◌, ◌^◌, [], ◌∷◌, Some, None, IfSome, IfNone, true, false, Option, IsSome};
ghost use Rattle.integers.specs.Words.{word};
ghost use Rattle.integers.specs.Arithmetic.{bits_of, least};
ghost use Rattle.cc_base.specs.declared.kind.Kind.TheVariants.{Safe};
ghost use Rattle.cured_code.specs.declared.instr.Instr.TheVariants as instr;
ghost use Rattle.check_forms.specs.Pieces.{Line, Then};
ghost use Rattle.check_insert.specs.Drafts.{Grows};
ghost use Rattle.cil_form.specs.Typing.{Typing, HeldType, IntegerOf};
ghost use Rattle.c_types.specs.Table.{shape_at};
ghost use Rattle.c_types.specs.declared.shape.TypeShape.TheVariants as shape;
ghost use Rattle.cure_rules.specs.Checks.{divide_by};
ghost use Rattle.cure_rules.specs.Setting.{is_wide, less, comparison_lines};
ghost use Rattle.cure_scope.specs.Scopes.{fixed_column, seat, whole_of, world_of};
ghost use Rattle.cure_scope.specs.Needs.{Guards};
ghost use Rattle.cure_instrs.specs.Lines.{width_view, held_view, held_views, IsIntegerAt, HasInteger, Reckoned, Divided, masked, shifted_right, binary_lines, tested_slot, tested_lines};
ghost use Rattle.c_types.specs.Sound.{IsIntegerSize};
ghost use Rattle.cil_form.specs.declared.instr.Calculate.TheVariants as calculate;
ghost use Rattle.cure_instrs.specs.Cured.{CalculateCured, CanCalculate, IsAsked};

use crate::held::{Held, Width, is_wide};
use crate::pieces::{put_narrowing, put_two};
use c_types::TypeShape;
use cc_base::{Kind, Place, TypeId};
use check_forms::{Fixed, Op};
use check_insert::{Draft, keep, put, refuse};
use cil_form::{Calculate, Comparison, Operator, Temp};
use cure_scope::{FIRST, LEAST, MASK, NOUGHT, SPAN, Scope, column, put_guarded};
use cured_code::Instr;

/// The integer type that a type is.
#[tactic(auto, unfolding(crate::specs::Lines::IsIntegerAt, crate::specs::Lines::HasInteger))]
pub fn integer_in(k: &Scope<'_>, t: TypeId) -> Option<Width>
    ensures there { IfSome result (λ i. IsIntegerAt (whole_of k.now) t (width_view i)) }
    ensures none { IfNone result (HasInteger (whole_of k.now) t → ⊥) }
{
    let types = k.layouts.types();
    if t.0 < types.count() {
        match types.shape(t) {
            TypeShape::Integer { bytes, signed } => {
                let bytes = *bytes;
                let signed = *signed;
                if bytes == 1 || bytes == 2 || bytes == 4 || bytes == 8 {
                    Some(Width { bytes, signed })
                } else {
                    None
                }
            }
            _ => None,
        }
    } else {
        None
    }
}

/// An operator whose result is narrowed to the type.
#[tactic(auto, using(cure_scope::proofs::Laws::grows_row))]
fn put_reckoned(out: &mut Draft, one: Instr, i: Width, v: u32)
    ensures { Grows (Reckoned one (width_view i) v) (Unit {0}) out.old out.new }
{
    put(out, one);
    put_narrowing(out, v, i)
}

/// The word of the least integer of a signed type of so many bytes.
fn least_word(bytes: u64) -> u64
    requires { IsIntegerSize bytes }
    ensures { result ≡ word (least (record { bytes = bytes; signed = true })) }
{
    match bytes {
        1 => 18446744073709551488,
        2 => 18446744073709518848,
        4 => 18446744071562067968,
        _ => 9223372036854775808,
    }
}

/// What a division asks.
fn division(i: Width, a: u32, b: u32) -> Op
    requires { IsIntegerSize i.bytes }
    ensures { result ≡ divide_by seat (width_view i) a b }
{
    if i.signed {
        Op::DivideSigned {
            a,
            b,
            least: Fixed {
                slot: LEAST,
                value: least_word(i.bytes),
            },
            minus_one: Fixed {
                slot: SPAN,
                value: u64::MAX,
            },
        }
    } else {
        Op::DivideUnsigned { a, b }
    }
}

/// A quotient or a remainder of slots a and b.
#[tactic(auto, using(cure_scope::proofs::Laws::grows_row))]
fn put_divided(out: &mut Draft, i: Width, signed: Instr, unsigned: Instr, ab: (u32, u32), at: Place)
    requires { IsIntegerSize i.bytes }
    ensures { Grows (Divided signed unsigned (width_view i) ab.0 ab.1 at)
        (Unit {0}) out.old out.new }
{
    put_guarded(out, division(i, ab.0, ab.1), Kind::Safe, at);
    put(out, if i.signed { signed } else { unsigned })
}

/// The amount of a shift.
fn put_masked(out: &mut Draft, i: Width, b: u32)
    requires { IsIntegerSize i.bytes }
    ensures { Grows (Line (masked (width_view i) b)) (Unit {0}) out.old out.new }
{
    put_two(
        out,
        Instr::Const(MASK, 8 * i.bytes - 1),
        Instr::And(FIRST, b, MASK),
    )
}

/// `<`.
fn less(signed: bool, v: u32, a: u32, b: u32) -> Instr
    ensures { result ≡ less signed v a b }
{
    if signed {
        Instr::Lts(v, a, b)
    } else {
        Instr::Ltu(v, a, b)
    }
}

/// A comparison of slots a and b.
pub fn put_compared(out: &mut Draft, which: Comparison, signed: bool, v: u32, a: u32, b: u32)
    ensures { Grows (Line (comparison_lines which signed 381 v a b)) (Unit {0}) out.old out.new }
{
    match which {
        Comparison::Equal => put(out, Instr::Eq(v, a, b)),
        Comparison::Different => put(out, Instr::Ne(v, a, b)),
        Comparison::Less => put(out, less(signed, v, a, b)),
        Comparison::LessOrEqual => put_two(out, less(signed, v, b, a), Instr::Eq(v, v, NOUGHT)),
        Comparison::Greater => put(out, less(signed, v, b, a)),
        Comparison::GreaterOrEqual => put_two(out, less(signed, v, a, b), Instr::Eq(v, v, NOUGHT)),
    }
}

/// The instruction of a shift to the right.
fn shifted_right(signed: bool, v: u32, a: u32, b: u32) -> Instr
    ensures { result ≡ shifted_right signed v a b }
{
    if signed {
        Instr::Sar(v, a, b)
    } else {
        Instr::Shr(v, a, b)
    }
}

/// The slots of an operator: its result, its left operand, its right operand.
#[derive(Clone, Copy)]
pub(crate) struct Operands {
    pub(crate) v: u32,
    pub(crate) a: u32,
    pub(crate) b: u32,
}

/// An operator on two slots.
fn put_binary(out: &mut Draft, i: Width, operator: Operator, on: Operands, at: Place)
    requires { IsIntegerSize i.bytes }
    ensures { Grows (binary_lines operator (width_view i) on.v on.a on.b at)
        (Unit {0}) out.old out.new }
{
    let Operands { v, a, b } = on;
    match operator {
        Operator::Add => put_reckoned(out, Instr::Add(v, a, b), i, v),
        Operator::Subtract => put_reckoned(out, Instr::Sub(v, a, b), i, v),
        Operator::Multiply => put_reckoned(out, Instr::Mul(v, a, b), i, v),
        Operator::And => put_reckoned(out, Instr::And(v, a, b), i, v),
        Operator::Or => put_reckoned(out, Instr::Or(v, a, b), i, v),
        Operator::ExclusiveOr => put_reckoned(out, Instr::Xor(v, a, b), i, v),
        Operator::Divide => put_divided(
            out,
            i,
            Instr::Divs(v, a, b),
            Instr::Divu(v, a, b),
            (a, b),
            at,
        ),
        Operator::Remainder => put_divided(
            out,
            i,
            Instr::Rems(v, a, b),
            Instr::Remu(v, a, b),
            (a, b),
            at,
        ),
        Operator::ShiftLeft => {
            put_masked(out, i, b);
            put_reckoned(out, Instr::Shl(v, a, FIRST), i, v)
        }
        Operator::ShiftRight => {
            put_masked(out, i, b);
            put(out, shifted_right(i.signed, v, a, FIRST))
        }
        Operator::Compare(which) => put_compared(out, which, i.signed, v, a, b),
    }
}

/// A value is made ready to be tested: the slot that isn't 0 where it is true.
pub fn put_tested(out: &mut Draft, k: &Scope<'_>, held: Held, t: Temp) -> u32
    ensures slot { result ≡ tested_slot (is_wide (whole_of k.now) (held_view held))
        (fixed_column t) }
    ensures made { Grows (Line (tested_lines (is_wide (whole_of k.now) (held_view held))
        (fixed_column t))) (Unit {0}) out.old out.new }
{
    let a = column(t);
    if is_wide(k, held) {
        put(out, Instr::Or(FIRST, a, a + 1));
        FIRST
    } else {
        keep(out);
        a
    }
}

/// `-` in a type.
#[tactic(auto, using(crate::proofs::PieceLaws::refused))]
fn put_negate(out: &mut Draft, k: &Scope<'_>, into: Temp, operand: Temp, ty: TypeId)
    ensures { (types : Typing) → Grows (CalculateCured (calculate.Negate into operand ty)
        (world_of k.now) types) (HasInteger (whole_of k.now) ty) out.old out.new }
{
    match integer_in(k, ty) {
        Some(i) => {
            let v = column(into);
            put_reckoned(out, Instr::Sub(v, NOUGHT, column(operand)), i, v)
        }
        None => refuse(out),
    }
}

/// `~` in a type.
#[tactic(auto, using(crate::proofs::PieceLaws::refused))]
fn put_complement(out: &mut Draft, k: &Scope<'_>, into: Temp, operand: Temp, ty: TypeId)
    ensures { (types : Typing) → Grows (CalculateCured (calculate.Complement into operand ty)
        (world_of k.now) types) (HasInteger (whole_of k.now) ty) out.old out.new }
{
    match integer_in(k, ty) {
        Some(i) => {
            let v = column(into);
            put(out, Instr::Const(MASK, u64::MAX));
            put_reckoned(out, Instr::Xor(v, column(operand), MASK), i, v)
        }
        None => refuse(out),
    }
}

/// An operator and its temporaries.
#[derive(Clone, Copy)]
struct Operation {
    operator: Operator,
    into: Temp,
    left: Temp,
    right: Temp,
    ty: TypeId,
}

/// An operator on integers of a type.
#[tactic(auto, using(crate::proofs::PieceLaws::refused))]
fn put_operation(out: &mut Draft, k: &Scope<'_>, o: Operation, at: Place)
    ensures { (types : Typing) → Grows (CalculateCured (calculate.Binary o.into o.operator o.left
        o.right o.ty at) (world_of k.now) types)
        (HasInteger (whole_of k.now) o.ty) out.old out.new }
{
    match integer_in(k, o.ty) {
        Some(i) => put_binary(
            out,
            i,
            o.operator,
            Operands {
                v: column(o.into),
                a: column(o.left),
                b: column(o.right),
            },
            at,
        ),
        None => refuse(out),
    }
}

/// Whether the operand is true.
#[tactic(auto, using(crate::proofs::PieceLaws::refused))]
fn put_truth(out: &mut Draft, k: &Scope<'_>, held: Option<Held>, into: Temp, operand: Temp)
    ensures { (types : Typing) → types operand ≡ held_views held
        → Grows (CalculateCured (calculate.Truth into operand) (world_of k.now) types)
        (IsSome (held_views held)) out.old out.new }
{
    match held {
        Some(held) => {
            let a = put_tested(out, k, held, operand);
            put(out, Instr::Ne(column(into), a, NOUGHT))
        }
        None => refuse(out),
    }
}

/// Whether the operand is false.
#[tactic(auto, using(crate::proofs::PieceLaws::refused))]
fn put_not(out: &mut Draft, k: &Scope<'_>, held: Option<Held>, into: Temp, operand: Temp)
    ensures { (types : Typing) → types operand ≡ held_views held
        → Grows (CalculateCured (calculate.Not into operand) (world_of k.now) types)
        (IsSome (held_views held)) out.old out.new }
{
    match held {
        Some(held) => {
            let a = put_tested(out, k, held, operand);
            put(out, Instr::Eq(column(into), a, NOUGHT))
        }
        None => refuse(out),
    }
}

/// An operator on integers, or a truth value. `held` is what the operand holds whose truth value is wanted.
pub fn put_calculate(out: &mut Draft, k: &Scope<'_>, held: Option<Held>, i: Calculate)
    ensures { (types : Typing) → IsAsked i types (held_views held)
        → Grows (CalculateCured i (world_of k.now) types)
        (CanCalculate i (whole_of k.now) (held_views held)) out.old out.new }
{
    match i {
        Calculate::Negate { into, operand, ty } => put_negate(out, k, into, operand, ty),
        Calculate::Complement { into, operand, ty } => put_complement(out, k, into, operand, ty),
        Calculate::Binary {
            into,
            operator,
            left,
            right,
            ty,
            place,
        } => put_operation(
            out,
            k,
            Operation {
                operator,
                into,
                left,
                right,
                ty,
            },
            place,
        ),
        Calculate::Truth { into, operand } => put_truth(out, k, held, into, operand),
        Calculate::Not { into, operand } => put_not(out, k, held, into, operand),
    }
}
