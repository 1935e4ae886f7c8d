//! Tests, and operators that may trap.
ghost use Rattle.std.specs.Prelude.{◌≡◌, ℕ, IsTrue, length};
ghost use Rattle.integers.specs.Words.{truth_word};
ghost use Rattle.integers.specs.Operators.{can_divide_signed, quotient_signed, remainder_signed, less_signed};
ghost use Rattle.cured_code.specs.Groups.{Tests};
ghost use Rattle.cured_machine.specs.Operations.{instr_of, own_group};
ghost use Rattle.cured_machine.specs.Rows.{IsNamed, IsSlotRow};

use crate::operation::Operation;
use crate::row::Row;

/// The word of a truth value.
#[inline(always)]
pub(crate) fn truth(holds: bool) -> u64
    ensures { result ≡ truth_word holds }
{
    if holds { 1 } else { 0 }
}

#[inline(always)]
fn is_less_signed(a: u64, b: u64) -> u64
    ensures { result ≡ less_signed a b }
{
    truth(a.cast_signed() < b.cast_signed())
}

#[inline(always)]
fn has_quotient(a: u64, b: u64) -> bool
    ensures { result ≡ can_divide_signed a b }
{
    b != 0 && !(a == 9_223_372_036_854_775_808 && b == u64::MAX)
}

#[inline(always)]
fn divide_signed(a: u64, b: u64) -> u64
    requires { IsTrue (can_divide_signed a b) }
    ensures { result ≡ quotient_signed a b }
{
    (a.cast_signed() / b.cast_signed()).cast_unsigned()
}

#[inline(always)]
fn rest_signed(a: u64, b: u64) -> u64
    requires { IsTrue (can_divide_signed a b) }
    ensures { result ≡ remainder_signed a b }
{
    (a.cast_signed() % b.cast_signed()).cast_unsigned()
}

#[inline(always)]
pub(crate) fn act_tests(operation: &Operation, frame: &mut [u64]) -> Row
    requires { (areas : ℕ) × IsNamed (instr_of operation.now) (length frame.old) areas }
    ensures { IsSlotRow (own_group operation.now ≡ Tests)
        (instr_of operation.now) frame.old frame.new result }
{
    match *operation {
        Operation::Divu(v, a, b) => {
            let divisor = frame[b as usize];
            if divisor == 0 {
                return Row::Trapped;
            }
            frame[v as usize] = frame[a as usize] / divisor;
        }
        Operation::Remu(v, a, b) => {
            let divisor = frame[b as usize];
            if divisor == 0 {
                return Row::Trapped;
            }
            frame[v as usize] = frame[a as usize] % divisor;
        }
        Operation::Divs(v, a, b) => {
            let (dividend, divisor) = (frame[a as usize], frame[b as usize]);
            if !has_quotient(dividend, divisor) {
                return Row::Trapped;
            }
            frame[v as usize] = divide_signed(dividend, divisor);
        }
        Operation::Rems(v, a, b) => {
            let (dividend, divisor) = (frame[a as usize], frame[b as usize]);
            if !has_quotient(dividend, divisor) {
                return Row::Trapped;
            }
            frame[v as usize] = rest_signed(dividend, divisor);
        }
        Operation::Eq(v, a, b) => frame[v as usize] = truth(frame[a as usize] == frame[b as usize]),
        Operation::Ne(v, a, b) => frame[v as usize] = truth(frame[a as usize] != frame[b as usize]),
        Operation::Ltu(v, a, b) => frame[v as usize] = truth(frame[a as usize] < frame[b as usize]),
        Operation::Lts(v, a, b) => frame[v as usize] = is_less_signed(
            frame[a as usize],
            frame[b as usize],
        ),
        _ => return Row::Other,
    }
    Row::Done
}
