//! The values of integer types, and the operators on them (C99 6.2.6.2, 6.3.1.3, 6.5). An operator wraps in 128 bits first, and its result is
//! then converted to the type.
#![tactic(auto)]

ghost use Rattle.std.specs.Prelude.{◌≡◌, ◌≢◌, ◌^◌, pos, negsuc, neg_ℤ, ◌+ℤ◌, ◌-ℤ◌, ◌*ℤ◌, int_div, int_rem, int_lt, int_le, bit_and, bit_or, bit_xor, true, false, ◌&&◌};
ghost use Rattle.std.specs.Ordering.{int_eq};
ghost use Rattle.c_types.specs.Sound.{IsIntegerSize};
ghost use Rattle.integers.specs.Arithmetic as arithmetic;
ghost use Rattle.integers.specs.Words.{residue, word};
ghost use Rattle.c_typing.specs.KindViews.{kind_view};

use crate::kind::Kind;

/// 2 to the number of bits of a type.
pub fn values(kind: Kind) -> i128
    requires { IsIntegerSize kind.bytes }
    ensures { result ≡ pos (2 ^ arithmetic.bits_of (kind_view kind)) }
{
    match kind.bytes {
        1 => 256,
        2 => 65_536,
        4 => 4_294_967_296,
        _ => 18_446_744_073_709_551_616,
    }
}

/// An integer converted to a type.
pub fn converted(kind: Kind, z: i128) -> i128
    requires { IsIntegerSize kind.bytes }
    ensures { result ≡ arithmetic.converted (kind_view kind) z }
{
    let count = values(kind);
    let rest = z.rem_euclid(count);
    if kind.signed && rest >= count / 2 {
        rest - count
    } else {
        rest
    }
}

/// The word of 64 bits that holds an integer.
pub fn word(z: i128) -> u64
    ensures { result ≡ word z }
{
    z.rem_euclid(18_446_744_073_709_551_616) as u64
}

/// The sum of two values, in a type.
pub fn sum(kind: Kind, x: i128, y: i128) -> i128
    requires { IsIntegerSize kind.bytes }
    ensures { result ≡ arithmetic.converted (kind_view kind) (x +ℤ y) }
{
    converted(kind, x.wrapping_add(y))
}

/// Their difference.
pub fn difference(kind: Kind, x: i128, y: i128) -> i128
    requires { IsIntegerSize kind.bytes }
    ensures { result ≡ arithmetic.converted (kind_view kind) (x -ℤ y) }
{
    converted(kind, x.wrapping_sub(y))
}

/// Their product.
pub fn product(kind: Kind, x: i128, y: i128) -> i128
    requires { IsIntegerSize kind.bytes }
    ensures { result ≡ arithmetic.converted (kind_view kind) (x *ℤ y) }
{
    converted(kind, x.wrapping_mul(y))
}

/// `-`.
pub fn negated(kind: Kind, x: i128) -> i128
    requires { IsIntegerSize kind.bytes }
    ensures { result ≡ arithmetic.converted (kind_view kind) (neg_ℤ x) }
{
    difference(kind, 0, x)
}

/// `~`.
pub fn complement(kind: Kind, x: i128) -> i128
    requires { IsIntegerSize kind.bytes }
    ensures { result ≡ arithmetic.converted (kind_view kind) (negsuc 0 -ℤ x) }
{
    converted(kind, (-1i128).wrapping_sub(x))
}

/// The quotient, rounded towards zero.
pub fn quotient(kind: Kind, x: i128, y: i128) -> i128
    requires size { IsIntegerSize kind.bytes }
    requires divisor { y ≢ pos 0 }
    ensures { result ≡ arithmetic.converted (kind_view kind) (int_div x y) }
{
    if same(y, -1) {
        return negated(kind, x);
    }
    converted(kind, x / y)
}

/// The remainder of a division that rounds towards zero.
pub fn remainder(kind: Kind, x: i128, y: i128) -> i128
    requires size { IsIntegerSize kind.bytes }
    requires divisor { y ≢ pos 0 }
    ensures { result ≡ arithmetic.converted (kind_view kind) (int_rem x y) }
{
    if same(y, -1) {
        return 0;
    }
    converted(kind, x % y)
}

/// 2 to the amount of a shift, which is taken modulo the width of the type.
fn power(kind: Kind, y: i128) -> i128
    requires { IsIntegerSize kind.bytes }
    ensures { result ≡ pos (2 ^ arithmetic.shift_amount (kind_view kind) y) }
{
    let width = i128::from(8 * kind.bytes);
    1i128 << (y.rem_euclid(width) as u32)
}

/// `<<`.
pub fn shifted_left(kind: Kind, x: i128, y: i128) -> i128
    requires { IsIntegerSize kind.bytes }
    ensures { result ≡ arithmetic.computed arithmetic.ShiftLeft (kind_view kind) x y }
{
    product(kind, x, power(kind, y))
}

/// `>>`.
pub fn shifted_right(kind: Kind, x: i128, y: i128) -> i128
    requires { IsIntegerSize kind.bytes }
    ensures { result ≡ arithmetic.computed arithmetic.ShiftRight (kind_view kind) x y }
{
    converted(kind, x.div_euclid(power(kind, y)))
}

/// `&`.
pub fn both_bits(kind: Kind, x: i128, y: i128) -> i128
    requires { IsIntegerSize kind.bytes }
    ensures { result ≡ arithmetic.computed arithmetic.And (kind_view kind) x y }
{
    converted(kind, i128::from(word(x) & word(y)))
}

/// `|`.
pub fn either_bits(kind: Kind, x: i128, y: i128) -> i128
    requires { IsIntegerSize kind.bytes }
    ensures { result ≡ arithmetic.computed arithmetic.Or (kind_view kind) x y }
{
    converted(kind, i128::from(word(x) | word(y)))
}

/// `^`.
pub fn other_bits(kind: Kind, x: i128, y: i128) -> i128
    requires { IsIntegerSize kind.bytes }
    ensures { result ≡ arithmetic.computed arithmetic.ExclusiveOr (kind_view kind) x y }
{
    converted(kind, i128::from(word(x) ^ word(y)))
}

/// The integer of a truth value.
pub fn truth(fact: bool) -> i128
    ensures { result ≡ arithmetic.truth fact }
{
    if fact { 1 } else { 0 }
}

/// The least value of a signed type.
pub fn least(kind: Kind) -> i128
    requires { IsIntegerSize kind.bytes }
    ensures { result ≡ arithmetic.least (kind_view kind) }
{
    match kind.bytes {
        1 => -128,
        2 => -32_768,
        4 => -2_147_483_648,
        _ => -9_223_372_036_854_775_808,
    }
}

/// Whether this is the least value of a signed type, divided by -1.
fn is_too_large(kind: Kind, x: i128, y: i128) -> bool
    requires { IsIntegerSize kind.bytes }
    ensures { result ≡ kind.signed && (int_eq x (arithmetic.least (kind_view kind)) && int_eq y
        (negsuc 0)) }
{
    if !kind.signed {
        return false;
    }
    let is_least = same(x, least(kind));
    let is_minus_one = same(y, -1);
    is_least && is_minus_one
}

/// Whether a division has a result.
pub fn can_divide(kind: Kind, x: i128, y: i128) -> bool
    requires { IsIntegerSize kind.bytes }
    ensures { result ≡ arithmetic.can_divide (kind_view kind) x y }
{
    let is_zero = same(y, 0);
    let is_large = is_too_large(kind, x, y);
    !is_zero && !is_large
}

/// Whether two values are one.
pub fn same(x: i128, y: i128) -> bool
    ensures { result ≡ int_eq x y }
{
    x == y
}

/// `==`.
pub fn equal(x: i128, y: i128) -> i128
    ensures { result ≡ arithmetic.truth (int_eq x y) }
{
    truth(same(x, y))
}

/// `<`.
pub fn less(x: i128, y: i128) -> i128
    ensures { result ≡ arithmetic.truth (int_lt x y) }
{
    truth(x < y)
}

/// `<=`.
pub fn less_or_equal(x: i128, y: i128) -> i128
    ensures { result ≡ arithmetic.truth (int_le x y) }
{
    truth(x <= y)
}
