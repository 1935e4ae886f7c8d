//! Numbers.
ghost use Rattle.std.specs.Prelude.{◌≡◌, ◌<◌, ◌≤◌, ◌==◌, ◌&&◌, ◌||◌, ◌+◌, ◌*◌, nat_lt, length, count_by, true, false};
ghost use Rattle.std.specs.List.{prefix_len, list_all};
ghost use Rattle.std.specs.Char.{is_ascii_digit, is_ascii_hexdigit, digit_value};
ghost use Rattle.c_lexer.specs.Bytes.{begins_with};
ghost use Rattle.c_lexer.specs.Numbers.{is_sign, is_exponent_letter, goes_on, begins_number, is_hexadecimal, radix_of, digits_of, suffix_of, value_in, has_value, limit_of, is_unsigned_letter, is_long_letter, is_suffix, may_have, type_of, integer_of, after_run, is_floating_suffix, after_sign, is_exponent, is_decimal_letter, is_binary_letter, is_floating_in, is_floating, has_long_long_suffix, number_kind, in_64_bits};
ghost use Rattle.c_lexer.specs.Reading.{number_run, number_size};

use crate::byte::{begins_with_digit, digit_run, is_word_byte};
use crate::token::TokenKind;
use cc_base::Rule;

/// The type of an integer constant (C99 6.4.4.1): an int has 32 bits, a long 64.
#[derive(Clone, Copy, Debug, PartialEq, Eq)]
pub enum IntegerType {
    Int,
    Unsigned,
    Long,
    UnsignedLong,
}

const INTEGER_TYPES: [IntegerType; 4] = [
    IntegerType::Int,
    IntegerType::Unsigned,
    IntegerType::Long,
    IntegerType::UnsignedLong,
];

fn is_sign(byte: u8) -> bool
    ensures { result ≡ is_sign byte }
{
    byte == b'+' || byte == b'-'
}

fn is_decimal_letter(byte: u8) -> bool
    ensures { result ≡ is_decimal_letter byte }
{
    byte == b'e' || byte == b'E'
}

fn is_binary_letter(byte: u8) -> bool
    ensures { result ≡ is_binary_letter byte }
{
    byte == b'p' || byte == b'P'
}

fn is_exponent_letter(byte: u8) -> bool
    ensures { result ≡ is_exponent_letter byte }
{
    is_decimal_letter(byte) || is_binary_letter(byte)
}

fn goes_on(previous: u8, byte: u8) -> bool
    ensures { result ≡ goes_on previous byte }
{
    is_word_byte(byte) || byte == b'.' || (is_exponent_letter(previous) && is_sign(byte))
}

/// Whether a digit, or a point and a digit, comes.
pub(crate) fn begins_number(text: &[u8]) -> bool
    ensures { result ≡ begins_number text.now }
{
    match text.split_first() {
        Some((first, rest)) => first.is_ascii_digit()
            || (*first == b'.' && begins_with_digit(rest)),
        None => false,
    }
}

/// How many bytes of a number follow the one before.
fn number_run(first: u8, text: &[u8]) -> usize
    ensures value { result ≡ number_run first text.now }
    ensures fits { result ≤ length text.now }
{
    let mut previous = first;
    for (size, byte) in text.iter().enumerate() {
        if !goes_on(previous, *byte) {
            return size;
        }
        previous = *byte;
    }
    text.len()
}

/// How many bytes the number has that the text begins with.
pub(crate) fn number_size(text: &[u8]) -> usize
    ensures value { result ≡ number_size text.now }
    ensures fits { result ≤ length text.now }
{
    match text.split_first() {
        Some((first, rest)) => 1 + number_run(*first, rest),
        None => 0,
    }
}

fn digit_value(byte: u8) -> u8
    ensures { result ≡ digit_value byte }
{
    match byte {
        b'0'..=b'9' => byte - b'0',
        b'A'..=b'Z' => byte - b'A' + 10,
        b'a'..=b'z' => byte - b'a' + 10,
        _ => 36,
    }
}

pub(crate) fn hexadecimal_run(text: &[u8]) -> usize
    ensures value { result ≡ prefix_len is_ascii_hexdigit text.now }
    ensures fits { result ≤ length text.now }
{
    text.iter()
        .take_while(|byte| byte.is_ascii_hexdigit())
        .count()
}

fn is_hexadecimal(number: &[u8]) -> bool
    ensures { result ≡ is_hexadecimal number.now }
{
    number.starts_with(b"0x") || number.starts_with(b"0X")
}

/// The parts of an integer constant.
#[derive(Clone, Copy)]
struct Parts<'a> {
    radix: u8,
    digits: &'a [u8],
    suffix: &'a [u8],
}

fn parts_of(number: &[u8]) -> Parts<'_>
    ensures radix { result.radix ≡ radix_of number.now }
    ensures digits { result.digits.now ≡ digits_of number.now }
    ensures suffix { result.suffix.now ≡ suffix_of number.now }
{
    if is_hexadecimal(number) {
        let (_, written) = number.split_at(2);
        let (digits, suffix) = written.split_at(hexadecimal_run(written));
        return Parts {
            radix: 16,
            digits,
            suffix,
        };
    }
    let radix = if number.starts_with(b"0") { 8 } else { 10 };
    let (digits, suffix) = number.split_at(digit_run(number));
    Parts {
        radix,
        digits,
        suffix,
    }
}

/// The value with one more digit, where it has at most 64 bits.
fn with_digit(value: u64, radix: u8, digit: u8) -> Option<u64>
    ensures { result ≡ in_64_bits (value * radix + digit_value digit) }
{
    let product = value.checked_mul(u64::from(radix))?;
    product.checked_add(u64::from(digit_value(digit)))
}

/// What the digits are worth, where it has at most 64 bits.
pub(crate) fn value_in(radix: u8, digits: &[u8]) -> Option<u64>
    requires { 0 < radix }
    ensures { result ≡ in_64_bits (value_in radix digits.now) }
{
    let mut value = 0;
    for digit in digits {
        match with_digit(value, radix, *digit) {
            Some(next) => value = next,
            None => return None,
        }
    }
    Some(value)
}

fn are_digits(radix: u8, digits: &[u8]) -> bool
    ensures { result ≡ list_all (λ digit. nat_lt (digit_value digit) radix) digits.now }
{
    digits.iter().all(|digit| digit_value(*digit) < radix)
}

fn has_value(radix: u8, digits: &[u8]) -> bool
    ensures { result ≡ has_value radix digits.now }
{
    !digits.is_empty() && are_digits(radix, digits)
}

fn is_unsigned_letter(byte: u8) -> bool
    ensures { result ≡ is_unsigned_letter byte }
{
    byte == b'u' || byte == b'U'
}

fn is_long_letter(byte: u8) -> bool
    ensures { result ≡ is_long_letter byte }
{
    byte == b'l' || byte == b'L'
}

fn unsigned_letters(suffix: &[u8]) -> usize
    ensures { result ≡ count_by is_unsigned_letter suffix.now }
{
    suffix
        .iter()
        .filter(|byte| is_unsigned_letter(**byte))
        .count()
}

fn long_letters(suffix: &[u8]) -> usize
    ensures { result ≡ count_by is_long_letter suffix.now }
{
    suffix.iter().filter(|byte| is_long_letter(**byte)).count()
}

fn has_suffix_letters_only(suffix: &[u8]) -> bool
    ensures { result ≡ list_all (λ b. is_unsigned_letter b || is_long_letter b) suffix.now }
{
    suffix
        .iter()
        .all(|byte| is_unsigned_letter(*byte) || is_long_letter(*byte))
}

fn is_suffix(suffix: &[u8]) -> bool
    ensures { result ≡ is_suffix suffix.now }
{
    has_suffix_letters_only(suffix) && unsigned_letters(suffix) <= 1 && long_letters(suffix) <= 1
}

impl IntegerType {
    fn holds(self, value: u64) -> bool
        ensures { result ≡ nat_lt value (limit_of self) }
    {
        match self {
            IntegerType::Int => value < 1 << 31,
            IntegerType::Unsigned => value < 1 << 32,
            IntegerType::Long => value < 1 << 63,
            IntegerType::UnsignedLong => true,
        }
    }

    /// Whether the suffix and the radix of a constant allow the type.
    fn may_have(self, is_decimal: bool, is_unsigned: bool, is_long: bool) -> bool
        ensures { result ≡ may_have is_decimal is_unsigned is_long self }
    {
        match self {
            IntegerType::Int => !is_unsigned && !is_long,
            IntegerType::Unsigned => (is_unsigned || !is_decimal) && !is_long,
            IntegerType::Long => !is_unsigned,
            IntegerType::UnsignedLong => is_unsigned || !is_decimal,
        }
    }
}

/// The first type that may be that of the constant and holds its value.
fn type_of(radix: u8, suffix: &[u8], value: u64) -> Option<IntegerType>
    ensures { result ≡ type_of radix suffix.now value }
{
    let is_decimal = radix == 10;
    let is_unsigned = unsigned_letters(suffix) > 0;
    let is_long = long_letters(suffix) > 0;
    INTEGER_TYPES.iter().copied().find(|each| each.may_have(is_decimal, is_unsigned, is_long)
        && each.holds(value))
}

/// The type and the value of an integer constant.
fn integer_of(number: &[u8]) -> Option<TokenKind>
    ensures { result ≡ integer_of number.now }
{
    let parts = parts_of(number);
    if !has_value(parts.radix, parts.digits) || !is_suffix(parts.suffix) {
        return None;
    }
    let value = value_in(parts.radix, parts.digits)?;
    let found = type_of(parts.radix, parts.suffix, value)?;
    Some(TokenKind::Integer(found, value))
}

fn is_floating_suffix(text: &[u8]) -> bool
    ensures { result ≡ is_floating_suffix text.now }
{
    match text.split_first() {
        Some((first, rest)) => (*first == b'f' || *first == b'F' || is_long_letter(*first))
            && rest.is_empty(),
        None => true,
    }
}

fn after_sign(text: &[u8]) -> &[u8]
    ensures { result.now ≡ after_sign text.now }
{
    match text.split_first() {
        Some((first, rest)) if is_sign(*first) => rest,
        _ => text,
    }
}

/// Whether the text, after the letter of an exponent, is the rest of a floating constant.
fn is_exponent_end(text: &[u8]) -> bool
    ensures { result ≡ (begins_with is_ascii_digit (after_sign text.now) && is_floating_suffix
        (after_run is_ascii_digit (after_sign text.now))) }
{
    let digits = after_sign(text);
    let (_, suffix) = digits.split_at(digit_run(digits));
    begins_with_digit(digits) && is_floating_suffix(suffix)
}

fn is_decimal_exponent(text: &[u8]) -> bool
    ensures { result ≡ is_exponent is_decimal_letter text.now }
{
    match text.split_first() {
        Some((first, rest)) => is_decimal_letter(*first) && is_exponent_end(rest),
        None => false,
    }
}

fn is_binary_exponent(text: &[u8]) -> bool
    ensures { result ≡ is_exponent is_binary_letter text.now }
{
    match text.split_first() {
        Some((first, rest)) => is_binary_letter(*first) && is_exponent_end(rest),
        None => false,
    }
}

pub(crate) fn begins_with_hexadecimal_digit(text: &[u8]) -> bool
    ensures { result ≡ begins_with is_ascii_hexdigit text.now }
{
    match text.split_first() {
        Some((first, _)) => first.is_ascii_hexdigit(),
        None => false,
    }
}

fn is_decimal_floating(text: &[u8]) -> bool
    ensures { result ≡ is_floating_in is_ascii_digit is_decimal_letter true text.now }
{
    let (_, tail) = text.split_at(digit_run(text));
    let Some((b'.', fraction)) = tail.split_first() else {
        return begins_with_digit(text) && is_decimal_exponent(tail);
    };
    let (_, end) = fraction.split_at(digit_run(fraction));
    (begins_with_digit(text) || begins_with_digit(fraction))
        && (is_decimal_exponent(end) || is_floating_suffix(end))
}

fn is_hexadecimal_floating(text: &[u8]) -> bool
    ensures { result ≡ is_floating_in is_ascii_hexdigit is_binary_letter false text.now }
{
    let (_, tail) = text.split_at(hexadecimal_run(text));
    let Some((b'.', fraction)) = tail.split_first() else {
        return begins_with_hexadecimal_digit(text) && is_binary_exponent(tail);
    };
    let (_, end) = fraction.split_at(hexadecimal_run(fraction));
    (begins_with_hexadecimal_digit(text) || begins_with_hexadecimal_digit(fraction))
        && is_binary_exponent(end)
}

fn is_floating(number: &[u8]) -> bool
    ensures { result ≡ is_floating number.now }
{
    if is_hexadecimal(number) {
        let (_, written) = number.split_at(2);
        is_hexadecimal_floating(written)
    } else {
        is_decimal_floating(number)
    }
}

fn has_long_long_suffix(number: &[u8]) -> bool
    ensures { result ≡ has_long_long_suffix number.now }
{
    let suffix = parts_of(number).suffix;
    has_suffix_letters_only(suffix) && long_letters(suffix) > 1
}

/// What a number is: an integer constant, or the rule that refuses it.
pub(crate) fn number_kind(number: &[u8]) -> Result<TokenKind, Rule>
    ensures { result ≡ number_kind number.now }
{
    match integer_of(number) {
        Some(kind) => Ok(kind),
        None if is_floating(number) || has_long_long_suffix(number) => Err(Rule::Unsupported),
        None => Err(Rule::BadNumber),
    }
}
