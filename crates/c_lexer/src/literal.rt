//! Character constants and string literals.
ghost use Rattle.std.specs.Prelude.{◌≡◌, ◌<◌, ◌≤◌, ◌+◌, ◌^◌, length, Some, IfSome, take, drop, false, List, [], ◌∷◌, IfNone, IfOk, flat_map};
ghost use Rattle.std.specs.List.{list_any, prefix_len};
ghost use Rattle.c_lexer.specs.Bytes.{is_octal_digit, begins_with};
ghost use Rattle.c_lexer.specs.Literals.{is_literal, simple_escape, byte_or_bad, octal_digits, hexadecimal_digits, escape_value, escape_size, characters, between_quotes, characters_of, is_universal, is_bad, signed_value, constant_kind, literal_kind, literal_bytes, bytes_of};
ghost use Rattle.c_lexer.specs.Numbers.{value_in, in_64_bits};
ghost use Rattle.c_lexer.specs.Reading.{literal_end, literal_size};

use crate::byte::{begins_with_byte, is_octal_digit};
use crate::number::{begins_with_hexadecimal_digit, hexadecimal_run, value_in};
use crate::token::TokenKind;
use cc_base::Rule;
use std::alloc::{AllocError, Global};

/// One character of a literal.
#[derive(Clone, Copy)]
pub(crate) enum Character {
    /// A byte, as it stands or by an escape.
    Byte(u8),
    /// An escape that has no name, or a value above 255.
    Bad,
    /// A universal character name, `\u` or `\U`.
    Universal,
}

/// How many bytes the literal has that begins with this quote and goes on with the text.
fn literal_end(quote: u8, text: &[u8]) -> Option<usize>
    ensures value { result ≡ literal_end quote 1 false text.now }
    ensures fits { IfSome result (λ size. size ≤ length text.now + 1) }
    ensures has_quotes { IfSome result (λ size. 2 ≤ size) }
{
    let mut is_escaped = false;
    for (passed, byte) in text.iter().enumerate() {
        if *byte == b'\n' {
            return None;
        }
        if !is_escaped && *byte == quote {
            return Some(passed + 2);
        }
        is_escaped = !is_escaped && *byte == b'\\';
    }
    None
}

/// How many bytes the literal has that the text begins with, if it is closed on its line.
pub(crate) fn literal_size(text: &[u8]) -> Option<usize>
    ensures value { result ≡ literal_size text.now }
    ensures fits { IfSome result (λ size. size ≤ length text.now) }
    ensures has_quotes { IfSome result (λ size. 2 ≤ size) }
{
    match text.split_first() {
        Some((quote, rest)) => literal_end(*quote, rest),
        None => None,
    }
}

fn simple_escape(letter: u8) -> Option<u8>
    ensures { result ≡ simple_escape letter }
{
    match letter {
        b'\'' => Some(b'\''),
        b'"' => Some(b'"'),
        b'?' => Some(b'?'),
        b'\\' => Some(b'\\'),
        b'a' => Some(7),
        b'b' => Some(8),
        b'f' => Some(12),
        b'n' => Some(b'\n'),
        b'r' => Some(b'\r'),
        b't' => Some(b'\t'),
        b'v' => Some(11),
        _ => None,
    }
}

/// The byte that the digits stand for.
fn digits_value(radix: u8, digits: &[u8]) -> Character
    requires { 0 < radix }
    ensures { result ≡ byte_or_bad (value_in radix digits.now) }
{
    match value_in(radix, digits) {
        Some(value) if value < 256 => Character::Byte(value as u8),
        _ => Character::Bad,
    }
}

fn octal_run(text: &[u8]) -> usize
    ensures value { result ≡ prefix_len is_octal_digit (take 3 text.now) }
    ensures fits { result ≤ length text.now }
    ensures short { result ≤ 3 }
{
    text.iter()
        .take(3)
        .take_while(|byte| is_octal_digit(**byte))
        .count()
}

/// At most three octal digits.
fn octal_digits(text: &[u8]) -> &[u8]
    ensures { result.now ≡ octal_digits text.now }
{
    let (digits, _) = text.split_at(octal_run(text));
    digits
}

fn hexadecimal_digits(text: &[u8]) -> &[u8]
    ensures { result.now ≡ hexadecimal_digits text.now }
{
    let (digits, _) = text.split_at(hexadecimal_run(text));
    digits
}

/// What the bytes after a backslash stand for.
fn escape_value(text: &[u8]) -> Character
    ensures { result ≡ escape_value text.now }
{
    let Some((first, rest)) = text.split_first() else {
        return Character::Bad;
    };
    if is_octal_digit(*first) {
        return digits_value(8, octal_digits(text));
    }
    if *first == b'x' && begins_with_hexadecimal_digit(rest) {
        return digits_value(16, hexadecimal_digits(rest));
    }
    if *first == b'u' || *first == b'U' {
        return Character::Universal;
    }
    match simple_escape(*first) {
        Some(value) => Character::Byte(value),
        None => Character::Bad,
    }
}

/// How many bytes after a backslash belong to its escape.
fn escape_size(text: &[u8]) -> usize
    ensures value { result ≡ escape_size text.now }
    ensures fits { result ≤ length text.now }
{
    let Some((first, rest)) = text.split_first() else {
        return 0;
    };
    if is_octal_digit(*first) {
        octal_run(text)
    } else if *first == b'x' {
        1 + hexadecimal_run(rest)
    } else {
        1
    }
}

impl Character {
    fn is_universal(self) -> bool
        ensures { result ≡ is_universal self }
    {
        match self {
            Character::Universal => true,
            Character::Byte(_) | Character::Bad => false,
        }
    }

    fn is_bad(self) -> bool
        ensures { result ≡ is_bad self }
    {
        match self {
            Character::Bad => true,
            Character::Byte(_) | Character::Universal => false,
        }
    }
}

/// The first character of a text and the text after it.
fn next_character(text: &[u8]) -> Option<(Character, &[u8])>
    ensures value { IfSome result (λ x. characters 0 text.now ≡ x.0 ∷ characters 0 x.1.now) }
    ensures shorter { IfSome result (λ x. length x.1.now < length text.now) }
    ensures none { IfNone result (text.now ≡ []) }
{
    match text.split_first() {
        Some((b'\\', rest)) => {
            let (_, after) = rest.split_at(escape_size(rest));
            Some((escape_value(rest), after))
        }
        Some((first, rest)) => Some((Character::Byte(*first), rest)),
        None => None,
    }
}

fn has_universal(text: &[u8]) -> bool
    ensures { result ≡ list_any is_universal (characters 0 text.now) }
{
    let mut rest = text;
    'looking: while let Some((character, after)) = next_character(rest) {
        if character.is_universal() {
            return true;
        }
        rest = after;
    }
    false
}

fn has_bad(text: &[u8]) -> bool
    ensures { result ≡ list_any is_bad (characters 0 text.now) }
{
    let mut rest = text;
    'looking: while let Some((character, after)) = next_character(rest) {
        if character.is_bad() {
            return true;
        }
        rest = after;
    }
    false
}

/// The value of a byte as a signed char.
fn signed_value(byte: u8) -> i32
    ensures { result ≡ signed_value byte }
{
    if byte < 128 {
        i32::from(byte)
    } else {
        i32::from(byte) - 256
    }
}

/// What a character constant with this one character is.
fn lone_kind(character: Character) -> Result<TokenKind, Rule>
    ensures { result ≡ constant_kind (character ∷ []) }
{
    match character {
        Character::Byte(value) => Ok(TokenKind::Character(signed_value(value))),
        Character::Bad => Err(Rule::BadNumber),
        Character::Universal => Err(Rule::Unsupported),
    }
}

/// What a character constant with this text between its quotes is.
fn constant_kind(text: &[u8]) -> Result<TokenKind, Rule>
    ensures { result ≡ constant_kind (characters 0 text.now) }
{
    let Some((first, rest)) = next_character(text) else {
        return Err(Rule::BadNumber);
    };
    match next_character(rest) {
        Some(_) => Err(Rule::Unsupported),
        None => lone_kind(first),
    }
}

/// The bytes of a literal between its quotes.
fn between_quotes(literal: &[u8]) -> &[u8]
    requires { 2 ≤ length literal.now }
    ensures { result.now ≡ between_quotes literal.now }
{
    let (_, rest) = literal.split_at(1);
    let (text, _) = rest.split_at(literal.len() - 2);
    text
}

/// What a literal is: a character constant, a string literal, or the rule that refuses it.
pub(crate) fn literal_kind(literal: &[u8]) -> Result<TokenKind, Rule>
    requires { 2 ≤ length literal.now }
    ensures { result ≡ literal_kind literal.now }
{
    let text = between_quotes(literal);
    if has_universal(text) {
        Err(Rule::Unsupported)
    } else if begins_with_byte(literal, b'\'') {
        constant_kind(text)
    } else if has_bad(text) {
        Err(Rule::BadNumber)
    } else {
        Ok(TokenKind::StringLiteral)
    }
}

/// The bytes that a string literal holds (C99 6.4.5), without the zero byte after them. The literal
/// is given as it is spelled, quotes and all.
pub fn literal_bytes(alloc: Global, literal: &[u8]) -> Result<Vec<u8>, AllocError>
    requires { 2 ≤ length literal.now }
    ensures { IfOk result (λ bytes. bytes.items ≡ literal_bytes literal.now) }
{
    let mut bytes = Vec::new(alloc);
    let mut rest = between_quotes(literal);
    'reading: while let Some((character, after)) = next_character(rest) {
        if let Character::Byte(value) = character {
            bytes.push(value)?;
        }
        rest = after;
    }
    Ok(bytes)
}
