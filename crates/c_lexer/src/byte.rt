//! Classes of bytes.
ghost use Rattle.std.specs.Prelude.{◌≡◌, ◌≤◌, ◌==◌, length};
ghost use Rattle.std.specs.List.{prefix_len};
ghost use Rattle.std.specs.Char.{is_ascii_digit};
ghost use Rattle.c_lexer.specs.Bytes.{is_blank, is_letter, is_word_byte, is_octal_digit, is_quote, begins_with};

/// Space, tab, line feed, vertical tab, form feed and carriage return.
pub(crate) fn is_blank(byte: u8) -> bool
    ensures { result ≡ is_blank byte }
{
    byte == b' ' || (b'\t' <= byte && byte <= b'\r')
}

/// A letter or `_`.
pub(crate) fn is_letter(byte: u8) -> bool
    ensures { result ≡ is_letter byte }
{
    byte.is_ascii_alphabetic() || byte == b'_'
}

pub(crate) fn is_word_byte(byte: u8) -> bool
    ensures { result ≡ is_word_byte byte }
{
    is_letter(byte) || byte.is_ascii_digit()
}

pub(crate) fn is_octal_digit(byte: u8) -> bool
    ensures { result ≡ is_octal_digit byte }
{
    b'0' <= byte && byte <= b'7'
}

pub(crate) fn is_quote(byte: u8) -> bool
    ensures { result ≡ is_quote byte }
{
    byte == b'\'' || byte == b'"'
}

/// Whether the text has a first byte and it is this one.
pub(crate) fn begins_with_byte(text: &[u8], byte: u8) -> bool
    ensures { result ≡ begins_with (λ b. b == byte) text.now }
{
    match text.split_first() {
        Some((first, _)) => *first == byte,
        None => false,
    }
}

pub(crate) fn begins_with_blank(text: &[u8]) -> bool
    ensures { result ≡ begins_with is_blank text.now }
{
    match text.split_first() {
        Some((first, _)) => is_blank(*first),
        None => false,
    }
}

pub(crate) fn begins_with_letter(text: &[u8]) -> bool
    ensures { result ≡ begins_with is_letter text.now }
{
    match text.split_first() {
        Some((first, _)) => is_letter(*first),
        None => false,
    }
}

pub(crate) fn begins_with_quote(text: &[u8]) -> bool
    ensures { result ≡ begins_with is_quote text.now }
{
    match text.split_first() {
        Some((first, _)) => is_quote(*first),
        None => false,
    }
}

pub(crate) fn begins_with_digit(text: &[u8]) -> bool
    ensures { result ≡ begins_with is_ascii_digit text.now }
{
    match text.split_first() {
        Some((first, _)) => first.is_ascii_digit(),
        None => false,
    }
}

/// How many blanks come.
pub(crate) fn blank_run(text: &[u8]) -> usize
    ensures value { result ≡ prefix_len is_blank text.now }
    ensures fits { result ≤ length text.now }
{
    text.iter().take_while(|byte| is_blank(**byte)).count()
}

/// How many decimal digits come.
pub(crate) fn digit_run(text: &[u8]) -> usize
    ensures value { result ≡ prefix_len is_ascii_digit text.now }
    ensures fits { result ≤ length text.now }
{
    text.iter().take_while(|byte| byte.is_ascii_digit()).count()
}
