//! What lies between tokens: comments and line markers.
ghost use Rattle.std.specs.Prelude.{◌≡◌, ◌<◌, ◌≤◌, ◌+◌, ◌^◌, ◌==◌, ◌||◌, not, length, IfSome};
ghost use Rattle.std.specs.List.{prefix_len, list_all, position_or_len};
ghost use Rattle.std.specs.Char.{is_ascii_digit};
ghost use Rattle.c_lexer.specs.Bytes.{is_blank, line_feed};
ghost use Rattle.c_lexer.specs.Gaps.{line_of, is_marker_name, is_line_marker};
ghost use Rattle.c_lexer.specs.Numbers.{after_run};
ghost use Rattle.c_lexer.specs.Reading.{comment_end, comment_step, directive_step};

use crate::byte::{begins_with_byte, begins_with_digit, blank_run, digit_run, is_blank};
use crate::step::{Step, gap};
use cc_base::Rule;

/// How many bytes the comment has whose `/*` stands right before the text.
fn comment_size(text: &[u8]) -> Option<usize>
    requires { length text.now + 2 < 2 ^ 64 }
    ensures value { result ≡ comment_end 2 text.now }
    ensures fits { IfSome result (λ size. size ≤ length text.now + 2) }
{
    let mut passed = 2;
    let mut rest = text;
    'passing: while let Some((first, after)) = rest.split_first() {
        if *first == b'*' && begins_with_byte(after, b'/') {
            return Some(passed + 2);
        }
        passed += 1;
        rest = after;
    }
    None
}

/// The comment whose `/*` stands right before the text.
pub(crate) fn comment_step(text: &[u8]) -> Result<Step, Rule>
    requires { length text.now + 2 < 2 ^ 64 }
    ensures { result ≡ comment_step (comment_end 2 text.now) }
{
    match comment_size(text) {
        Some(size) => Ok(gap(size)),
        None => Err(Rule::OpenComment),
    }
}

/// How many bytes come before the next line feed.
fn line_size(text: &[u8]) -> usize
    ensures value { result ≡ position_or_len (λ b. b == line_feed) text.now }
    ensures fits { result ≤ length text.now }
{
    text.iter().take_while(|byte| **byte != b'\n').count()
}

/// The text up to the end of its line.
pub(crate) fn line_of(text: &[u8]) -> &[u8]
    ensures { result.now ≡ line_of text.now }
{
    let (line, _) = text.split_at(line_size(text));
    line
}

fn after_blanks(text: &[u8]) -> &[u8]
    ensures { result.now ≡ after_run is_blank text.now }
{
    let (_, rest) = text.split_at(blank_run(text));
    rest
}

fn after_digits(text: &[u8]) -> &[u8]
    ensures { result.now ≡ after_run is_ascii_digit text.now }
{
    let (_, rest) = text.split_at(digit_run(text));
    rest
}

/// How many bytes come before the next `"`.
fn name_size(text: &[u8]) -> usize
    ensures value { result ≡ prefix_len (λ b. not (b == 34)) text.now }
    ensures fits { result ≤ length text.now }
{
    text.iter().take_while(|byte| **byte != b'"').count()
}

fn has_blanks_and_digits_only(text: &[u8]) -> bool
    ensures { result ≡ list_all (λ b. is_blank b || is_ascii_digit b) text.now }
{
    text.iter()
        .all(|byte| is_blank(*byte) || byte.is_ascii_digit())
}

/// Whether the text is a name in double quotes, and then only blanks and digits.
fn is_marker_name(text: &[u8]) -> bool
    ensures { result ≡ is_marker_name text.now }
{
    let Some((b'"', name)) = text.split_first() else {
        return false;
    };
    let (_, closing) = name.split_at(name_size(name));
    match closing.split_first() {
        Some((quote, after)) => *quote == b'"' && has_blanks_and_digits_only(after),
        None => false,
    }
}

fn is_line_marker(line: &[u8]) -> bool
    ensures { result ≡ is_line_marker line.now }
{
    let Some((b'#', rest)) = line.split_first() else {
        return false;
    };
    let number = after_blanks(rest);
    begins_with_digit(number) && is_marker_name(after_blanks(after_digits(number)))
}

/// A line that begins with `#`: a line marker, or left out.
pub(crate) fn directive_step(line: &[u8]) -> Result<Step, Rule>
    ensures { result ≡ directive_step line.now }
{
    if is_line_marker(line) {
        Ok(gap(line.len()))
    } else {
        Err(Rule::Unsupported)
    }
}
