//! A text cut into tokens.
ghost use Rattle.std.specs.Prelude.{◌≡◌, ◌≤◌, ◌⊎◌, ◌++◌, List, Err, IfOk, IfErr, OnOk, IsOkAnd, length};
ghost use Rattle.cc_base.specs.declared.place.Place.{Place as PlaceValue};
ghost use Rattle.cc_base.specs.declared.fault.Rule.{Rule as RuleValue};
ghost use Rattle.c_lexer.specs.Cut.{IsCut, IsRefusal, IsLexicalFault};
ghost use Rattle.c_lexer.specs.Reading.{token_list};
ghost use Rattle.c_lexer.specs.Tokens.{Token as TokenValue};

use crate::position::Position;
use crate::step::step_at;
use crate::token::{Token, TokenKind};
use cc_base::{Fault, Place};
use std::alloc::{AllocError, Global};

/// Adds a token of this kind, if the piece is one.
fn keep<'a>(
    found: &mut Vec<Token<'a>>,
    kind: Option<TokenKind>,
    bytes: &'a [u8],
    start: usize,
    place: Place,
) -> Result<(), AllocError>
    ensures { OnOk result (found.new.items ≡ found.old.items ++ token_list kind bytes.now start
        place) }
{
    if let Some(kind) = kind {
        found.push(Token::new(kind, bytes, start, place))?;
    }
    Ok(())
}

/// Cuts a preprocessed text into the tokens of C99 6.4, in order. Each borrows its bytes from the
/// text, and only blanks, comments and line markers lie between them.
///
/// A text that can't be cut is refused at the first place where that shows: a byte that begins no
/// token (`BadByte`), a comment or a literal that is not closed (`OpenComment`, `OpenText`), what the
/// language leaves out (`Unsupported`), or a number or an escape without a value (`BadNumber`).
pub fn tokens<'a>(alloc: Global, text: &'a [u8]) -> Result<Vec<Token<'a>>, Fault>
    requires { length text.now ≤ 1048576 }
    ensures cut { IfOk result (λ found. IsCut text.now found.items) }
    ensures refused { IfErr result (IsLexicalFault text.now) }
    ensures few { IfOk result (λ found. length found.items ≤ length text.now) }

    // No other list of tokens is cut from the text, and a text that can be cut is not refused.
    ensures accepts { (list : List TokenValue) → IsCut text.now list
        → IsOkAnd result (λ found. found.items ≡ list) ⊎ (result ≡ Err Fault.NoMemory) }

    // Nothing else is answered where a text is refused.
    ensures refuses { (place : PlaceValue) (rule : RuleValue) → IsRefusal text.now place rule
        → (result ≡ Err (Fault.Refused place rule)) ⊎ (result ≡ Err Fault.NoMemory) }
{
    let mut found = Vec::new(alloc);
    let mut position = Position {
        place: Place { line: 1, col: 1 },
        starts_line: true,
    };
    let mut rest = text;
    'cutting: while !rest.is_empty() {
        let step = match step_at(rest, position.starts_line) {
            Ok(step) => step,
            Err(rule) => {
                return Err(Fault::Refused {
                    place: position.place,
                    rule,
                });
            }
        };
        let (bytes, after) = rest.split_at(step.size);
        let start = text.len() - rest.len();
        keep(&mut found, step.kind, bytes, start, position.place)?;
        position = position.after(bytes);
        rest = after;
    }
    Ok(found)
}
