//! The lines of a text, one after another, and the fields of a line.
ghost use Rattle.std.specs.Prelude.{◌≡◌, ◌≢◌, ◌≤◌, ◌<◌, ◌+◌, ◌^◌, ◌++◌, ◌∷◌, [], ℕ, length, OnOk, OnErr, IfOk, IfErr, IsTrue, ◌↔◌};
ghost use Rattle.std.specs.Fmt.{decimal};
ghost use Rattle.cured_reading.specs.Parts.{IsWithout, EndsWord, IsWordBefore};
ghost use Rattle.cured_reading.specs.Refusals.{LacksFields, any_field, one_number};

use crate::parts_of_text::{line, word};
use crate::wrong::{SYNTAX, Wrong};
use itoa::Buffer;
use std::marker::Model;

/// The lines of a text that are still to be read. Contracts see them as that text, and the number of the last line read.
#[derive(Drop)]
pub(crate) struct Lines<'a> {
    text: &'a [u8],
    from: usize,
    number: u32,
}

impl<'a> Model for Lines<'a> {
    ghost use Rattle.std.specs.Prelude.{◌≤◌, length, drop};
    ghost use Rattle.cured_reading.specs.Parts.{Left};

    ghost Value = { Left };

    ghost view = { λ l. record { text = drop l.from l.text.now; number = l.number } };

    ghost invariant = { λ l. (l.number ≤ l.from) × (l.from ≤ length l.text.now) × (length l.text.now ≤ 134217728) };
}

impl<'a> Lines<'a> {
    /// All lines of a text.
    pub(crate) fn new(text: &'a [u8]) -> Lines<'a>
        requires { length text.now ≤ 134217728 }
        ensures { (result.text ≡ text.now) × (result.number ≡ 0) }
    {
        Lines {
            text,
            from: 0,
            number: 0,
        }
    }

    /// The next line.
    #[tactic(auto, using(crate::proofs::BeforeLaws::line_read))]
    pub(crate) fn next(&mut self) -> Result<Fields<'a>, Wrong>
        ensures cut { IfOk result (λ fields. self.old.text ≡ fields ++ (10 ∷ self.new.text)) }
        ensures whole { IfOk result (λ fields. IsWithout 10 fields) }
        ensures counted { OnOk result (self.new.number ≡ self.old.number + 1) }
        ensures none { IfErr result (λ why. (why ≡ Wrong.Next) × IsWithout 10 self.old.text) }
        ensures still { OnErr result (self.new.number ≡ self.old.number) }
    {
        match line(self.text, self.from) {
            None => Err(Wrong::Next),
            Some((part, after)) => {
                self.from = after;
                self.number += 1;
                Ok(Fields { line: part, at: 0 })
            }
        }
    }

    /// How many lines were read.
    pub(crate) fn number(&self) -> u32
        ensures { (result ≡ self.now.number) × (result ≤ 134217728) }
    {
        self.number
    }

    /// Whether no line is left.
    #[tactic(auto, using(crate::proofs::BeforeLaws::nothing_left))]
    pub(crate) fn is_empty(&self) -> bool
        ensures { IsTrue result ↔ (self.now.text ≡ []) }
    {
        self.from == self.text.len()
    }
}

/// The fields of a line that are still to be read, each with a space before it. Contracts see them as these bytes.
#[derive(Drop)]
pub(crate) struct Fields<'a> {
    line: &'a [u8],
    at: usize,
}

impl<'a> Model for Fields<'a> {
    ghost use Rattle.std.specs.Prelude.{◌≤◌, List, ℕ, length, drop};

    ghost Value = { List ℕ };

    ghost view = { λ f. drop f.at f.line.now };

    ghost invariant = { λ f. f.at ≤ length f.line.now };
}

impl<'a> Fields<'a> {
    /// The name that a line begins with.
    #[tactic(auto, using(crate::proofs::BeforeLaws::word_read))]
    pub(crate) fn name(&mut self) -> Result<&'a [u8], Wrong>
        ensures cut { IfOk result (λ name. self.old ≡ name.now ++ self.new) }
        ensures word { IfOk result (λ name. IsWordBefore name.now self.new) }
        ensures none { IfErr result (λ why. (why ≡ SYNTAX) × EndsWord self.old) }
    {
        match word(self.line, self.at) {
            None => Err(SYNTAX),
            Some((part, _)) => {
                self.at += part.len();
                Ok(part)
            }
        }
    }

    /// The next field.
    pub(crate) fn field(&mut self) -> Result<&'a [u8], Wrong>
        ensures cut { IfOk result (λ field. self.old ≡ 32 ∷ (field.now ++ self.new)) }
        ensures word { IfOk result (λ field. IsWordBefore field.now self.new) }
        ensures none { IfErr result (λ why. (why ≡ SYNTAX) × LacksFields any_field self.old) }
    {
        if self.at == self.line.len() || self.line[self.at] != b' ' {
            return Err(SYNTAX);
        }
        self.at += 1;
        self.name()
    }

    /// The next field, a number: digits without leading zeros, and below 2^64.
    pub(crate) fn number(&mut self) -> Result<u64, Wrong>
        ensures cut { IfOk result (λ n. self.old ≡ 32 ∷ (decimal n ++ self.new)) }
        ensures small { IfOk result (λ n. n < 2 ^ 64) }
        ensures ends { OnOk result (EndsWord self.new) }
        ensures none { IfErr result (λ why. (why ≡ SYNTAX) × LacksFields one_number self.old) }
    {
        let field = self.field()?;
        let n = value(field);
        let mut digits = Buffer::new();
        if digits.format(n).as_bytes() == field {
            Ok(n)
        } else {
            Err(SYNTAX)
        }
    }

    /// The end of the line.
    pub(crate) fn end(&self) -> Result<(), Wrong>
        ensures ended { OnOk result (self.now ≡ []) }
        ensures more { IfErr result (λ why. (why ≡ SYNTAX) × (self.now ≢ [])) }
    {
        if self.at == self.line.len() {
            Ok(())
        } else {
            Err(SYNTAX)
        }
    }
}

/// The number that decimal digits give, modulo 2^64.
fn value(digits: &[u8]) -> u64
    ensures { (n : ℕ) → n < 2 ^ 64 → digits.now ≡ decimal n → result ≡ n }
{
    let mut value: u64 = 0;
    for digit in digits {
        value = value.wrapping_mul(10).wrapping_add(u64::from(digit & 15));
    }
    value
}
