//! Reading the line of an instruction that holds no others.
ghost use Rattle.std.specs.Prelude.{◌≡◌, ◌<◌, ◌≤◌, ◌^◌, ◌++◌, ◌∷◌, [], IfOk, OnOk, IfErr, codes, flat_map, map};
ghost use Rattle.std.specs.Fmt.{decimal};
ghost use Rattle.cured_spelling.specs.Lines.{line_text, fields_text, Number};
ghost use Rattle.cured_spelling.specs.Spelling.{line_of, lines_of};
ghost use Rattle.cured_code.specs.Ranges.{Names as Scope, IsInstrInRange};
ghost use Rattle.cured_reading.specs.Operations.{operation_name, format_of, wide_numbers_of, wide_fields, IsPadded};
ghost use Rattle.cured_reading.specs.Openings.{IsWording};
ghost use Rattle.cured_reading.specs.Parts.{EndsWord};
ghost use Rattle.cured_reading.specs.Faults.{IsPlaceKept};
ghost use Rattle.cured_reading.specs.Refusals.{LacksFields, two_numbers, three_numbers, AreFieldsInRange, IsLineOf, IsBadLine, IsFew};

use crate::lines::Fields;
use crate::operation::{Format, Operands, Operation, Wide};
use crate::words::{check_of, form_of, operation_of, tag_of};
use crate::wrong::{RANGE, SYNTAX, Wrong};
use cc_base::Place;
use cured_code::{Instr, Names, is_instr_in_range};

/// The next two fields, numbers.
pub(crate) fn two(fields: &mut Fields) -> Result<(u64, u64), Wrong>
    ensures cut { IfOk result (λ p. fields.old ≡ 32 ∷
        (decimal p.0 ++ (32 ∷ (decimal p.1 ++ fields.new)))) }
    ensures small { IfOk result (λ p. (p.0 < 2 ^ 64) × (p.1 < 2 ^ 64)) }
    ensures ends { OnOk result (EndsWord fields.new) }
    ensures none { IfErr result (λ why. (why ≡ SYNTAX) × LacksFields two_numbers fields.old) }
{
    let first = fields.number()?;
    let second = fields.number()?;
    Ok((first, second))
}

/// The next three fields, numbers.
fn three(fields: &mut Fields) -> Result<(u64, u64, u64), Wrong>
    ensures cut { IfOk result (λ t. fields.old ≡ 32 ∷ (decimal t.0 ++
        (32 ∷ (decimal t.1 ++ (32 ∷ (decimal t.2 ++ fields.new)))))) }
    ensures small { IfOk result (λ t. (t.0 < 2 ^ 64) × (t.1 < 2 ^ 64) × (t.2 < 2 ^ 64)) }
    ensures ends { OnOk result (EndsWord fields.new) }
    ensures none { IfErr result (λ why. (why ≡ SYNTAX) × LacksFields three_numbers fields.old) }
{
    let (first, second) = two(fields)?;
    let third = fields.number()?;
    Ok((first, second, third))
}

/// The numbers of a format's fields.
fn wide(format: Format, fields: &mut Fields) -> Result<Wide, Wrong>
    ensures cut { IfOk result (λ wide. fields.old ≡ fields_text
        (map Number (wide_numbers_of format wide)) ++ fields.new) }
    ensures small { IfOk result (λ wide. AreFieldsInRange (wide_fields format wide)) }
    ensures padded { IfOk result (λ wide. IsPadded format wide) }
    ensures ends { OnOk result (EndsWord fields.new) }
    ensures none { IfErr result (λ why. (why ≡ SYNTAX)
        × LacksFields (wide_fields format) fields.old) }
{
    let mut of = Wide {
        a: 0,
        b: 0,
        c: 0,
        d: 0,
        n: 0,
    };
    match format {
        Format::One => of.a = fields.number()?,
        Format::Two => (of.a, of.b) = two(fields)?,
        Format::Three => (of.a, of.b, of.c) = three(fields)?,
        Format::Four => {
            (of.a, of.b) = two(fields)?;
            (of.c, of.d) = two(fields)?;
        }
        Format::OneLong => (of.a, of.n) = two(fields)?,
        Format::TwoLong => (of.a, of.b, of.n) = three(fields)?,
        Format::ThreeLong => {
            (of.a, of.b) = two(fields)?;
            (of.c, of.n) = two(fields)?;
        }
        Format::FourLong => {
            (of.a, of.b) = two(fields)?;
            (of.c, of.d, of.n) = three(fields)?;
        }
        Format::Access => (of.n, of.a, of.b) = three(fields)?,
    }
    Ok(of)
}

/// A number of 32 bits.
pub(crate) fn low(n: u64) -> Result<u32, Wrong>
    ensures same { IfOk result (λ low. low ≡ n) }
    ensures small { IfOk result (λ low. low < 2 ^ 32) }
    ensures over { IfErr result (λ why. (why ≡ RANGE) × (2 ^ 32 ≤ n)) }
{
    match u32::try_from(n) {
        Ok(low) => Ok(low),
        Err(_) => Err(RANGE),
    }
}

/// The operands, where each number fits its place.
fn operands(wide: Wide) -> Result<Operands, Wrong>
    ensures same { IfOk result (λ of. (of.a ≡ wide.a) × (of.b ≡ wide.b) × (of.c ≡ wide.c)
        × (of.d ≡ wide.d) × (of.n ≡ wide.n)) }
    ensures over { IfErr result (λ why. (why ≡ RANGE)
        × (wide.a < 2 ^ 32 → wide.b < 2 ^ 32 → wide.c < 2 ^ 32 → wide.d < 2 ^ 32 → ⊥)) }
{
    let a = low(wide.a)?;
    let b = low(wide.b)?;
    let c = low(wide.c)?;
    let d = low(wide.d)?;
    Ok(Operands {
        a,
        b,
        c,
        d,
        n: wide.n,
    })
}

/// The instruction of an operation and its fields.
fn operation(of: Operation, fields: &mut Fields) -> Result<Instr, Wrong>
    ensures spelled { IfOk result (λ i. operation_name of ++ (fields.old ++ (10 ∷ []))
        ≡ flat_map line_text (lines_of i)) }
    ensures line { IfOk result (λ i. IsLineOf i (operation_name of) fields.old
        × IsPlaceKept (line_of i).fields) }
    ensures bad { IfErr result (λ why. (names : Scope) → IsFew names
        → IsBadLine names (operation_name of) fields.old why) }
{
    let wide = wide(of.format(), fields)?;
    fields.end()?;
    let operands = operands(wide)?;
    Ok(of.made(operands))
}

/// The fields of an `ext`.
fn extension(fields: &mut Fields) -> Result<Instr, Wrong>
    ensures spelled { IfOk result (λ i. codes "ext" ++ (fields.old ++ (10 ∷ []))
        ≡ flat_map line_text (lines_of i)) }
    ensures line { IfOk result (λ i. IsLineOf i (codes "ext") fields.old
        × IsPlaceKept (line_of i).fields) }
    ensures bad { IfErr result (λ why. (names : Scope) → IsFew names
        → IsBadLine names (codes "ext") fields.old why) }
{
    let (v, a) = two(fields)?;
    let word = fields.field()?;
    let Some(form) = form_of(word) else {
        return Err(SYNTAX);
    };
    fields.end()?;
    let to = low(v)?;
    let from = low(a)?;
    Ok(Instr::Ext(to, from, form))
}

/// The fields of a `new`.
fn block(fields: &mut Fields) -> Result<Instr, Wrong>
    ensures spelled { IfOk result (λ i. codes "new" ++ (fields.old ++ (10 ∷ []))
        ≡ flat_map line_text (lines_of i)) }
    ensures line { IfOk result (λ i. IsLineOf i (codes "new") fields.old
        × IsPlaceKept (line_of i).fields) }
    ensures bad { IfErr result (λ why. (names : Scope) → IsFew names
        → IsBadLine names (codes "new") fields.old why) }
{
    let letter = fields.field()?;
    let Some(tagged) = tag_of(letter) else {
        return Err(SYNTAX);
    };
    let (v, n, s) = three(fields)?;
    fields.end()?;
    let to = low(v)?;
    let bytes = low(n)?;
    let charge = low(s)?;
    Ok(Instr::New(tagged, to, bytes, charge))
}

/// The fields of a `check`.
fn check(fields: &mut Fields) -> Result<Instr, Wrong>
    ensures spelled { IfOk result (λ i. codes "check" ++ (fields.old ++ (10 ∷ []))
        ≡ flat_map line_text (lines_of i)) }
    ensures line { IfOk result (λ i. IsLineOf i (codes "check") fields.old
        × IsPlaceKept (line_of i).fields) }
    ensures bad { IfErr result (λ why. (names : Scope) → IsFew names
        → IsBadLine names (codes "check") fields.old why) }
{
    let word = fields.field()?;
    let Some(check) = check_of(word) else {
        return Err(SYNTAX);
    };
    let (row, column, a) = three(fields)?;
    fields.end()?;
    let line = low(row)?;
    let col = low(column)?;
    let of = low(a)?;
    Ok(Instr::Check(check, Place { line, col }, of))
}

/// How the fields of the line of an instruction are written.
#[derive(Clone, Copy)]
enum Wording {
    Ext,
    New,
    Check,
    Numbers,
}

fn wording_of(name: &[u8]) -> Wording
    ensures { IsWording name.now result }
{
    match name {
        b"ext" => Wording::Ext,
        b"new" => Wording::New,
        b"check" => Wording::Check,
        _ => Wording::Numbers,
    }
}

/// Any of these, by its name.
fn named(name: &[u8], fields: &mut Fields) -> Result<Instr, Wrong>
    ensures spelled { IfOk result (λ i. name.now ++ (fields.old ++ (10 ∷ []))
        ≡ flat_map line_text (lines_of i)) }
    ensures line { IfOk result (λ i. IsLineOf i name.now fields.old
        × IsPlaceKept (line_of i).fields) }
    ensures bad { IfErr result (λ why. (names : Scope) → IsFew names
        → IsBadLine names name.now fields.old why) }
{
    match wording_of(name) {
        Wording::Ext => extension(fields),
        Wording::New => block(fields),
        Wording::Check => check(fields),
        Wording::Numbers => match operation_of(name) {
            Some(of) => operation(of, fields),
            None => Err(SYNTAX),
        },
    }
}

/// The instruction, where it is in range.
fn in_range(names: &Names, instr: Instr) -> Result<Instr, Wrong>
    ensures kept { IfOk result (λ i. (i ≡ instr) × IsInstrInRange names.now i) }
    ensures out { IfErr result (λ why. (why ≡ RANGE) × (IsInstrInRange names.now instr → ⊥)) }
{
    if is_instr_in_range(names, &instr) {
        Ok(instr)
    } else {
        Err(RANGE)
    }
}

/// An instruction that holds no others, from its name and its fields.
pub(crate) fn straight(names: &Names, name: &[u8], fields: &mut Fields) -> Result<Instr, Wrong>
    requires { IsFew names.now }
    ensures spelled { IfOk result (λ i. name.now ++ (fields.old ++ (10 ∷ []))
        ≡ flat_map line_text (lines_of i)) }
    ensures line { IfOk result (λ i. IsLineOf i name.now fields.old
        × IsPlaceKept (line_of i).fields) }
    ensures kept { IfOk result (λ i. IsInstrInRange names.now i) }
    ensures bad { IfErr result (λ why. IsBadLine names.now name.now fields.old why) }
{
    in_range(names, named(name, fields)?)
}
