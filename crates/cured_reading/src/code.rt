//! Reading instructions, with those that they hold.
ghost use Rattle.std.specs.Prelude.{◌≡◌, ◌≢◌, ◌≤◌, ◌<◌, ◌++◌, ◌∷◌, [], ℕ, Bool, List, IfOk, OnOk, IfErr, codes, flat_map, length};
ghost use Rattle.cured_code.specs.Ranges.{Names as Scope, IsInstrInRange, AreInstrsInRange, inside_block, flat_nest_limit};
ghost use Rattle.cured_spelling.specs.Lines.{line_text};
ghost use Rattle.cured_spelling.specs.Spelling.{lines_of, code_lines, else_line, end_line};
ghost use Rattle.cured_reading.specs.Openings.{IsOpening, closing_line};
ghost use Rattle.cured_reading.specs.declared.code.Closing.{Closing as AnyClosing};
ghost use Rattle.cured_reading.specs.Parts.{Left as Place};
ghost use Rattle.cured_reading.specs.Faults.{Part as Outer, next, told_line};
ghost use Rattle.cured_reading.specs.Refusals.{IsFew, IsBegun, in_part, told_held, told_closing, AreRead, IsRefused};

use crate::lines::{Fields, Lines};
use crate::straight::{low, straight};
use crate::wrong::{CuredLimit, RANGE, SYNTAX, Wrong};
use cured_code::{Code, Instr, Names};
use std::alloc::Global;

// How many parts stand in one another at most.
const NEST_LIMIT: u32 = 1_024;

/// The line that ends a part.
#[derive(Clone, Copy)]
pub(crate) enum Closing {
    Else,
    End,
}

/// What the line of a name does.
#[derive(Clone, Copy)]
enum Opening {
    Else,
    End,
    If,
    Block,
    Loop,
    Straight,
}

fn opening_of(name: &[u8]) -> Opening
    ensures { IsOpening name.now result }
{
    match name {
        b"else" => Opening::Else,
        b"end" => Opening::End,
        b"if" => Opening::If,
        b"block" => Opening::Block,
        b"loop" => Opening::Loop,
        _ => Opening::Straight,
    }
}

/// The end of a part: this line may stand here, and has no field.
fn close(found: Closing, closing: Closing, fields: &Fields) -> Result<(), Wrong>
    ensures closed { OnOk result ((found ≡ closing) × (fields.now ≡ [])) }
    ensures open { IfErr result (λ why. (why ≡ SYNTAX) × (found ≡ closing → fields.now ≢ [])) }
{
    match (found, closing) {
        (Closing::Else, Closing::Else) => fields.end(),
        (Closing::End, Closing::End) => fields.end(),
        _ => Err(SYNTAX),
    }
}

/// The instructions up to the line that ends their part, and that line.
#[cycle(reading)]
pub(crate) fn part(
    lines: &mut Lines,
    names: &Names,
    closing: Closing,
    alloc: Global,
) -> Result<Code, Wrong>
    requires { IsFew names.now }
    ensures spelled { IfOk result (λ code. lines.old.text ≡ flat_map line_text
        (code_lines code.0.items) ++ (line_text (closing_line closing) ++ lines.new.text)) }
    ensures shorter { OnOk result (length lines.new.text < length lines.old.text) }
    ensures kept { IfOk result (λ code. AreInstrsInRange names.now code.0.items) }
    ensures read { OnOk result ((parts : List Outer) (rest : List Scope)
        → AreRead (in_part names.now closing parts rest) lines.old
        (next (in_part names.now closing parts rest) (told_closing closing)) lines.new) }
    ensures refused { IfErr result (λ why. (parts : List Outer) (rest : List Scope)
        → IsRefused (in_part names.now closing parts rest) lines.old why lines.new.number) }
{
    let mut instrs = Vec::new(alloc);
    'reading: loop {
        let mut fields = lines.next()?;
        let name = fields.name()?;
        let found = opening_of(name);
        match found {
            Opening::Else => {
                close(Closing::Else, closing, &fields)?;
                return Ok(Code(instrs));
            }
            Opening::End => {
                close(Closing::End, closing, &fields)?;
                return Ok(Code(instrs));
            }
            Opening::Straight => instrs.push(straight(names, name, &mut fields)?)?,
            Opening::If => instrs.push(branch(lines, names, &mut fields, alloc)?)?,
            Opening::Block => {
                let code = held(lines, names, &fields, alloc)?;
                instrs.push(Instr::Block(code))?;
            }
            Opening::Loop => {
                let code = held(lines, names, &fields, alloc)?;
                instrs.push(Instr::Loop(code))?;
            }
        }
    }
}

/// The fields of an `if`, and its two parts.
#[cycle(reading)]
fn branch(
    lines: &mut Lines,
    names: &Names,
    fields: &mut Fields,
    alloc: Global,
) -> Result<Instr, Wrong>
    requires { IsFew names.now }
    ensures spelled { IfOk result (λ i. codes "if" ++ (fields.old ++ (10 ∷ lines.old.text))
        ≡ flat_map line_text (lines_of i) ++ lines.new.text) }
    ensures shorter { OnOk result (length lines.new.text ≤ length lines.old.text) }
    ensures kept { IfOk result (λ i. IsInstrInRange names.now i) }
    ensures read { OnOk result ((before : Place) (closing : AnyClosing) (parts : List Outer)
        (rest : List Scope)
        → IsBegun (codes "if") fields.old before lines.old
        → AreRead (in_part names.now closing parts rest) before
        (in_part names.now closing parts rest) lines.new) }
    ensures refused { IfErr result (λ why. (before : Place) (closing : AnyClosing)
        (parts : List Outer) (rest : List Scope)
        → IsBegun (codes "if") fields.old before lines.old
        → IsRefused (in_part names.now closing parts rest) before why lines.new.number) }
{
    let a = fields.number()?;
    fields.end()?;
    if names.nest >= NEST_LIMIT {
        return Err(Wrong::TooLarge(CuredLimit::Nest));
    }
    let a = low(a)?;
    if a >= names.slots {
        return Err(RANGE);
    }
    let inner = names.inside_if();
    let first = part(lines, &inner, Closing::Else, alloc)?;
    let second = part(lines, &inner, Closing::End, alloc)?;
    Ok(Instr::If(a, first, second))
}

/// The part of a `block` or a `loop`.
#[cycle(reading)]
fn held(lines: &mut Lines, names: &Names, fields: &Fields, alloc: Global) -> Result<Code, Wrong>
    requires { IsFew names.now }
    ensures fields { OnOk result (fields.now ≡ []) }
    ensures spelled { IfOk result (λ code. lines.old.text ≡ flat_map line_text
        (code_lines code.0.items) ++ (line_text end_line ++ lines.new.text)) }
    ensures shorter { OnOk result (length lines.new.text ≤ length lines.old.text) }
    ensures nest { OnOk result (names.now.nest < flat_nest_limit) }
    ensures kept { IfOk result (λ code. AreInstrsInRange (inside_block names.now) code.0.items) }
    ensures read { OnOk result ((is_loop : Bool) (before : Place) (closing : AnyClosing)
        (parts : List Outer) (rest : List Scope)
        → IsBegun (told_line (told_held is_loop)).name fields.now before lines.old
        → AreRead (in_part names.now closing parts rest) before
        (in_part names.now closing parts rest) lines.new) }
    ensures refused { IfErr result (λ why. (is_loop : Bool) (before : Place) (closing : AnyClosing)
        (parts : List Outer) (rest : List Scope)
        → IsBegun (told_line (told_held is_loop)).name fields.now before lines.old
        → IsRefused (in_part names.now closing parts rest) before why lines.new.number) }
{
    fields.end()?;
    if names.nest >= NEST_LIMIT {
        return Err(Wrong::TooLarge(CuredLimit::Nest));
    }
    let inner = names.inside_block();
    part(lines, &inner, Closing::End, alloc)
}
