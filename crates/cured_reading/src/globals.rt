//! Reading globals.
ghost use Rattle.std.specs.Prelude.{◌≡◌, ◌≢◌, ◌≤◌, ◌<◌, ◌-◌, ◌++◌, ◌∷◌, ◌↔◌, [], ℕ, List, IsTrue, All, IfOk, OnOk, IfErr, codes, flat_map, length, sum_by};
ghost use Rattle.std.specs.List.{AllByRecursion};
ghost use Rattle.cured_code.specs.declared.parts.Sig.{Sig as AnySig};
ghost use Rattle.cured_code.specs.Ranges.{IsGlobalInRange, flat_globals_limit, global_bytes_limit};
ghost use Rattle.cured_spelling.specs.Lines.{line_text, hex_byte, hex_digit, hex_text};
ghost use Rattle.cured_spelling.specs.Spelling.{counted, area_line};
ghost use Rattle.cured_reading.specs.Faults.{MoreNodes, MoreGlobals};
ghost use Rattle.cured_reading.specs.Refusals.{AreRead, IsRefused};

use crate::lines::Lines;
use crate::sections::{area, count, expect};
use crate::wrong::{CuredLimit, RANGE, SYNTAX, Wrong};
use cured_code::{AreaLine, Bytes, GlobalLine};
use std::alloc::Global;

// How many bytes all globals have together.
const BYTES_LIMIT: u64 = 12_582_912;

/// The value of a hexadecimal digit in lower case.
fn digit(byte: u8) -> Result<u8, Wrong>
    ensures found { IfOk result (λ d. (d < 16) × (hex_digit d ≡ byte)) }
    ensures none { IfErr result (λ why. (why ≡ SYNTAX) × ((d : ℕ) → d < 16 → hex_digit d ≢ byte)) }
{
    match byte {
        b'0'..=b'9' => Ok(byte - b'0'),
        b'a' => Ok(10),
        b'b' => Ok(11),
        b'c' => Ok(12),
        b'd' => Ok(13),
        b'e' => Ok(14),
        b'f' => Ok(15),
        _ => Err(SYNTAX),
    }
}

/// The bytes that such digits give, two each.
fn pairs(digits: &[u8], alloc: Global) -> Result<Vec<u8>, Wrong>
    ensures found { IfOk result (λ bytes. flat_map hex_byte bytes.items ≡ digits.now) }
    ensures small { IfOk result (λ bytes. AllByRecursion (λ byte. byte < 256) bytes.items) }
    ensures none { IfErr result (λ why. why ≢ Wrong.NoMemory
        → (why ≡ SYNTAX) × ((bytes : List ℕ) → AllByRecursion (λ byte. byte < 256) bytes
        → flat_map hex_byte bytes ≢ digits.now)) }
{
    let mut bytes = Vec::new(alloc);
    let mut rest = digits;
    'pairing: while let Some((high, tail)) = rest.split_first() {
        let Some((low, after)) = tail.split_first() else {
            return Err(SYNTAX);
        };
        let high = digit(*high)?;
        let low = digit(*low)?;
        bytes.push(high * 16 + low)?;
        rest = after;
    }
    Ok(bytes)
}

/// The first bytes of a global.
fn first_bytes(field: &[u8], alloc: Global) -> Result<Vec<u8>, Wrong>
    ensures found { IfOk result (λ bytes. hex_text bytes.items ≡ field.now) }
    ensures small { IfOk result (λ bytes. AllByRecursion (λ byte. byte < 256) bytes.items) }
    ensures none { IfErr result (λ why. why ≢ Wrong.NoMemory
        → (why ≡ SYNTAX) × ((bytes : List ℕ) → AllByRecursion (λ byte. byte < 256) bytes
        → hex_text bytes ≢ field.now)) }
{
    if field == b"-".as_slice() {
        return Ok(Vec::new(alloc));
    }
    let bytes = pairs(field, alloc)?;
    if bytes.is_empty() {
        return Err(SYNTAX);
    }
    Ok(bytes)
}

/// Whether a global of this area may begin with these bytes: no more than it has, the last of which isn't 0.
fn fits(area: AreaLine, first: &[u8]) -> bool
    ensures { IsTrue result ↔ IsGlobalInRange (record { area = area; first = first.now }) }
{
    first.len() as u64 <= area.bytes && first.last() != Some(&0)
}

/// The line of a global, of at most so many bytes.
fn global(lines: &mut Lines, left: u64, alloc: Global) -> Result<GlobalLine, Wrong>
    ensures spelled { IfOk result (λ global. lines.old.text
        ≡ line_text (area_line global) ++ lines.new.text) }
    ensures few { IfOk result (λ global. global.area.bytes ≤ left) }
    ensures kept { IfOk result (λ global. IsGlobalInRange global) }
    ensures read { IfOk result (λ global. (k : ℕ) (sigs : List AnySig) (nodes : ℕ) → 0 < k
        → AreRead (MoreGlobals k left sigs nodes) lines.old
        (MoreGlobals (k - 1) (left - global.area.bytes) sigs nodes) lines.new) }
    ensures refused { IfErr result (λ why. (k : ℕ) (sigs : List AnySig) (nodes : ℕ) → 0 < k
        → IsRefused (MoreGlobals k left sigs nodes) lines.old why lines.new.number) }
{
    let mut fields = lines.next()?;
    expect(&mut fields, b"area")?;
    let area = area(&mut fields)?;
    let word = fields.field()?;
    let first = first_bytes(word, alloc)?;
    fields.end()?;
    if area.bytes > left {
        return Err(Wrong::TooLarge(CuredLimit::Bytes));
    }
    if !fits(area, &first) {
        return Err(RANGE);
    }
    Ok(GlobalLine {
        area,
        first: Bytes(first),
    })
}

/// The globals.
pub(crate) fn globals(lines: &mut Lines, alloc: Global) -> Result<Vec<GlobalLine>, Wrong>
    ensures spelled { IfOk result (λ globals. lines.old.text ≡ flat_map line_text
        (counted (codes "globals") area_line globals.items) ++ lines.new.text) }
    ensures few { IfOk result (λ globals. length globals.items ≤ flat_globals_limit) }
    ensures bytes { IfOk result (λ globals. sum_by
        (λ g. g.area.bytes) globals.items ≤ global_bytes_limit) }
    ensures kept { IfOk result (λ globals. All IsGlobalInRange globals.items) }
    ensures read { OnOk result ((sigs : List AnySig) (nodes : ℕ)
        → (left : ℕ) × AreRead (MoreNodes 0 sigs nodes) lines.old
        (MoreGlobals 0 left sigs nodes) lines.new) }
    ensures refused { IfErr result (λ why. (sigs : List AnySig) (nodes : ℕ)
        → IsRefused (MoreNodes 0 sigs nodes) lines.old why lines.new.number) }
{
    let n = count(lines, b"globals", 1_048_576, CuredLimit::Globals)?;
    let mut left = BYTES_LIMIT;
    let mut globals = Vec::new(alloc);
    for i in 0..n {
        let global = global(lines, left, alloc)?;
        left -= global.area.bytes;
        globals.push(global)?;
    }
    Ok(globals)
}
