//! Writing a whole program.
ghost use Rattle.std.specs.Prelude.{◌≡◌, ◌<◌, ◌++◌, ◌∷◌, [], OnOk, IfOk, codes, flat_map, length, map};
ghost use Rattle.cured_spelling.specs.Lines.{hex_byte, hex_text, line, line_text, fields_text, Tag, Number};
ghost use Rattle.cured_spelling.specs.Spelling.{sig_line, node_line, area_line, function_line, local_line, body_lines, counted, parts_lines, cured_spelling};

use crate::instructions::put_code;
use crate::lines::{put_front, put_line, put_number, put_word};
use cc_base::NoMemory;
use cured_code::{AreaLine, Cured, Function, GlobalLine, Sig};
use cured_spelling::tag_letter;
use std::alloc::Global;

const DIGITS: [u8; 16] = *b"0123456789abcdef";

/// The text of a program, its one spelling.
///
/// Fails only for want of memory.
pub fn print(alloc: Global, code: &Cured) -> Result<Vec<u8>, NoMemory>
    ensures { IfOk result (λ text. text.items ≡ cured_spelling code.now) }
{
    let mut out = Vec::new(alloc);
    let parts = code.parts();
    let sigs = &parts.sigs;
    let nodes = &parts.nodes;
    let globals = &parts.globals;
    let functions = &parts.functions;
    put_parts(&mut out, &sigs.0, &nodes.0, &globals.0, &functions.0)?;
    Ok(out)
}

/// Adds the lines of a program.
fn put_parts(
    out: &mut Vec<u8>,
    sigs: &[Sig],
    parents: &[u32],
    globals: &[GlobalLine],
    functions: &[Function],
) -> Result<(), NoMemory>
    ensures { OnOk result (out.new.items ≡ out.old.items ++ flat_map line_text
        (parts_lines sigs.now parents.now globals.now functions.now)) }
{
    put_line(out, b"ccured", &[1])?;
    put_sigs(out, sigs)?;
    put_nodes(out, parents)?;
    put_globals(out, globals)?;
    put_functions(out, functions)?;
    put_bodies(out, functions)
}

/// Adds a line with a count.
fn put_count(out: &mut Vec<u8>, name: &[u8], count: usize) -> Result<(), NoMemory>
    ensures { OnOk result (out.new.items ≡ out.old.items ++ line_text
        (line name.now (count ∷ []))) }
{
    out.extend_from_slice(name)?;
    put_number(out, count as u64)?;
    out.push(b'\n')?;
    Ok(())
}

fn put_sigs(out: &mut Vec<u8>, sigs: &[Sig]) -> Result<(), NoMemory>
    ensures { OnOk result (out.new.items ≡ out.old.items ++ flat_map line_text
        (counted (codes "sigs") sig_line sigs.now)) }
{
    put_count(out, b"sigs", sigs.len())?;
    for sig in sigs {
        put_line(out, b"sig", &[sig.params, sig.results])?;
    }
    Ok(())
}

fn put_nodes(out: &mut Vec<u8>, parents: &[u32]) -> Result<(), NoMemory>
    ensures { OnOk result (out.new.items ≡ out.old.items ++ flat_map line_text
        (counted (codes "nodes") node_line parents.now)) }
{
    put_count(out, b"nodes", parents.len())?;
    for parent in parents {
        put_line(out, b"node", &[*parent])?;
    }
    Ok(())
}

/// Adds bytes as hexadecimal digits, two each.
fn put_bytes(out: &mut Vec<u8>, bytes: &[u8]) -> Result<(), NoMemory>
    ensures { OnOk result (out.new.items ≡ out.old.items ++ flat_map hex_byte bytes.now) }
{
    for byte in bytes {
        out.push(DIGITS[(*byte / 16) as usize])?;
        out.push(DIGITS[(*byte % 16) as usize])?;
    }
    Ok(())
}

/// Adds a space, and the first bytes of a global.
fn put_first(out: &mut Vec<u8>, bytes: &[u8]) -> Result<(), NoMemory>
    ensures { OnOk result (out.new.items ≡ out.old.items ++ (32 ∷ hex_text bytes.now)) }
{
    if bytes.is_empty() {
        return put_word(out, b"-");
    }
    out.push(b' ')?;
    put_bytes(out, bytes)
}

/// Adds a name, an area's letter and its bytes.
fn put_area(out: &mut Vec<u8>, name: &[u8], area: AreaLine) -> Result<(), NoMemory>
    ensures { OnOk result (out.new.items ≡ out.old.items ++
        (name.now ++ fields_text (Tag area.tagged ∷ Number area.bytes ∷ []))) }
{
    out.extend_from_slice(name)?;
    put_word(out, tag_letter(area.tagged))?;
    put_number(out, area.bytes)
}

fn put_global(out: &mut Vec<u8>, global: &GlobalLine) -> Result<(), NoMemory>
    ensures { OnOk result (out.new.items ≡ out.old.items ++ line_text (area_line global.now)) }
{
    let first = &global.first;
    put_area(out, b"area", global.area)?;
    put_first(out, &first.0)?;
    out.push(b'\n')?;
    Ok(())
}

fn put_globals(out: &mut Vec<u8>, globals: &[GlobalLine]) -> Result<(), NoMemory>
    ensures { OnOk result (out.new.items ≡ out.old.items ++ flat_map line_text
        (counted (codes "globals") area_line globals.now)) }
{
    put_count(out, b"globals", globals.len())?;
    for global in globals {
        put_global(out, global)?;
    }
    Ok(())
}

fn put_function(out: &mut Vec<u8>, function: &Function) -> Result<(), NoMemory>
    ensures { OnOk result (out.new.items ≡ out.old.items ++ line_text
        (function_line function.now)) }
{
    let locals = &function.locals;
    put_front(out, b"fn", &[function.sig, function.slots])?;
    put_number(out, function.charge)?;
    put_number(out, locals.0.len() as u64)?;
    out.push(b'\n')?;
    Ok(())
}

fn put_functions(out: &mut Vec<u8>, functions: &[Function]) -> Result<(), NoMemory>
    ensures { OnOk result (out.new.items ≡ out.old.items ++ flat_map line_text
        (counted (codes "functions") function_line functions.now)) }
{
    put_count(out, b"functions", functions.len())?;
    for function in functions {
        put_function(out, function)?;
    }
    Ok(())
}

fn put_locals(out: &mut Vec<u8>, locals: &[AreaLine]) -> Result<(), NoMemory>
    ensures { OnOk result (out.new.items ≡ out.old.items ++ flat_map line_text
        (map local_line locals.now)) }
{
    for area in locals {
        put_area(out, b"local", *area)?;
        out.push(b'\n')?;
    }
    Ok(())
}

/// Adds the areas of a function's frame, its instructions and its end.
fn put_body(out: &mut Vec<u8>, function: &Function) -> Result<(), NoMemory>
    ensures { OnOk result (out.new.items ≡ out.old.items ++ flat_map line_text
        (body_lines function.now)) }
{
    let locals = &function.locals;
    put_locals(out, &locals.0)?;
    put_code(out, &function.body.0)?;
    put_line(out, b"end", &[])
}

fn put_bodies(out: &mut Vec<u8>, functions: &[Function]) -> Result<(), NoMemory>
    ensures { OnOk result (out.new.items ≡ out.old.items ++ flat_map line_text
        (flat_map body_lines functions.now)) }
{
    for function in functions {
        put_body(out, function)?;
    }
    Ok(())
}
