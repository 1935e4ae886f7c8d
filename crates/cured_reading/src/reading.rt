//! Reading a whole program.
ghost use Rattle.std.specs.Prelude.{◌≡◌, ◌≢◌, ◌≤◌, ◌++◌, ◌∷◌, List, All, IfOk, OnOk, IfErr, length, flat_map, map, slice_get};
ghost use Rattle.cured_code.specs.Ranges.{Names as Scope, IsInRange, IsFunctionInRange, AreInstrsInRange, sigs_of, sigs_limit, nodes_limit, local_bytes_limit};
ghost use Rattle.cured_spelling.specs.Lines.{line_text};
ghost use Rattle.cured_spelling.specs.Spelling.{function_line, body_lines, program_lines, cured_spelling};
ghost use Rattle.cured_reading.specs.Heads.{head_line};
ghost use Rattle.cured_reading.specs.Faults.{TheVersion, Nothing, IsUncured, names_of, bodies};
ghost use Rattle.cured_reading.specs.Refusals.{IsFew, AreHeadsKept, AreRead, IsRefused, IsHeadOf};

use crate::code::{Closing, part};
use crate::globals::globals;
use crate::lines::Lines;
use crate::sections::{Head, heads, locals, nodes, sigs, version};
use crate::wrong::{CuredFault, RANGE, Wrong};
use cured_code::{
    Code, Cured, Function, Functions, Globals, Locals, Names, Parents, Parts, Sig, Sigs,
};
use std::alloc::Global;

/// The program that a text spells. A text that spells none fails at its first line that fails.
pub fn read(alloc: Global, text: &[u8]) -> Result<Cured, CuredFault>
    requires { length text.now ≤ 134217728 }
    ensures spelled { IfOk result (λ code. text.now ≡ cured_spelling code) }
    ensures refused { IfErr result (λ why. why ≢ CuredFault.NoMemory → IsUncured text.now why) }
{
    let mut lines = Lines::new(text);
    match whole(&mut lines, alloc) {
        Ok(code) => Ok(code),
        Err(wrong) => Err(wrong.at(lines.number())),
    }
}

/// The program of all lines.
fn whole(lines: &mut Lines, alloc: Global) -> Result<Cured, Wrong>
    ensures spelled { IfOk result (λ code. lines.old.text ≡ cured_spelling code) }
    ensures refused { IfErr result (λ why. IsRefused TheVersion lines.old why lines.new.number) }
{
    let parts = parts(lines, alloc)?;
    if !lines.is_empty() {
        return Err(Wrong::Next);
    }
    match Cured::new(parts) {
        Some(code) => Ok(code),
        None => Err(RANGE),
    }
}

/// The parts of a program, section by section.
fn parts(lines: &mut Lines, alloc: Global) -> Result<Parts, Wrong>
    ensures spelled { IfOk result (λ parts. lines.old.text
        ≡ flat_map line_text (program_lines parts) ++ lines.new.text) }
    ensures kept { IfOk result (λ parts. IsInRange parts) }
    ensures read { OnOk result (AreRead TheVersion lines.old Nothing lines.new) }
    ensures refused { IfErr result (λ why. IsRefused TheVersion lines.old why lines.new.number) }
{
    version(lines)?;
    let sigs = sigs(lines, alloc)?;
    let nodes = nodes(lines, alloc)?;
    let globals = globals(lines, alloc)?;
    let heads = heads(lines, &sigs, alloc)?;
    let functions = functions(lines, &sigs, nodes.len(), &heads, alloc)?;
    Ok(Parts {
        sigs: Sigs(sigs),
        nodes: Parents(nodes),
        globals: Globals(globals),
        functions: Functions(functions),
    })
}

/// The functions' numbers of signatures, for what their bodies name.
fn named(heads: &[Head], alloc: Global) -> Result<Vec<Function>, Wrong>
    ensures sigs { IfOk result (λ fs. sigs_of fs.items ≡ map (λ h. h.sig) heads.now) }
    ensures wanted { IfErr result (λ why. why ≡ Wrong.NoMemory) }
{
    let mut named = Vec::new(alloc);
    for head in heads {
        named.push(Function {
            sig: head.sig,
            slots: head.slots,
            charge: head.charge,
            locals: Locals(Vec::new(alloc)),
            body: Code(Vec::new(alloc)),
        })?;
    }
    Ok(named)
}

/// The body of a function.
fn body(lines: &mut Lines, names: &Names, head: Head, alloc: Global) -> Result<Function, Wrong>
    requires few { IsFew names.now }
    requires areas { names.now.areas ≡ head.areas }
    ensures spelled { IfOk result (λ f. lines.old.text
        ≡ flat_map line_text (body_lines f) ++ lines.new.text) }
    ensures head { IfOk result (λ f. function_line f ≡ head_line head) }
    ensures of { IfOk result (λ f. IsHeadOf f head) }
    ensures locals { IfOk result (λ f. All (λ area. area.bytes ≤ local_bytes_limit) f.locals) }
    ensures kept { IfOk result (λ f. AreInstrsInRange names.now f.body.0.items) }
    ensures read { OnOk result ((rest : List Scope)
        → AreRead (bodies (names.now ∷ rest)) lines.old (bodies rest) lines.new) }
    ensures refused { IfErr result (λ why. (rest : List Scope)
        → IsRefused (bodies (names.now ∷ rest)) lines.old why lines.new.number) }
{
    let areas = locals(lines, head.areas, alloc)?;
    let code = part(lines, names, Closing::End, alloc)?;
    Ok(Function {
        sig: head.sig,
        slots: head.slots,
        charge: head.charge,
        locals: Locals(areas),
        body: code,
    })
}

/// The signature of this number.
fn sig_of(sigs: &[Sig], number: u32) -> Option<Sig>
    ensures { result ≡ slice_get sigs.now number }
{
    sigs.get(number as usize).copied()
}

/// The bodies of the functions.
fn functions(
    lines: &mut Lines,
    sigs: &[Sig],
    nodes: usize,
    heads: &[Head],
    alloc: Global,
) -> Result<Vec<Function>, Wrong>
    requires sigs { length sigs.now ≤ sigs_limit }
    requires nodes { nodes ≤ nodes_limit }
    requires heads { AreHeadsKept sigs.now heads.now }
    ensures spelled { IfOk result (λ fs. lines.old.text ≡ flat_map line_text
        (flat_map body_lines fs.items) ++ lines.new.text) }
    ensures heads { IfOk result (λ fs. map function_line fs.items ≡ map head_line heads.now) }
    ensures kept { IfOk result (λ fs. All (IsFunctionInRange sigs.now
        (map (λ h. h.sig) heads.now) nodes) fs.items) }
    ensures sigs { IfOk result (λ fs. sigs_of fs.items ≡ map (λ h. h.sig) heads.now) }
    ensures read { OnOk result (AreRead (bodies (map (names_of sigs.now nodes heads.now) heads.now))
        lines.old Nothing lines.new) }
    ensures refused { IfErr result (λ why.
        IsRefused (bodies (map (names_of sigs.now nodes heads.now) heads.now)) lines.old why
        lines.new.number) }
{
    let named = named(heads, alloc)?;
    let mut functions = Vec::new(alloc);
    for head in heads {
        let Some(sig) = sig_of(sigs, head.sig) else {
            return Err(RANGE);
        };
        let names = Names {
            sigs,
            functions: &named,
            nodes,
            slots: head.slots,
            areas: head.areas,
            results: sig.results,
            blocks: 0,
            nest: 0,
        };
        functions.push(body(lines, &names, *head, alloc)?)?;
    }
    Ok(functions)
}
