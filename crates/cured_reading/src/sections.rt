//! Reading the sections of a text.
ghost use Rattle.std.specs.Prelude.{◌≡◌, ◌≢◌, ◌≤◌, ◌<◌, ◌^◌, ◌+◌, ◌-◌, ◌++◌, ◌∷◌, ◌↔◌, [], ℕ, List, All, IsTrue, IfOk, OnOk, IfErr, codes, flat_map, length, map};
ghost use Rattle.cured_code.specs.declared.parts.Sig.{Sig as AnySig};
ghost use Rattle.cured_code.specs.Ranges.{Names, IsSigInRange, AreParentsEarlier, sigs_limit, nodes_limit, local_bytes_limit};
ghost use Rattle.cured_spelling.specs.Lines.{Field, line, line_text, fields_text, Tag, Number};
ghost use Rattle.cured_spelling.specs.Spelling.{counted, sig_line, node_line, local_line};
ghost use Rattle.cured_reading.specs.Heads.{head_line};
ghost use Rattle.cured_reading.specs.declared.sections.Head.{Head as AnyHead};
ghost use Rattle.cured_reading.specs.Parts.{EndsWord};
ghost use Rattle.cured_reading.specs.Faults.{TheVersion, TheSigs, MoreSigs, MoreNodes, MoreGlobals, MoreFunctions, InBody, Part, Signature, Node, Local, Fn, IsWritable, HasSignature, functions_left};
ghost use Rattle.cured_reading.specs.Refusals.{IsName, line_of_one, line_of_two, IsMisread, IsMiscounted, LacksFields, LacksName, area_fields, AreRead, IsRefused, IsHeadKept, AreHeadsKept};

use crate::lines::{Fields, Lines};
use crate::straight::{low, two};
use crate::words::tag_of;
use crate::wrong::{CuredLimit, Form, RANGE, SYNTAX, Wrong};
use cured_code::{AreaLine, Sig};
use std::alloc::Global;

const PARAMS_LIMIT: u64 = 381;

const RESULTS_LIMIT: u64 = 3;

const SLOTS_LIMIT: u64 = 2_048;

const LOCALS_LIMIT: u64 = 1_048_576;

const LOCAL_BYTES_LIMIT: u64 = 3_145_728;

/// What the line of a function gives: its signature, its slots, its charge, and how many areas its frame has.
#[derive(Clone, Copy)]
pub(crate) struct Head {
    pub(crate) sig: u32,
    pub(crate) slots: u32,
    pub(crate) charge: u64,
    pub(crate) areas: usize,
}

/// The name that a line begins with is this.
pub(crate) fn expect(fields: &mut Fields, name: &[u8]) -> Result<(), Wrong>
    requires { IsName name.now }
    ensures cut { OnOk result (fields.old ≡ name.now ++ fields.new) }
    ensures ends { OnOk result (EndsWord fields.new) }
    ensures none { IfErr result (λ why. (why ≡ SYNTAX) × LacksName name.now fields.old) }
{
    if fields.name()? == name {
        Ok(())
    } else {
        Err(SYNTAX)
    }
}

/// The line of a name and one number.
fn number_line(lines: &mut Lines, name: &[u8]) -> Result<u64, Wrong>
    requires { IsName name.now }
    ensures spelled { IfOk result (λ n. lines.old.text
        ≡ line_text (line name.now (n ∷ [])) ++ lines.new.text) }
    ensures small { IfOk result (λ n. n < 2 ^ 64) }
    ensures counted { OnOk result (lines.new.number ≡ lines.old.number + 1) }
    ensures misread { IfErr result (λ why. IsMisread
        (line_of_one name.now) lines.old why lines.new.number) }
{
    let mut fields = lines.next()?;
    expect(&mut fields, name)?;
    let n = fields.number()?;
    fields.end()?;
    Ok(n)
}

/// The line of a name and two numbers.
fn pair_line(lines: &mut Lines, name: &[u8]) -> Result<(u64, u64), Wrong>
    requires { IsName name.now }
    ensures spelled { IfOk result (λ p. lines.old.text
        ≡ line_text (line name.now (p.0 ∷ p.1 ∷ [])) ++ lines.new.text) }
    ensures small { IfOk result (λ p. (p.0 < 2 ^ 64) × (p.1 < 2 ^ 64)) }
    ensures counted { OnOk result (lines.new.number ≡ lines.old.number + 1) }
    ensures misread { IfErr result (λ why. IsMisread
        (line_of_two name.now) lines.old why lines.new.number) }
{
    let mut fields = lines.next()?;
    expect(&mut fields, name)?;
    let numbers = two(&mut fields)?;
    fields.end()?;
    Ok(numbers)
}

/// The line of a count, which keeps a limit.
pub(crate) fn count(
    lines: &mut Lines,
    name: &[u8],
    most: u64,
    limit: CuredLimit,
) -> Result<u64, Wrong>
    requires { IsName name.now }
    ensures spelled { IfOk result (λ n. lines.old.text
        ≡ line_text (line name.now (n ∷ [])) ++ lines.new.text) }
    ensures small { IfOk result (λ n. n < 2 ^ 64) }
    ensures few { IfOk result (λ n. n ≤ most) }
    ensures counted { OnOk result (lines.new.number ≡ lines.old.number + 1) }
    ensures refused { IfErr result (λ why. IsMiscounted name.now most limit lines.old why
        lines.new.number) }
{
    let n = number_line(lines, name)?;
    if n <= most {
        Ok(n)
    } else {
        Err(Wrong::TooLarge(limit))
    }
}

/// The first line, with the version.
pub(crate) fn version(lines: &mut Lines) -> Result<(), Wrong>
    ensures spelled { OnOk result (lines.old.text ≡ line_text
        (line (codes "ccured") (1 ∷ [])) ++ lines.new.text) }
    ensures read { OnOk result (AreRead TheVersion lines.old TheSigs lines.new) }
    ensures refused { IfErr result (λ why. IsRefused TheVersion lines.old why lines.new.number) }
{
    let n = number_line(lines, b"ccured")?;
    if n == 1 {
        Ok(())
    } else {
        Err(Wrong::Form(Form::Version))
    }
}

fn sig(lines: &mut Lines) -> Result<Sig, Wrong>
    ensures spelled { IfOk result (λ sig. lines.old.text
        ≡ line_text (sig_line sig) ++ lines.new.text) }
    ensures kept { IfOk result IsSigInRange }
    ensures read { IfOk result (λ sig. (k : ℕ) (sigs : List AnySig) → 0 < k
        → AreRead (MoreSigs k sigs) lines.old (MoreSigs (k - 1) (sigs ++ (sig ∷ []))) lines.new) }
    ensures refused { IfErr result (λ why. (k : ℕ) (sigs : List AnySig) → 0 < k
        → IsRefused (MoreSigs k sigs) lines.old why lines.new.number) }
{
    let (params, results) = pair_line(lines, b"sig")?;
    if params > PARAMS_LIMIT {
        return Err(RANGE);
    }
    if results > RESULTS_LIMIT {
        return Err(RANGE);
    }
    Ok(Sig {
        params: params as u32,
        results: results as u32,
    })
}

/// The signatures.
pub(crate) fn sigs(lines: &mut Lines, alloc: Global) -> Result<Vec<Sig>, Wrong>
    ensures spelled { IfOk result (λ sigs. lines.old.text ≡ flat_map line_text
        (counted (codes "sigs") sig_line sigs.items) ++ lines.new.text) }
    ensures few { IfOk result (λ sigs. length sigs.items ≤ sigs_limit) }
    ensures kept { IfOk result (λ sigs. All IsSigInRange sigs.items) }
    ensures read { IfOk result (λ sigs. AreRead TheSigs lines.old
        (MoreSigs 0 sigs.items) lines.new) }
    ensures refused { IfErr result (λ why. IsRefused TheSigs lines.old why lines.new.number) }
{
    let n = count(lines, b"sigs", 65_536, CuredLimit::Sigs)?;
    let mut sigs = Vec::new(alloc);
    for i in 0..n {
        sigs.push(sig(lines)?)?;
    }
    Ok(sigs)
}

/// The parent of the next node, which is an earlier one.
fn node(lines: &mut Lines, before: u64) -> Result<u32, Wrong>
    requires { before < nodes_limit }
    ensures spelled { IfOk result (λ parent. lines.old.text
        ≡ line_text (node_line parent) ++ lines.new.text) }
    ensures kept { IfOk result (λ parent. parent ≤ before) }
    ensures read { OnOk result ((k : ℕ) (sigs : List AnySig) → 0 < k
        → AreRead (MoreNodes k sigs before) lines.old
        (MoreNodes (k - 1) sigs (before + 1)) lines.new) }
    ensures refused { IfErr result (λ why. (k : ℕ) (sigs : List AnySig) → 0 < k
        → IsRefused (MoreNodes k sigs before) lines.old why lines.new.number) }
{
    let parent = number_line(lines, b"node")?;
    if parent > before {
        return Err(RANGE);
    }
    low(parent)
}

/// The parents of the type nodes.
pub(crate) fn nodes(lines: &mut Lines, alloc: Global) -> Result<Vec<u32>, Wrong>
    ensures spelled { IfOk result (λ nodes. lines.old.text ≡ flat_map line_text
        (counted (codes "nodes") node_line nodes.items) ++ lines.new.text) }
    ensures few { IfOk result (λ nodes. length nodes.items ≤ nodes_limit) }
    ensures kept { IfOk result (λ nodes. AreParentsEarlier nodes.items) }
    ensures read { IfOk result (λ nodes. (sigs : List AnySig)
        → AreRead (MoreSigs 0 sigs) lines.old (MoreNodes 0 sigs (length nodes.items)) lines.new) }
    ensures refused { IfErr result (λ why. (sigs : List AnySig)
        → IsRefused (MoreSigs 0 sigs) lines.old why lines.new.number) }
{
    let n = count(lines, b"nodes", 65_536, CuredLimit::Nodes)?;
    let mut nodes = Vec::new(alloc);
    for i in 0..n {
        nodes.push(node(lines, i)?)?;
    }
    Ok(nodes)
}

/// An area, of the letter and the bytes that come next.
pub(crate) fn area(fields: &mut Fields) -> Result<AreaLine, Wrong>
    ensures cut { IfOk result (λ area. fields.old ≡ fields_text
        (Tag area.tagged ∷ Number area.bytes ∷ []) ++ fields.new) }
    ensures small { IfOk result (λ area. area.bytes < 2 ^ 64) }
    ensures ends { OnOk result (EndsWord fields.new) }
    ensures none { IfErr result (λ why. (why ≡ SYNTAX) × LacksFields area_fields fields.old) }
{
    let letter = fields.field()?;
    let Some(tagged) = tag_of(letter) else {
        return Err(SYNTAX);
    };
    let bytes = fields.number()?;
    Ok(AreaLine { tagged, bytes })
}

/// An area of a frame.
fn local(lines: &mut Lines) -> Result<AreaLine, Wrong>
    ensures spelled { IfOk result (λ area. lines.old.text
        ≡ line_text (local_line area) ++ lines.new.text) }
    ensures kept { IfOk result (λ area. area.bytes ≤ local_bytes_limit) }
    ensures read { OnOk result ((k : ℕ) (part : Part) (rest : List Names) → 0 < k
        → AreRead (InBody k part [] rest) lines.old (InBody (k - 1) part [] rest) lines.new) }
    ensures refused { IfErr result (λ why. (k : ℕ) (part : Part) (rest : List Names) → 0 < k
        → IsRefused (InBody k part [] rest) lines.old why lines.new.number) }
{
    let mut fields = lines.next()?;
    expect(&mut fields, b"local")?;
    let area = area(&mut fields)?;
    fields.end()?;
    if area.bytes > LOCAL_BYTES_LIMIT {
        return Err(Wrong::TooLarge(CuredLimit::LocalBytes));
    }
    Ok(area)
}

/// The areas of a frame.
pub(crate) fn locals(lines: &mut Lines, n: usize, alloc: Global) -> Result<Vec<AreaLine>, Wrong>
    ensures spelled { IfOk result (λ areas. lines.old.text
        ≡ flat_map line_text (map local_line areas.items) ++ lines.new.text) }
    ensures many { IfOk result (λ areas. length areas.items ≡ n) }
    ensures kept { IfOk result (λ areas. All (λ area. area.bytes ≤ local_bytes_limit) areas.items) }
    ensures read { OnOk result ((part : Part) (rest : List Names)
        → AreRead (InBody n part [] rest) lines.old (InBody 0 part [] rest) lines.new) }
    ensures refused { IfErr result (λ why. (part : Part) (rest : List Names)
        → IsRefused (InBody n part [] rest) lines.old why lines.new.number) }
{
    let mut areas = Vec::new(alloc);
    for i in 0..n {
        areas.push(local(lines)?)?;
    }
    Ok(areas)
}

/// The fields of the line of a function: its signature, its slots, its charge, and how many areas its frame has.
fn head_fields(lines: &mut Lines) -> Result<(u64, u64, u64, u64), Wrong>
    ensures spelled { IfOk result (λ h. lines.old.text
        ≡ line_text (line (codes "fn") (h.0 ∷ h.1 ∷ h.2 ∷ h.3 ∷ [])) ++ lines.new.text) }
    ensures small { IfOk result (λ h. (h.0 < 2 ^ 64) × (h.1 < 2 ^ 64) × (h.2 < 2 ^ 64)
        × (h.3 < 2 ^ 64)) }
    ensures counted { OnOk result (lines.new.number ≡ lines.old.number + 1) }
    ensures misread { IfErr result (λ why. IsMisread head_line lines.old why lines.new.number) }
{
    let mut fields = lines.next()?;
    expect(&mut fields, b"fn")?;
    let (sig, slots) = two(&mut fields)?;
    let (charge, areas) = two(&mut fields)?;
    fields.end()?;
    Ok((sig, slots, charge, areas))
}

/// The line of a function, after so many others. The first takes and gives nothing.
fn function_head(lines: &mut Lines, sigs: &[Sig], before: u64) -> Result<Head, Wrong>
    requires { length sigs.now ≤ sigs_limit }
    ensures spelled { IfOk result (λ head. lines.old.text
        ≡ line_text (head_line head) ++ lines.new.text) }
    ensures kept { IfOk result (λ head. IsHeadKept sigs.now before head) }
    ensures read { IfOk result (λ head. (k nodes : ℕ) (heads : List AnyHead) → 0 < k → length heads
        ≡ before
        → AreRead (MoreFunctions k sigs.now nodes heads) lines.old
        (functions_left (k - 1) sigs.now nodes (heads ++ (head ∷ []))) lines.new) }
    ensures refused { IfErr result (λ why. (k nodes : ℕ) (heads : List AnyHead) → 0 < k
        → length heads ≡ before
        → IsRefused (MoreFunctions k sigs.now nodes heads) lines.old why lines.new.number) }
{
    let (number, width, charge, areas) = head_fields(lines)?;
    if width > SLOTS_LIMIT {
        return Err(Wrong::TooLarge(CuredLimit::Slots));
    }
    if areas > LOCALS_LIMIT {
        return Err(Wrong::TooLarge(CuredLimit::Locals));
    }
    let sig = low(number)?;
    let slots = low(width)?;
    let head = Head {
        sig,
        slots,
        charge,
        areas: areas as usize,
    };
    if has_sig(head, sigs, before) {
        Ok(head)
    } else {
        Err(RANGE)
    }
}

/// Whether the function's signature is there, its slots hold the parameters, and the first function's is bare.
fn has_sig(head: Head, sigs: &[Sig], before: u64) -> bool
    ensures { IsTrue result ↔ HasSignature sigs.now before head }
{
    match sigs.get(head.sig as usize) {
        None => false,
        Some(sig) => {
            sig.params <= head.slots && (before > 0 || (sig.params == 0 && sig.results == 0))
        }
    }
}

/// The lines of the functions, of which there is one at least.
pub(crate) fn heads(lines: &mut Lines, sigs: &[Sig], alloc: Global) -> Result<Vec<Head>, Wrong>
    requires { length sigs.now ≤ sigs_limit }
    ensures spelled { IfOk result (λ heads. lines.old.text ≡ flat_map line_text
        (counted (codes "functions") head_line heads.items) ++ lines.new.text) }
    ensures kept { IfOk result (λ heads. AreHeadsKept sigs.now heads.items) }
    ensures read { IfOk result (λ heads. (left nodes : ℕ)
        → AreRead (MoreGlobals 0 left sigs.now nodes) lines.old
        (functions_left 0 sigs.now nodes heads.items) lines.new) }
    ensures refused { IfErr result (λ why. (left nodes : ℕ)
        → IsRefused (MoreGlobals 0 left sigs.now nodes) lines.old why lines.new.number) }
{
    let n = count(lines, b"functions", 65_536, CuredLimit::Functions)?;
    if n == 0 {
        return Err(RANGE);
    }
    let mut heads = Vec::new(alloc);
    for i in 0..n {
        heads.push(function_head(lines, sigs, i)?)?;
    }
    Ok(heads)
}
