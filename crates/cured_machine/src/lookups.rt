//! Frames, functions, type nodes and blocks.
ghost use Rattle.std.specs.Prelude.{false, ◌≡◌, ◌<◌, ◌+◌, ◌^◌, ℕ, length, map, slice_get, Some, None, if◌then◌else◌};
ghost use Rattle.cured_code.specs.declared.parts.Parts.{Parts};
ghost use Rattle.flat_mem.specs.declared.Area.{Area};
ghost use Rattle.cured_code.specs.Groups.{Lookups};
ghost use Rattle.cured_code.specs.Tables.{function_at, is_below, parent_of, sig_word, frame_fits, has_room};
ghost use Rattle.flat_mem.specs.Memory.{Memory, block_fits, block_address, block_made};
ghost use Rattle.cured_machine.specs.Ready.{frame_areas};
ghost use Rattle.cured_machine.specs.Operations.{instr_of, is_laid, own_group};
ghost use Rattle.cured_machine.specs.Rows.{IsNamed, IsLookupRow, IsMemoryRow, areas_in, sig_word_in, has_room_in, function_of_sig};

use crate::operation::Operation;
use crate::row::Row;
use crate::tests_and_divisions::truth;
use cured_code::{Function, Instr, Parts};
use flat_mem::{Area, Flat, FramePlan};

/// A new block's address, or 0 where none can be made. Its charge is `charge` and 16 more.
fn new_block(flat: &mut Flat, tagged: bool, bytes: u64, charge: u64) -> u64
    requires { flat.old.bounds.heap_limit < 2 ^ 64 }
    ensures address { let area : Area = record { tagged = tagged; bytes = bytes } in
        result ≡ (if block_fits flat.old area (charge + 16) then block_address flat.old else 0) }
    ensures memory { let area : Area = record { tagged = tagged; bytes = bytes } in
        flat.new ≡ (if block_fits flat.old area (charge + 16) then block_made flat.old area
        (charge + 16) else flat.old) }
{
    match charge.checked_add(16) {
        None => 0,
        Some(charge) => match flat.new_area(Area { tagged, bytes }, charge) {
            None => 0,
            Some(address) => address,
        },
    }
}

/// The number of the function at an address, where there is one.
fn function_number(count: usize, address: u64) -> Option<usize>
    ensures { result ≡ function_at count address }
{
    let number = (address / 8).saturating_sub(1);
    if address % 8 == 0 && address >= 8 && number < count as u64 {
        Some(number as usize)
    } else {
        None
    }
}

/// The parent of a type node, or 0 where it has none.
fn parent(parents: &[u32], node: u64) -> u64
    ensures { result ≡ parent_of parents.now node }
{
    if node == 0 || node > parents.len() as u64 {
        0
    } else {
        u64::from(parents[(node - 1) as usize])
    }
}

/// Whether type node `a` is node `n` or has it as an ancestor.
fn is_node_below(parents: &[u32], a: u64, n: u32) -> bool
    requires { 0 < n }
    ensures { result ≡ is_below parents.now a n }
{
    let mut node = a;
    for step in 0..parents.len() {
        let _step = step;
        if node == u64::from(n) {
            return true;
        }
        if node == 0 {
            return false;
        }
        node = parent(parents, node);
    }
    node == u64::from(n)
}

/// The function at an address, where there is one and it has signature `sig`.
#[inline(always)]
pub(crate) fn function_of(functions: &[Function], sig: u32, address: u64) -> Option<usize>
    ensures { result ≡ function_of_sig functions.now sig
        (function_at (length functions.now) address) }
{
    match function_number(functions.len(), address) {
        None => None,
        Some(number) => {
            let function = &functions[number];
            if sig_of(function) == sig {
                Some(number)
            } else {
                None
            }
        }
    }
}

fn sig_of(function: &Function) -> u32
    ensures { result ≡ function.now.sig }
{
    function.sig
}

/// 1 plus the signature of the function at an address, or 0.
fn sig_at(functions: &[Function], address: u64) -> u64
    ensures { result ≡ sig_word_in functions.now (function_at (length functions.now) address) }
{
    match function_number(functions.len(), address) {
        None => 0,
        Some(number) => match functions.get(number) {
            None => 0,
            Some(function) => u64::from(sig_of(function)) + 1,
        },
    }
}

/// Whether a frame of this function may be pushed.
#[inline(always)]
pub(crate) fn frame_fits(
    functions: &[Function],
    frames: &[FramePlan],
    flat: &Flat,
    number: usize,
) -> bool
    requires there { number < length functions.now }
    requires areas { frames.now ≡ map frame_areas functions.now }
    ensures { result ≡ frame_fits (slice_get functions.now number) flat.now }
{
    let function = &functions[number];
    flat.fits(&frames[number], function.charge)
}

/// Whether a function is at the address, and its frame may be pushed.
fn has_room(functions: &[Function], frames: &[FramePlan], flat: &Flat, address: u64) -> bool
    requires { frames.now ≡ map frame_areas functions.now }
    ensures { result ≡ has_room_in functions.now
        (function_at (length functions.now) address) flat.now }
{
    match function_number(functions.len(), address) {
        None => false,
        Some(number) => frame_fits(functions, frames, flat, number),
    }
}

/// The addresses of a frame's areas, and the depths of addresses.
#[inline(always)]
pub(crate) fn act_places(operation: &Operation, flat: &Flat, frame: &mut [u64]) -> Row
    requires { IsNamed (instr_of operation.now) (length frame.old) (areas_in flat.now) }
    ensures { IsMemoryRow (own_group operation.now ≡ Lookups)
        (instr_of operation.now) flat.now flat.now frame.old frame.new result }
{
    match *operation {
        Operation::Frame(v, k) => frame[v as usize] = flat.frame_area(k as usize),
        Operation::Depth(v, a) => frame[v as usize] = flat.depth_of(frame[a as usize]),
        _ => return Row::Other,
    }
    Row::Done
}

/// Instructions that look something up in the program, or make a block. It's a function of its own so that the loop's code
/// stays small.
#[inline(never)]
pub(crate) fn act_by_search(
    instr: &Instr,
    parts: &Parts,
    frames: &[FramePlan],
    flat: &mut Flat,
    frame: &mut [u64],
) -> Row
    requires named { IsNamed instr.now (length frame.old) (areas_in flat.old) }
    requires limit { flat.old.bounds.heap_limit < 2 ^ 64 }
    requires whole { is_laid instr.now ≡ false }
    requires areas { frames.now ≡ map frame_areas parts.now.functions }
    ensures { IsLookupRow parts.now instr.now flat.old flat.new frame.old frame.new result }
{
    match *instr {
        Instr::Below(v, a, n) => {
            let nodes = &parts.nodes;
            frame[v as usize] = truth(is_node_below(&nodes.0, frame[a as usize], n));
        }
        Instr::Sigof(v, a) => {
            let functions = &parts.functions;
            frame[v as usize] = sig_at(&functions.0, frame[a as usize]);
        }
        Instr::Room(v, a) => {
            let functions = &parts.functions;
            let holds = has_room(&functions.0, frames, flat, frame[a as usize]);
            frame[v as usize] = truth(holds);
        }
        Instr::New(tagged, v, n, s) => {
            frame[v as usize] = new_block(flat, tagged, frame[n as usize], frame[s as usize]);
        }
        _ => return Row::Other,
    }
    Row::Done
}
