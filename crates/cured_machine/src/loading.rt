//! The machine's memory before it runs: the byte list with the globals, and the areas of each function's frame.
ghost use Rattle.std.specs.Prelude.{◌≡◌, ◌<◌, ◌≤◌, ◌+◌, ◌*◌, ◌^◌, All, IfOk, length, map, sum_by};
ghost use Rattle.flat_mem.specs.Bytes.{written};
ghost use Rattle.flat_mem.specs.Placement.{areas_size};
ghost use Rattle.flat_mem.specs.Memory.{first_memory, with_bytes};
ghost use Rattle.cured_code.specs.FlatMachine.{area_of, areas_of, global_areas, globals_written, loaded_memory};
ghost use Rattle.cured_code.specs.Ranges.{IsGlobalInRange, IsInRange, flat_functions_limit, flat_globals_limit, global_bytes_limit};
ghost use Rattle.cured_machine.specs.Loading.{plan_for};
ghost use Rattle.cured_machine.specs.Ready.{frame_areas};

use cured_code::{AreaLine, Function, GlobalLine, Parts};
use flat_mem::{Area, AreaList, Flat, FramePlan, Plan, area_size};
use std::alloc::{AllocError, Global};

/// What the frames of a program may be charged together, in bytes.
const FRAMES_CHARGE_LIMIT: u64 = 1_048_576;

/// What the blocks of a program may be charged together, in bytes.
const BLOCKS_CHARGE_LIMIT: u64 = 4_194_304;

/// Each function's frame, laid out.
pub(crate) fn frames_of(alloc: Global, functions: &[Function]) -> Result<Vec<FramePlan>, AllocError>
    ensures { IfOk result (λ frames. frames.items ≡ map frame_areas functions.now) }
{
    let mut frames = Vec::with_capacity(alloc, functions.len())?;
    for function in functions {
        let locals = &function.locals;
        frames.push_reserved(FramePlan::of(alloc, areas_of(alloc, &locals.0)?)?);
    }
    Ok(frames)
}

/// The areas that the lines tell.
fn areas_of(alloc: Global, lines: &[AreaLine]) -> Result<Vec<Area>, AllocError>
    ensures { IfOk result (λ areas. areas.items ≡ areas_of lines.now) }
{
    lines.iter().map(|line| area_of(*line)).collect(alloc)
}

fn area_of(line: AreaLine) -> Area
    ensures { result ≡ area_of line }
{
    Area {
        tagged: line.tagged,
        bytes: line.bytes,
    }
}

/// The most slots that one of the functions has.
pub(crate) fn widest(functions: &[Function]) -> u32
    ensures { All (λ f. f.slots ≤ result) functions.now }
{
    let mut most = 0;
    for function in functions {
        most = most.max(function.slots);
    }
    most
}

/// The memory at the start, with the first bytes of each global.
pub(crate) fn load_parts(alloc: Global, parts: &Parts) -> Result<Flat, AllocError>
    requires { IsInRange parts.now }
    ensures { IfOk result (λ flat. flat ≡ loaded_memory parts.now) }
{
    let functions = &parts.functions;
    let globals = &parts.globals;
    load(alloc, &functions.0, &globals.0)
}

/// The memory at the start for these functions and globals.
fn load(alloc: Global, functions: &[Function], globals: &[GlobalLine]) -> Result<Flat, AllocError>
    requires functions { length functions.now ≤ flat_functions_limit }
    requires globals { length globals.now ≤ flat_globals_limit }
    requires bytes { sum_by (λ g. g.area.bytes) globals.now ≤ global_bytes_limit }
    requires within { All IsGlobalInRange globals.now }
    ensures { IfOk result (λ flat. let memory = first_memory (plan_for functions.now globals.now) in
        flat ≡ with_bytes memory
        (globals_written globals.now (8 * length functions.now) memory.bytes)) }
{
    let plan = plan(alloc, functions, globals)?;
    let mut flat = Flat::new(alloc, &plan)?;
    write_globals(&mut flat, globals, 8 * functions.len() as u64);
    Ok(flat)
}

/// How the memory is laid out.
#[tactic(auto, unfolding(cured_code::specs::FlatMachine::frames_charge_limit, cured_code::specs::FlatMachine::blocks_charge_limit))]
fn plan(alloc: Global, functions: &[Function], globals: &[GlobalLine]) -> Result<Plan, AllocError>
    requires { length functions.now ≤ flat_functions_limit }
    ensures { IfOk result (λ plan. plan ≡ plan_for functions.now globals.now) }
{
    let areas = areas_of_globals(alloc, globals)?;
    Ok(Plan {
        functions: functions.len() as u32,
        globals: AreaList::of(areas),
        stack: FRAMES_CHARGE_LIMIT,
        heap: BLOCKS_CHARGE_LIMIT,
    })
}

/// The areas of globals.
fn areas_of_globals(alloc: Global, globals: &[GlobalLine]) -> Result<Vec<Area>, AllocError>
    ensures { IfOk result (λ areas. areas.items ≡ global_areas globals.now) }
{
    globals
        .iter()
        .map(|global| area_of(global.area))
        .collect(alloc)
}

/// Writes the first bytes of globals whose areas lie one after another from `start` on.
fn write_globals(flat: &mut Flat, globals: &[GlobalLine], start: u64)
    requires room { start + areas_size (global_areas globals.now) ≤ length flat.old.bytes }
    requires small { length flat.old.bytes < 2 ^ 32 }
    requires within { All IsGlobalInRange globals.now }
    ensures { flat.new ≡ with_bytes flat.old (globals_written globals.now start flat.old.bytes) }
{
    let mut at = start;
    for global in globals {
        let first = &global.first;
        write_bytes(flat, at + 8, &first.0);
        at += area_size(area_of(global.area));
    }
}

/// Writes bytes from `at` on.
fn write_bytes(flat: &mut Flat, at: u64, bytes: &[u8])
    requires room { at + length bytes.now ≤ length flat.old.bytes }
    requires small { length flat.old.bytes < 2 ^ 32 }
    ensures { flat.new ≡ with_bytes flat.old (written bytes.now flat.old.bytes at) }
{
    for (offset, byte) in bytes.iter().enumerate() {
        flat.store(at + offset as u64, 1, u64::from(*byte));
    }
}
