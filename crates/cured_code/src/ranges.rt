//! The ranges of all numbers of a cured program, and its limits.
ghost use Rattle.std.specs.Prelude.{◌≤◌, ◌<◌, ◌↔◌, IsTrue, All, length, sum_by, slice_get, IfSome};
ghost use Rattle.cured_code.specs.Ranges.{IsInRange, IsSigInRange, AreParentsEarlier, IsGlobalInRange, IsFunctionInRange, IsBare, IsStartBare, AreInstrsInRange, names_in, sigs_of, sigs_limit, nodes_limit, flat_globals_limit, global_bytes_limit, flat_functions_limit, locals_limit, local_bytes_limit};

use crate::naming::{Names, are_instrs_in_range};
use crate::parts::{AreaLine, Function, GlobalLine, Parts, Sig};

// How many signatures, nodes, functions and globals a program has at most, and how many bytes its globals have together.
const SIGS_LIMIT: usize = 65_536;

const NODES_LIMIT: usize = 65_536;

const FUNCTIONS_LIMIT: usize = 65_536;

const GLOBALS_LIMIT: usize = 1_048_576;

const GLOBAL_BYTES_LIMIT: u64 = 12_582_912;
// How many slots a function has, how many areas its frame has, and how many bytes each of these has.
const SLOTS_LIMIT: u32 = 2_048;

const LOCALS_LIMIT: usize = 1_048_576;

const LOCAL_BYTES_LIMIT: u64 = 3_145_728;
// How many words the parameters and the results of a function take.
const PARAMS_LIMIT: u32 = 381;

const RESULTS_LIMIT: u32 = 3;

/// Whether all numbers of a program are in range and all its limits are kept.
pub fn is_in_range(parts: &Parts) -> bool
    ensures { IsTrue result ↔ IsInRange parts.now }
{
    let sigs = &parts.sigs;
    let nodes = &parts.nodes;
    let globals = &parts.globals;
    let functions = &parts.functions;
    are_sigs_in_range(&sigs.0)
        && are_nodes_in_range(&nodes.0)
        && are_globals_in_range(&globals.0)
        && are_functions_in_range(&sigs.0, nodes.0.len(), &functions.0)
}

fn are_sigs_in_range(sigs: &[Sig]) -> bool
    ensures { IsTrue result ↔ ((length sigs.now ≤ sigs_limit) × All IsSigInRange sigs.now) }
{
    sigs.len() <= SIGS_LIMIT && sigs.iter().all(|sig| is_sig_in_range(*sig))
}

fn is_sig_in_range(sig: Sig) -> bool
    ensures { IsTrue result ↔ IsSigInRange sig }
{
    sig.params <= PARAMS_LIMIT && sig.results <= RESULTS_LIMIT
}

fn are_nodes_in_range(parents: &[u32]) -> bool
    ensures { IsTrue result ↔ ((length parents.now ≤ nodes_limit) × AreParentsEarlier parents.now) }
{
    parents.len() <= NODES_LIMIT && are_parents_earlier(parents)
}

fn are_parents_earlier(parents: &[u32]) -> bool
    ensures { IsTrue result ↔ AreParentsEarlier parents.now }
{
    for (k, parent) in parents.iter().enumerate() {
        if *parent as usize > k {
            return false;
        }
    }
    true
}

fn are_globals_in_range(globals: &[GlobalLine]) -> bool
    ensures { IsTrue result ↔ ((length globals.now ≤ flat_globals_limit)
        × All IsGlobalInRange globals.now
        × (sum_by (λ g. g.area.bytes) globals.now ≤ global_bytes_limit)) }
{
    globals.len() <= GLOBALS_LIMIT
        && globals.iter().all(|global| is_global_in_range(global))
        && are_bytes_kept(globals)
}

fn is_global_in_range(global: &GlobalLine) -> bool
    ensures { IsTrue result ↔ IsGlobalInRange global.now }
{
    let first = &global.first;
    first.0.len() as u64 <= global.area.bytes && first.0.last() != Some(&0)
}

fn are_bytes_kept(globals: &[GlobalLine]) -> bool
    ensures { IsTrue result ↔ (sum_by (λ g. g.area.bytes) globals.now ≤ global_bytes_limit) }
{
    let mut left = GLOBAL_BYTES_LIMIT;
    for global in globals {
        if global.area.bytes > left {
            return false;
        }
        left -= global.area.bytes;
    }
    true
}

fn are_functions_in_range(sigs: &[Sig], nodes: usize, functions: &[Function]) -> bool
    ensures { IsTrue result ↔ ((length functions.now ≤ flat_functions_limit)
        × All (IsFunctionInRange sigs.now (sigs_of functions.now) nodes) functions.now
        × IsStartBare sigs.now functions.now) }
{
    functions.len() <= FUNCTIONS_LIMIT
        && functions.iter().all(|function| is_function_in_range(sigs, nodes, functions, function))
        && is_start_bare(sigs, functions)
}

fn is_start_bare(sigs: &[Sig], functions: &[Function]) -> bool
    ensures { IsTrue result ↔ IsStartBare sigs.now functions.now }
{
    match functions.first() {
        None => false,
        Some(function) => match sigs.get(function.sig as usize) {
            None => true,
            Some(sig) => sig.params == 0 && sig.results == 0,
        },
    }
}

fn is_function_in_range(
    sigs: &[Sig],
    nodes: usize,
    functions: &[Function],
    function: &Function,
) -> bool
    ensures { IsTrue result ↔ IsFunctionInRange sigs.now
        (sigs_of functions.now) nodes function.now }
{
    let locals = &function.locals;
    match sigs.get(function.sig as usize) {
        None => false,
        Some(sig) => {
            sig.params <= function.slots
                && function.slots <= SLOTS_LIMIT
                && are_locals_in_range(&locals.0)
                && is_body_in_range(sigs, nodes, functions, function, sig.results)
        }
    }
}

fn are_locals_in_range(locals: &[AreaLine]) -> bool
    ensures { IsTrue result ↔ ((length locals.now ≤ locals_limit)
        × All (λ area. area.bytes ≤ local_bytes_limit) locals.now) }
{
    locals.len() <= LOCALS_LIMIT && locals.iter().all(|area| area.bytes <= LOCAL_BYTES_LIMIT)
}

/// Whether the instructions of a function that gives `results` words are in range.
fn is_body_in_range(
    sigs: &[Sig],
    nodes: usize,
    functions: &[Function],
    function: &Function,
    results: u32,
) -> bool
    ensures { IsTrue result ↔ AreInstrsInRange (names_in sigs.now
        (sigs_of functions.now) nodes function.now results) function.now.body.0.items }
{
    let locals = &function.locals;
    let names = Names {
        sigs,
        functions,
        nodes,
        slots: function.slots,
        areas: locals.0.len(),
        results,
        blocks: 0,
        nest: 0,
    };
    are_instrs_in_range(&names, &function.body.0)
}
