//! The program of a row, and its run.
use crate::row::{Row, Word, reach};
use cc_base::Place;
use cc_io::{MemSink, MemSource};
use check_forms::Work;
use check_insert::{Draft, put, put_checks};
use cured_code::{
    AreaLine, Bytes, Code, Cured, Function, Functions, GlobalLine, Globals, Instr, Locals, Parents,
    Parts, Sig, Sigs,
};
use cured_machine::{Ending, Machine};
use std::alloc::{AllocError, Global};

const WORK: Work = Work {
    x: 16,
    y: 17,
    z: 18,
    to: 19,
    none: 20,
};

/// The slots of an object of the call, and of one of its caller.
const OWN: u32 = 14;

const OUTER: u32 = 15;

const AT: Place = Place { line: 1, col: 1 };

/// The instructions that put the words of a row and the numbers of its checks into their slots.
fn put_words(out: &mut Draft, row: &Row) {
    put(out, Instr::Copy(OUTER, 0));
    put(out, Instr::Frame(OWN, 0));
    put_tagged(out);
    let reach = reach(row.number);
    let numbers = [
        (6, row.number),
        (7, 7),
        (8, 8),
        (9, 16),
        (10, reach.least.value),
        (11, reach.span.value),
        (12, 0xFFFF_FFFF_8000_0000),
        (13, u64::MAX),
    ];
    for (slot, value) in numbers {
        put(out, Instr::Const(slot, value));
    }
    let mut slot: u32 = 0;
    for word in row.words.iter().take(6) {
        match *word {
            Word::Number(n) => put(out, Instr::Const(slot, n)),
            Word::Own => put(out, Instr::Copy(slot, OWN)),
            Word::Outer => put(out, Instr::Copy(slot, OUTER)),
        }
        slot = slot.wrapping_add(1);
    }
}

/// The instructions that put a pointer and an integer into the last global.
fn put_tagged(out: &mut Draft) {
    put(out, Instr::Const(0, 128));
    put(out, Instr::St(8, 0, OWN));
    put(out, Instr::Mark(0, 0, OWN));
    put(out, Instr::Const(1, 136));
    put(out, Instr::St(8, 1, 0));
}

/// A function with one object of 8 bytes.
fn function(alloc: Global, sig: u32, body: Vec<Instr>) -> Result<Function, AllocError> {
    let area = AreaLine {
        tagged: false,
        bytes: 8,
    };
    Ok(Function {
        sig,
        slots: 21,
        charge: 24,
        locals: Locals(vec![in alloc; area]?),
        body: Code(body),
    })
}

/// A tagged global of so many bytes.
fn global(alloc: Global, bytes: u64) -> GlobalLine {
    GlobalLine {
        area: AreaLine {
            tagged: true,
            bytes,
        },
        first: Bytes(Vec::new(alloc)),
    }
}

/// The program with this body of the function that is called.
fn program(alloc: Global, body: Vec<Instr>) -> Result<Parts, AllocError> {
    let start = vec![in alloc; Instr::Frame(0, 0), Instr::Call(1, 0, 1), Instr::Exit(0)]?;
    let none = Sig {
        params: 0,
        results: 0,
    };
    let one = Sig {
        params: 1,
        results: 0,
    };
    let globals = vec![in alloc;
        global(alloc, 0),
        global(alloc, 3),
        global(alloc, 4),
        global(alloc, 8),
        global(alloc, 24),
    ]?;
    let functions = vec![in alloc; function(alloc, 0, start)?, function(alloc, 1, body)?]?;
    Ok(Parts {
        sigs: Sigs(vec![in alloc; none, one]?),
        nodes: Parents(vec![in alloc; 0, 1, 2, 1]?),
        globals: Globals(globals),
        functions: Functions(functions),
    })
}

/// How the run of a row's checks ends.
pub(crate) fn run(alloc: Global, row: &Row) -> anyhow::Result<Option<Ending>> {
    let mut draft = Draft {
        alloc,
        items: Vec::new(alloc),
        fine: true,
        ready: true,
    };
    put_words(&mut draft, row);
    put_checks(&mut draft, WORK, row.op, row.kind, AT);
    put(&mut draft, Instr::Exit(20));
    if !draft.fine {
        return Ok(None);
    }
    let Some(code) = Cured::new(program(alloc, draft.items)?) else {
        return Ok(None);
    };
    let machine = Machine::new(alloc, &code)?;
    let mut source = MemSource::new(Vec::new(alloc), 1, Vec::new(alloc));
    let mut sink = MemSink::new(Vec::with_capacity(alloc, 8)?, Vec::new(alloc));
    Ok(Some(machine.run(1_000, &mut source, &mut sink)))
}
