//! Rows of checks, as data: each is what a primitive asks, on the words of some slots, run on the flat machine. A row is the
//! primitive, the kind of its pointer, that of its other one, a number (a size in bytes, or a signature's or a type node's),
//! and the words of slots 0 to 5: a number, `own` for the address of an object of the call, `outer` for that of one of its
//! caller. For each row the row itself and how the run ends are written. Other lines are written as they are.
//!
//! The program of a row has tagged globals of 0, 3, 4, 8 and 24 bytes at 24, 32, 64, 96 and 128. In the last one the first
//! word holds a pointer to an object of the call, the second an integer, the third 0. Type node 3 lies below node 2, and
//! nodes 2 and 4 below node 1.
#![tactic(auto)]

mod program;
mod row;

use crate::program::run;
use crate::row::row_of;
use cured_machine::Ending;
use std::io::{Read, Write};

fn main(rt: HostRuntime) -> anyhow::Result<()> {
    let alloc = rt.alloc();
    let mut input = Vec::new(alloc);
    rt.stdin().read_to_end(&mut input)?;
    let mut out = rt.stdout();
    for line in str::from_utf8(&input)?.lines() {
        match row_of(alloc, line)? {
            None => writeln!(out, "{line}")?,
            Some(row) => match run(alloc, &row)? {
                None => writeln!(out, "{line} -> not in range")?,
                Some(Ending::Exited(_)) => writeln!(out, "{line} -> passes")?,
                Some(Ending::Stopped(check, place)) => writeln!(out, "{line} -> {check} {place}")?,
                Some(Ending::Trap(_)) => writeln!(out, "{line} -> traps")?,
                Some(_) => writeln!(out, "{line} -> something else")?,
            },
        }
    }
    Ok(())
}
