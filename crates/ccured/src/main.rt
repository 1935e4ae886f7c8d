//! The program `ccured`: `main` hands the words, the files and the standard streams to the top call, and ends with its
//! answer.
#![tactic(auto)]

use cc_io::{DiskFiles, StdSink, StdSource};
use program_top::ccured;
use smallvec::SmallVec;
use std::env;
use std::process::ExitCode;

/// The status where the words could not be gathered for want of memory. Nothing is written then.
const NO_MEMORY: u8 = 9;

/// How many words are kept without taking memory for their list.
const FEW: usize = 4;

fn main(rt: HostRuntime) -> ExitCode {
    let Some(words) = words(&rt) else {
        return ExitCode::from(NO_MEMORY);
    };
    let alloc = rt.alloc();
    let mut input = StdSource::new(rt.stdin());
    let mut out = StdSink::new(rt.stdout());
    let mut report = StdSink::new(rt.stderr());
    let mut files = DiskFiles::new(alloc, rt);
    ExitCode::from(ccured(
        alloc,
        words.as_slice(),
        &mut files,
        &mut input,
        &mut out,
        &mut report,
    ))
}

/// The words after the program's name, or None where they could not be had.
fn words(rt: &HostRuntime) -> Option<SmallVec<String, FEW>> {
    let mut words = SmallVec::new(rt.alloc());
    for word in env::args(rt).ok()?.skip(1) {
        words.push(word).ok()?;
    }
    Some(words)
}
