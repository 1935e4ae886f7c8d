//! What the tests share.
use crate::faults::{Failed, FileFault};
use crate::traits::{Files, Sink, Source};
use std::alloc::Global;

/// The bytes of a file, read through the trait alone.
pub(crate) fn load<F: Files>(
    files: &mut F,
    alloc: Global,
    name: &str,
    limit: u64,
) -> Result<Vec<u8>, FileFault> {
    let mut bytes = Vec::new(alloc);
    match files.read_file(name, limit, &mut bytes) {
        Ok(()) => Ok(bytes),
        Err(fault) => Err(fault),
    }
}

/// One read into four places, through the trait alone: what it answers, and the places.
pub(crate) fn read_four<S: Source>(source: &mut S) -> (Result<usize, Failed>, [u8; 4]) {
    let mut into = [0; 4];
    let answer = source.read(&mut into);
    (answer, into)
}

/// One write, through the trait alone.
pub(crate) fn put<S: Sink>(sink: &mut S, bytes: &[u8]) -> Result<(), Failed> {
    sink.write(bytes)
}
