//! The next byte of the input.
ghost use Rattle.std.specs.Prelude.{◌≤◌, IfOk, OnErr};
ghost use Rattle.cc_io.specs.Faults.{Rose};
ghost use Rattle.cured_machine.specs.Reading.{HasRead, HasFailed};

use cc_io::{Failed, Source};

/// The next byte, or the greatest word at the input's end, after which nothing more is read.
#[inline(never)]
pub(crate) fn next_byte<I: Source>(input: &mut I, ended: &mut bool) -> Result<u64, Failed>
    ensures read { IfOk result (λ word. HasRead (I.held input.old)
        (I.held input.new) ended.old ended.new word) }
    ensures failed { OnErr result (HasFailed (I.held input.old)
        (I.held input.new) ended.old ended.new) }
    ensures rose { OnErr result (Rose (I.faults input.old) (I.faults input.new)) }
    ensures later { I.faults input.old ≤ I.faults input.new }
{
    if *ended {
        return Ok(u64::MAX);
    }
    let mut byte = [0];
    match input.read(&mut byte) {
        Err(failed) => Err(failed),
        Ok(count) => {
            if count == 0 {
                *ended = true;
                Ok(u64::MAX)
            } else {
                Ok(u64::from(byte[0]))
            }
        }
    }
}
