//! Making a machine: all memory of a run is taken here.
ghost use Rattle.std.specs.Prelude.{◌≡◌, IfOk};

use crate::laying::{Laid, lay_out};
use crate::loading::{frames_of, load_parts, widest};
use crate::machine::Machine;
use cc_base::NoMemory;
use cured_code::Cured;
use std::alloc::Global;

/// How many functions may be live at a time: function 0 as the program starts, and those entered after it.
const LIVE_LIMIT: usize = 1_024;

impl<'a> Machine<'a> {
    /// The machine at the start of the program's meaning. It lays out the code, and reserves the flat memory and the slots: a
    /// run takes no memory.
    ///
    /// Fails only for want of memory.
    #[tactic(auto, unfolding(crate::specs::Ready::live_limit))]
    pub fn new(alloc: Global, code: &'a Cured) -> Result<Machine<'a>, NoMemory>
        ensures { IfOk result (λ machine. machine ≡ code.now) }
    {
        let parts = code.parts();
        let functions = &parts.functions;
        let width = widest(&functions.0);
        let Laid { operations, starts } = lay_out(alloc, parts)?;
        Ok(Machine {
            parts,
            operations,
            starts,
            flat: load_parts(alloc, parts)?,
            frames: frames_of(alloc, &functions.0)?,
            slots: vec![in alloc; 0; LIVE_LIMIT * width as usize]?,
            callers: Vec::with_capacity(alloc, LIVE_LIMIT)?,
        })
    }
}
