//! The text of a file.
ghost use Rattle.std.specs.Prelude.{◌≡◌, ◌≤◌, ◌<◌, Some, length, vec_len, IfOk, IfSome, IsErrOf};
ghost use Rattle.cc_io.specs.Faults.{Rose};
ghost use Rattle.program_answers.specs.Texts.{cured_text_limit, limit_of, text_limit};

use cc_io::{FileFault, Files};
use command_words::Action;
use std::alloc::Global;

/// The most bytes of a text with which this is to be done.
#[tactic(auto, unfolding(program_answers::specs::Texts::text_limit, program_answers::specs::Texts::cured_text_limit))]
pub(crate) fn limit_of(action: Action) -> u64
    ensures { result ≡ limit_of action }
{
    match action {
        Action::Kinds | Action::Cure | Action::Run(_) => 1_048_576,
        Action::Exec(_) => 134_217_728,
    }
}

/// The text of the file of a name.
pub(crate) fn read_text<F: Files>(
    alloc: Global,
    name: &str,
    limit: u64,
    files: &mut F,
) -> Result<Vec<u8>, FileFault>
    ensures told { IfOk result (λ text. IfSome (F.holds files.old name.now)
        (λ bytes. text.items ≡ bytes)) }
    ensures within_limit { IfOk result (λ text. vec_len text ≤ limit) }
    ensures too_large { IsErrOf result FileFault.TooLarge → IfSome (F.holds files.old name.now)
        (λ bytes. limit < length bytes) }
    ensures failed { IsErrOf result FileFault.Failed
        → Rose (F.faults files.old) (F.faults files.new) }
    ensures last { IsErrOf result FileFault.Failed → F.last files.new ≡ Some name.now }
{
    let mut text = Vec::new(alloc);
    if let Err(fault) = files.read_file(name, limit, &mut text) {
        return Err(fault);
    }
    Ok(text)
}
