//! What reports write of limits and of wrong lines.
ghost use Rattle.std.specs.Prelude.{◌≡◌};
ghost use Rattle.program_answers.specs.Verdicts.{cured_limit_name, cured_limit_number, form_name, limit_number};

use cc_base::Limit;
use cured_reading::{CuredLimit, Form};

/// The greatest number that a limit of a C program allows.
pub(crate) fn limit_number(limit: Limit) -> u64
    ensures { result ≡ limit_number limit }
{
    match limit {
        Limit::Depth | Limit::Held => 256,
        Limit::Types => 16_384,
        Limit::Object => 1_048_576,
        Limit::Params => 127,
        Limit::Functions => 65_535,
        Limit::Globals => 4_194_304,
        Limit::Cells => 65_536,
    }
}

/// The greatest number that a limit of a cured program allows.
pub(crate) fn cured_limit_number(limit: CuredLimit) -> u64
    ensures { result ≡ cured_limit_number limit }
{
    match limit {
        CuredLimit::Sigs | CuredLimit::Nodes | CuredLimit::Functions => 65_536,
        CuredLimit::Globals | CuredLimit::Locals => 1_048_576,
        CuredLimit::Bytes => 12_582_912,
        CuredLimit::Slots => 2_048,
        CuredLimit::LocalBytes => 3_145_728,
        CuredLimit::Nest => 1_024,
    }
}

/// The name of a limit of a cured program.
pub(crate) fn cured_limit_name(limit: CuredLimit) -> &'static str
    ensures { result.now ≡ cured_limit_name limit }
{
    match limit {
        CuredLimit::Sigs => "sigs",
        CuredLimit::Nodes => "nodes",
        CuredLimit::Globals => "globals",
        CuredLimit::Bytes => "bytes",
        CuredLimit::Functions => "functions",
        CuredLimit::Slots => "slots",
        CuredLimit::Locals | CuredLimit::LocalBytes => "locals",
        CuredLimit::Nest => "nest",
    }
}

/// What is wrong with a line.
pub(crate) fn form_name(form: Form) -> &'static str
    ensures { result.now ≡ form_name form }
{
    match form {
        Form::Syntax => "Syntax",
        Form::Version => "Version",
        Form::Range => "Range",
    }
}
