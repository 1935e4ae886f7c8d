//! The lines of the report.
#![tactic(auto)]

ghost use Rattle.std.specs.Prelude.{◌≡◌, ◌++◌, ◌∷◌, [], length, IfOk, decimal};
ghost use Rattle.cc_base.specs.Places.{place_text};
ghost use Rattle.kind_report.specs.Report.{report_of, line_of, line_by, line_text, kind_text, cause_text, AreWithin, HaveCauses};

use c_tree::Printed;
use cc_base::{Kind, NoMemory, Place};
use itoa::Buffer;
use kind_solver::{Cause, Solved};
use std::alloc::Global;

/// The text that `kinds` writes: for each printed node in turn its line, `L:C pointer KIND from L:C WHY` for a pointer
/// type and `L:C home WILD from L:C WHY` for a home that is WILD. A SAFE pointer has no cause.
pub fn report(alloc: Global, solved: &Solved, printed: &[Printed]) -> Result<Vec<u8>, NoMemory>
    requires kinds { AreWithin (length solved.now.kinds) printed.now }
    requires causes { AreWithin (length solved.now.causes) printed.now }
    requires caused { HaveCauses solved.now.kinds solved.now.causes printed.now }
    ensures text { IfOk result (λ text. text.items
        ≡ report_of solved.now.kinds solved.now.causes printed.now) }
{
    let kinds = &solved.kinds;
    let causes = &solved.causes;
    let mut text = Vec::new(alloc);
    for one in printed {
        let kind = kinds.kind_of(one.node);
        let cause = causes.cause_of(one.node);
        push_line(&mut text, *one, kind, cause)?;
    }
    Ok(text)
}

fn push_line(
    text: &mut Vec<u8>,
    printed: Printed,
    kind: Kind,
    cause: Option<Cause>,
) -> Result<(), NoMemory>
    ensures { IfOk result (λ done. text.new.items
        ≡ text.old.items ++ line_by printed.home printed kind cause) }
{
    if printed.home {
        match kind {
            Kind::Wild => push_text(text, printed.place, " home ", kind, cause),
            Kind::Safe | Kind::Seq | Kind::Rtti => Ok(()),
        }
    } else {
        push_text(text, printed.place, " pointer ", kind, cause)
    }
}

fn push_text(
    text: &mut Vec<u8>,
    place: Place,
    what: &str,
    kind: Kind,
    cause: Option<Cause>,
) -> Result<(), NoMemory>
    ensures { IfOk result (λ done. text.new.items ≡ text.old.items ++
        (place_text place ++ what.now ++ kind_text kind cause ++ 10 ∷ [])) }
{
    push_place(text, place)?;
    text.extend_from_slice(what.as_bytes())?;
    text.extend_from_slice(kind.name().as_bytes())?;
    if kind != Kind::Safe {
        push_cause(text, cause)?;
    }
    text.push(b'\n')?;
    Ok(())
}

fn push_cause(text: &mut Vec<u8>, cause: Option<Cause>) -> Result<(), NoMemory>
    ensures { IfOk result (λ done. text.new.items ≡ text.old.items ++ cause_text cause) }
{
    if let Some(cause) = cause {
        text.extend_from_slice(b" from ")?;
        push_place(text, cause.site)?;
        text.extend_from_slice(b" ")?;
        text.extend_from_slice(cause.why.name().as_bytes())?;
    }
    Ok(())
}

fn push_place(text: &mut Vec<u8>, place: Place) -> Result<(), NoMemory>
    ensures { IfOk result (λ done. text.new.items ≡ text.old.items ++ place_text place) }
{
    push_number(text, place.line)?;
    text.push(b':')?;
    push_number(text, place.col)
}

fn push_number(text: &mut Vec<u8>, n: u32) -> Result<(), NoMemory>
    ensures { IfOk result (λ done. text.new.items ≡ text.old.items ++ decimal n) }
{
    let mut digits = Buffer::new();
    text.extend_from_slice(digits.format(n).as_bytes())?;
    Ok(())
}
