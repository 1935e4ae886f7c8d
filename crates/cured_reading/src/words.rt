//! Fields that are words.
ghost use Rattle.std.specs.Prelude.{◌≡◌, ◌≢◌, All, Bool, IfSome, IfNone};
ghost use Rattle.cc_base.specs.Names.{check_name};
ghost use Rattle.cured_spelling.specs.Lines.{form_text, tag_text};
ghost use Rattle.cured_reading.specs.Operations.{operation_name};

use crate::operation::{OPERATIONS, Operation};
use cc_base::Check;
use cured_code::Narrow;
use cured_spelling::{form_name, tag_letter};

const FORMS: [Narrow; 6] = [
    Narrow::S8,
    Narrow::S16,
    Narrow::S32,
    Narrow::U8,
    Narrow::U16,
    Narrow::U32,
];

const CHECKS: [Check; 13] = [
    Check::Null,
    Check::Bounds,
    Check::Wbounds,
    Check::Base,
    Check::Range,
    Check::Tag,
    Check::Align,
    Check::Cast,
    Check::Escape,
    Check::Fun,
    Check::Same,
    Check::Divide,
    Check::Depth,
];

/// The part of a word that has this name.
pub(crate) fn form_of(name: &[u8]) -> Option<Narrow>
    ensures found { IfSome result (λ form. form_text form ≡ name.now) }
    ensures none { IfNone result (All (λ form. form_text form ≢ name.now) FORMS) }
{
    FORMS.iter().copied().find(|form| form_name(*form) == name)
}

/// The check that has this name.
pub(crate) fn check_of(name: &[u8]) -> Option<Check>
    ensures found { IfSome result (λ check. check_name check ≡ name.now) }
    ensures none { IfNone result (All (λ check. check_name check ≢ name.now) CHECKS) }
{
    check_among(&CHECKS, name)
}

/// That of these which has this name.
fn check_among(checks: &[Check], name: &[u8]) -> Option<Check>
    ensures found { IfSome result (λ check. check_name check ≡ name.now) }
    ensures none { IfNone result (All (λ check. check_name check ≢ name.now) checks.now) }
{
    checks
        .iter()
        .copied()
        .find(|check| check.name().as_bytes() == name)
}

/// Whether an area of this letter is tagged.
pub(crate) fn tag_of(letter: &[u8]) -> Option<bool>
    ensures found { IfSome result (λ tagged. tag_text tagged ≡ letter.now) }
    ensures none { IfNone result ((tagged : Bool) → tag_text tagged ≢ letter.now) }
{
    [true, false]
        .iter()
        .copied()
        .find(|tagged| tag_letter(*tagged) == letter)
}

/// The operation that has this name.
pub(crate) fn operation_of(name: &[u8]) -> Option<Operation>
    ensures found { IfSome result (λ operation. operation_name operation ≡ name.now) }
    ensures none { IfNone result (All (λ operation. operation_name operation ≢ name.now)
        OPERATIONS) }
{
    operation_among(&OPERATIONS, name)
}

/// That of these which has this name.
fn operation_among(operations: &[Operation], name: &[u8]) -> Option<Operation>
    ensures found { IfSome result (λ operation. operation_name operation ≡ name.now) }
    ensures none { IfNone result (All (λ operation. operation_name operation ≢ name.now)
        operations.now) }
{
    operations
        .iter()
        .copied()
        .find(|operation| operation.name() == name)
}
