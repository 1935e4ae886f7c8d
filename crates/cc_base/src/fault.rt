//! Checks, rules, limits, and the faults that a text can be refused with.
#![tactic(auto)]

ghost use Rattle.std.specs.Prelude.{◌≡◌, Some};
ghost use Rattle.cc_base.specs.Names.{check_name, rule_name, limit_name};

use crate::place::Place;
use std::alloc::{AllocError, AllocFailed};
use std::fmt;
use thiserror::Error;

/// Memory was wanted and is not there.
#[derive(Clone, Copy, Debug, PartialEq, Eq, Error)]
#[error("no memory")]
pub struct NoMemory;

impl From<AllocError> for NoMemory {
    fn from(_error: AllocError) -> NoMemory {
        NoMemory
    }
}

impl<T: Drop> From<AllocFailed<T>> for NoMemory {
    fn from(_error: AllocFailed<T>) -> NoMemory {
        NoMemory
    }
}

/// The run-time checks of cured code, each named for what it stops.
#[derive(Clone, Copy, Debug, PartialEq, Eq, PartialOrd, Ord, Hash)]
pub enum Check {
    /// A use of a null pointer.
    Null,
    /// An access outside the part that a SEQ pointer was made for.
    Bounds,
    /// An access outside the object that a WILD pointer points into.
    Wbounds,
    /// A use of a pointer that was made for no object.
    Base,
    /// A move too far from the start of the object.
    Range,
    /// A word read as a pointer that holds none, or as an integer that holds a pointer.
    Tag,
    /// A pointer read or written through a WILD pointer at no multiple of 8.
    Align,
    /// A downcast to a type that the object does not have.
    Cast,
    /// The address of a variable stored where it would outlive the variable.
    Escape,
    /// A call of what is no function of the call's type.
    Fun,
    /// A comparison of pointers to different objects.
    Same,
    /// A division by zero, or of the least value by -1.
    Divide,
    /// Calls nested too deep, or frames too large.
    Depth,
}

impl Check {
    /// The name that reports write.
    pub fn name(self) -> &'static str
        ensures { result.now ≡ check_name self }
    {
        match self {
            Check::Null => "NULL",
            Check::Bounds => "BOUNDS",
            Check::Wbounds => "WBOUNDS",
            Check::Base => "BASE",
            Check::Range => "RANGE",
            Check::Tag => "TAG",
            Check::Align => "ALIGN",
            Check::Cast => "CAST",
            Check::Escape => "ESCAPE",
            Check::Fun => "FUN",
            Check::Same => "SAME",
            Check::Divide => "DIVIDE",
            Check::Depth => "DEPTH",
        }
    }
}

impl fmt::Display for Check {
    ghost output = { λ check. Some (check_name check) };

    fn fmt<W: fmt::Write>(&self, f: &mut fmt::Formatter<W>) -> fmt::Result {
        f.write_str(self.name())
    }
}

/// The rules of C, and of the subset that is accepted, that a text can break.
#[derive(Clone, Copy, Debug, PartialEq, Eq, PartialOrd, Ord, Hash)]
pub enum Rule {
    /// A byte that begins no token (C99 6.4).
    BadByte,
    /// A comment that is not closed (C99 6.4.9).
    OpenComment,
    /// A character constant or a string literal that is not closed on its line (C99 6.4.4.4, 6.4.5).
    OpenText,
    /// A number or an escape that has no value (C99 6.4.4).
    BadNumber,
    /// A token that no unit can go on with (C99 6.5 to 6.9).
    Syntax,
    /// A part of C that is left out.
    Unsupported,
    /// A name that is not declared (C99 6.5.1).
    UnknownName,
    /// A second declaration or definition that does not agree with the first (C99 6.7, 6.9).
    Redeclared,
    /// An incomplete type where a complete one is needed (C99 6.2.5).
    Incomplete,
    /// Types that do not fit (C99 6.5, 6.7, 6.8).
    Mismatch,
    /// An operand that is no place that can be written (C99 6.3.2.1).
    NotPlace,
    /// An expression that is not constant where it has to be (C99 6.6).
    NotConstant,
    /// A call of what is no function, or with a wrong number of arguments (C99 6.5.2.2).
    BadCall,
    /// No `int main(void)` is defined (C99 5.1.2.2.1).
    NoMain,
}

impl Rule {
    /// The name that reports write.
    pub fn name(self) -> &'static str
        ensures { result.now ≡ rule_name self }
    {
        match self {
            Rule::BadByte => "BadByte",
            Rule::OpenComment => "OpenComment",
            Rule::OpenText => "OpenText",
            Rule::BadNumber => "BadNumber",
            Rule::Syntax => "Syntax",
            Rule::Unsupported => "Unsupported",
            Rule::UnknownName => "UnknownName",
            Rule::Redeclared => "Redeclared",
            Rule::Incomplete => "Incomplete",
            Rule::Mismatch => "Mismatch",
            Rule::NotPlace => "NotPlace",
            Rule::NotConstant => "NotConstant",
            Rule::BadCall => "BadCall",
            Rule::NoMain => "NoMain",
        }
    }
}

impl fmt::Display for Rule {
    ghost output = { λ rule. Some (rule_name rule) };

    fn fmt<W: fmt::Write>(&self, f: &mut fmt::Formatter<W>) -> fmt::Result {
        f.write_str(self.name())
    }
}

/// The limits of a unit of C.
#[derive(Clone, Copy, Debug, PartialEq, Eq, PartialOrd, Ord, Hash)]
pub enum Limit {
    /// Nodes on a path of the unit's tree, parentheses counting: 256.
    Depth,
    /// Values held at once by one expression: 256.
    Held,
    /// Types of a unit: 16,384.
    Types,
    /// Bytes of one type: 1,048,576.
    Object,
    /// Parameters of a function: 127.
    Params,
    /// Defined functions: 65,535.
    Functions,
    /// Bytes of static objects and literals, and 16 for each: 4,194,304.
    Globals,
    /// Pointer cells moved by the struct assignments of the unit: 65,536.
    Cells,
}

impl Limit {
    /// The name that reports write.
    pub fn name(self) -> &'static str
        ensures { result.now ≡ limit_name self }
    {
        match self {
            Limit::Depth => "depth",
            Limit::Held => "held",
            Limit::Types => "types",
            Limit::Object => "object",
            Limit::Params => "params",
            Limit::Functions => "functions",
            Limit::Globals => "globals",
            Limit::Cells => "cells",
        }
    }
}

impl fmt::Display for Limit {
    ghost output = { λ limit. Some (limit_name limit) };

    fn fmt<W: fmt::Write>(&self, f: &mut fmt::Formatter<W>) -> fmt::Result {
        f.write_str(self.name())
    }
}

/// Why a text of C is not accepted.
#[derive(Clone, Copy, Debug, PartialEq, Eq, Error)]
pub enum Fault {
    /// The text breaks a rule at a place.
    #[error("refused {place} {rule}")]
    Refused { place: Place, rule: Rule },
    /// A limit is passed at a place.
    #[error("limit {place} {limit}")]
    TooLarge { place: Place, limit: Limit },
    /// Memory was wanted and is not there.
    #[error("no memory")]
    NoMemory,
}

impl From<AllocError> for Fault {
    ghost use Rattle.cc_base.specs.declared.fault.Fault.TheVariants.{NoMemory as IsNoMemory};

    ghost from_gives = { λ _ fault. fault ≡ IsNoMemory };

    fn from(_error: AllocError) -> Fault {
        Fault::NoMemory
    }
}

impl<T: Drop> From<AllocFailed<T>> for Fault {
    ghost use Rattle.cc_base.specs.declared.fault.Fault.TheVariants.{NoMemory as IsNoMemory};

    ghost from_gives = { λ _ fault. fault ≡ IsNoMemory };

    fn from(_error: AllocFailed<T>) -> Fault {
        Fault::NoMemory
    }
}

impl From<NoMemory> for Fault {
    ghost use Rattle.cc_base.specs.declared.fault.Fault.TheVariants.{NoMemory as IsNoMemory};

    ghost from_gives = { λ _ fault. fault ≡ IsNoMemory };

    fn from(_error: NoMemory) -> Fault {
        Fault::NoMemory
    }
}
