//! How many pointer types of a text are of each kind.
#![tactic(auto)]

ghost use Rattle.std.specs.Prelude.{◌≡◌, ◌<◌, length, IsTrue, ◌↔◌, true};
ghost use Rattle.cc_base.specs.declared.kind.Kind.TheVariants.{Safe, Seq, Rtti, Wild};
ghost use Rattle.kind_report.specs.Report.{pointers_of, is_pointer_of, AreWithin};

use c_tree::Printed;
use cc_base::{Kind, Kinds};

/// The numbers of pointer types of each kind, variables' homes left aside.
#[derive(Clone, Copy, Debug, PartialEq, Eq)]
pub struct PointerCounts {
    pub safe: usize,
    pub seq: usize,
    pub rtti: usize,
    pub wild: usize,
}

/// Counts the pointer types of a text by their kinds. Takes no memory.
pub fn count_pointers(kinds: &Kinds, printed: &[Printed]) -> PointerCounts
    requires kinds { AreWithin (length kinds.now) printed.now }
    ensures safe { result.safe ≡ pointers_of kinds.now Safe printed.now }
    ensures seq { result.seq ≡ pointers_of kinds.now Seq printed.now }
    ensures rtti { result.rtti ≡ pointers_of kinds.now Rtti printed.now }
    ensures wild { result.wild ≡ pointers_of kinds.now Wild printed.now }
{
    PointerCounts {
        safe: count(kinds, Kind::Safe, printed),
        seq: count(kinds, Kind::Seq, printed),
        rtti: count(kinds, Kind::Rtti, printed),
        wild: count(kinds, Kind::Wild, printed),
    }
}

fn count(kinds: &Kinds, kind: Kind, printed: &[Printed]) -> usize
    requires { AreWithin (length kinds.now) printed.now }
    ensures { result ≡ pointers_of kinds.now kind printed.now }
{
    let mut found = 0;
    for one in printed {
        if is_pointer_of(kinds, kind, *one) {
            found += 1;
        }
    }
    found
}

fn is_pointer_of(kinds: &Kinds, kind: Kind, one: Printed) -> bool
    requires { one.node.0 < length kinds.now }
    ensures { result ≡ is_pointer_of kinds.now kind one }
{
    !one.home && kinds.kind_of(one.node) == kind
}
