//! The solver.
#![tactic(auto)]

ghost use Rattle.std.specs.Prelude.{◌≡◌, ◌<◌, IfOk, length};
ghost use Rattle.cc_base.specs.Kinds.{kind_at};
ghost use Rattle.cc_base.specs.declared.kind.Kind.{Kind};
ghost use Rattle.cc_base.specs.declared.kind.Kind.TheVariants.{Wild};
ghost use Rattle.kind_solver.specs.Constraints.{AreWithin, PlainApart, MeetsAll};
ghost use Rattle.kind_solver.specs.Sets.{AreKinds, AreCauses, HasLeastWild};
ghost use Rattle.kind_solver.specs.Tables.{ReadsOff};
ghost use Rattle.kind_solver.specs.Tables as table;

use crate::cause::Cause;
use crate::causes::Causes;
use crate::constraint::Constraint;
use crate::gathering::{Pass, Start};
use crate::sets::{chain_causes, need_causes, type_causes, wild_causes};
use crate::solved::Solved;
use cc_base::{Kind, Kinds, NoMemory};
use std::alloc::Global;

/// The kinds of `count` nodes under a list of constraints, and for each node that is not SAFE the
/// first site, by place and reason, that makes it what it is.
///
/// The kinds meet the list where its plain nodes stand apart, and no map that meets it has fewer
/// WILD nodes.
pub fn solve(alloc: Global, count: u32, list: &[Constraint]) -> Result<Solved, NoMemory>
    requires { AreWithin count list.now }
    ensures kinds { IfOk result (λ s. AreKinds list.now count s.kinds) }
    ensures causes { IfOk result (λ s. AreCauses list.now count s.kinds s.causes) }
    ensures meets { PlainApart list.now → IfOk result (λ s. MeetsAll (kind_at s.kinds) list.now) }
    ensures least { IfOk result (λ s. HasLeastWild list.now count s.kinds) }
{
    let first = chain_causes(alloc, count, list, Start::Sequence, Pass::Sequence)?;
    let wild = wild_causes(alloc, count, list, &first)?;
    let rises = chain_causes(alloc, count, list, Start::Rise, Pass::Rise)?;
    let needs = need_causes(alloc, count, list, &first, &wild, &rises)?;
    let types = type_causes(alloc, count, list, &needs, &wild)?;
    read_off(alloc, count, &wild, &needs, &types)
}

/// The kinds and causes by the three sets.
fn read_off(
    alloc: Global,
    count: u32,
    wild: &[Option<Cause>],
    needs: &[Option<Cause>],
    types: &[Option<Cause>],
) -> Result<Solved, NoMemory>
    requires wild { length wild.now ≡ count }
    requires needs { length needs.now ≡ count }
    requires types { length types.now ≡ count }
    ensures { IfOk result (λ s. ReadsOff wild.now needs.now types.now count s.kinds s.causes) }
{
    let mut kinds = Vec::with_capacity(alloc, count as usize)?;
    let mut causes = Vec::with_capacity(alloc, count as usize)?;
    for node in 0..count as usize {
        kinds.push(kind_from(wild[node], needs[node], types[node]))?;
        causes.push(cause_from(wild[node], needs[node], types[node]))?;
    }
    Ok(Solved {
        kinds: Kinds::of(kinds),
        causes: Causes::of(causes),
    })
}

/// The kind of a node by its causes in the three sets.
fn kind_from(wild: Option<Cause>, needs: Option<Cause>, types: Option<Cause>) -> Kind
    ensures { result ≡ table.kind_from wild needs types }
{
    match (wild, needs, types) {
        (Some(_), _, _) => Kind::Wild,
        (None, Some(_), _) => Kind::Seq,
        (None, None, Some(_)) => Kind::Rtti,
        (None, None, None) => Kind::Safe,
    }
}

/// The cause of a node by its causes in the three sets.
fn cause_from(wild: Option<Cause>, needs: Option<Cause>, types: Option<Cause>) -> Option<Cause>
    ensures { result ≡ table.cause_from wild needs types }
{
    wild.or(needs).or(types)
}
