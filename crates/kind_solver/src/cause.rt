//! Why a node is of its kind, and which of two causes is the first.
#![tactic(auto)]

ghost use Rattle.std.specs.Prelude.{◌≡◌, ◌<◌, ◌↔◌, IsTrue};
ghost use Rattle.kind_solver.specs.Order.{why_order, ComesBefore, rank, late};

use crate::constraint::Why;
use cc_base::Place;

/// The site that made a node what it is.
#[derive(Clone, Copy, Debug, PartialEq, Eq, Hash)]
pub struct Cause {
    pub site: Place,
    pub why: Why,
}

/// Whether a cause comes before another: by line, then by column, then by reason.
fn comes_before(cause: Cause, other: Cause) -> bool
    ensures before { IsTrue result ↔ ComesBefore cause other }
    ensures ranked { IsTrue result ↔ (rank cause < rank other) }
{
    cause.site.is_before(other.site)
        || (cause.site == other.site && order_of(cause.why) < order_of(other.why))
}

/// The place of a reason among the reasons.
fn order_of(why: Why) -> u8
    ensures { result ≡ why_order why }
{
    match why {
        Why::Arith => 0,
        Why::Integer => 1,
        Why::Down => 2,
        Why::Tile => 3,
        Why::Bad => 4,
        Why::Union => 5,
    }
}

/// Whether an entry comes before another, no cause being later than every cause.
pub fn is_earlier(entry: Option<Cause>, other: Option<Cause>) -> bool
    ensures { IsTrue result ↔ (late entry < late other) }
{
    match (entry, other) {
        (Some(cause), Some(other)) => comes_before(cause, other),
        (Some(_), None) => true,
        (None, _) => false,
    }
}
