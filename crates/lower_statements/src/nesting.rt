//! How statements are nested.
ghost use Rattle.std.specs.Prelude.{◌≡◌, [], suc, min};
ghost use Rattle.lower_rules.specs.Pieces.{Line, When};
ghost use Rattle.lower_exprs.specs.Drafts.{Grows};
ghost use Rattle.lower_statements.specs.Ready.{nesting_of};
ghost use Rattle.lower_statements.specs.Switches.{Nests, capped};

use lower_exprs::{Draft, keep, refuse};

/// How a statement is nested: how many blocks and loops stand between it and the one that `break` leaves, and the one that `continue`
/// leaves; and how many `switch` statements are around it.
#[derive(Clone, Copy)]
pub struct Nesting {
    pub breaks: u32,
    pub continues: u32,
    pub switches: u8,
}

/// Inside the block that the body of a loop is.
pub(crate) fn in_loop(v: Nesting) -> Nesting
    ensures { result ≡ record { breaks = 1; continues = 0; switches = v.switches } }
{
    Nesting {
        breaks: 1,
        continues: 0,
        switches: v.switches,
    }
}

/// Inside the block that a `switch` is.
#[tactic(auto, unfolding(crate::specs::Switches::capped))]
pub(crate) fn in_switch(out: &mut Draft, v: Nesting) -> Nesting
    ensures room { Grows (When (Nests (nesting_of v)) (Line []))
        (Nests (nesting_of v)) out.old out.new }
    ensures nesting { nesting_of result ≡ capped (nesting_of v) }
{
    if v.continues < u32::MAX && v.switches < u8::MAX {
        keep(out)
    } else {
        refuse(out)
    }
    Nesting {
        breaks: 0,
        continues: v.continues.saturating_add(1),
        switches: v.switches.saturating_add(1),
    }
}
