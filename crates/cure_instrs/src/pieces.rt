//! Rows of instructions.
ghost use Rattle.std.specs.Prelude.{◌≡◌, ◌+◌, ◌≤◌, [], ◌∷◌};
ghost use Rattle.cured_code.specs.declared.instr.Instr.TheVariants as instr;
ghost use Rattle.cure_rules.specs.Known.{copies, noughts, narrow_of, narrowing_lines, narrowed_lines};
ghost use Rattle.sim_relation.specs.Ground.{word_number};
ghost use Rattle.check_forms.specs.Pieces.{Line};
ghost use Rattle.check_insert.specs.Drafts.{Grows};
ghost use Rattle.cure_instrs.specs.Lines.{width_view};

use crate::held::{Width, narrow_of};
use cc_base::Kind;
use check_insert::{Draft, keep, put};
use cured_code::Instr;

/// Two instructions.
#[tactic(auto, using(crate::proofs::PieceLaws::line_more))]
pub fn put_two(out: &mut Draft, one: Instr, two: Instr)
    ensures { Grows (Line (one ∷ two ∷ [])) (Unit {0}) out.old out.new }
{
    put(out, one);
    put(out, two)
}

/// Three instructions.
#[tactic(auto, using(crate::proofs::PieceLaws::line_more))]
pub fn put_three(out: &mut Draft, one: Instr, two: Instr, three: Instr)
    ensures { Grows (Line (one ∷ two ∷ three ∷ [])) (Unit {0}) out.old out.new }
{
    put(out, one);
    put_two(out, two, three)
}

/// The words of a pointer of a kind are copied.
pub fn put_copies(out: &mut Draft, count: u32, v: u32, a: u32)
    requires to { v + 3 ≤ 1948 }
    requires from { a + 3 ≤ 1948 }
    requires few { count ≤ 3 }
    ensures { Grows (Line (copies count v a)) (Unit {0}) out.old out.new }
{
    match count {
        0 => keep(out),
        1 => put(out, Instr::Copy(v, a)),
        2 => put_two(out, Instr::Copy(v, a), Instr::Copy(v + 1, a + 1)),
        _ => put_three(
            out,
            Instr::Copy(v, a),
            Instr::Copy(v + 1, a + 1),
            Instr::Copy(v + 2, a + 2),
        ),
    }
}

/// The words of a pointer of a kind become 0.
pub fn put_noughts(out: &mut Draft, kind: Kind, v: u32)
    requires { v + 3 ≤ 1948 }
    ensures { Grows (Line (noughts (word_number kind) v)) (Unit {0}) out.old out.new }
{
    match kind {
        Kind::Safe => put(out, Instr::Const(v, 0)),
        Kind::Rtti | Kind::Wild => put_two(out, Instr::Const(v, 0), Instr::Const(v + 1, 0)),
        Kind::Seq => put_three(
            out,
            Instr::Const(v, 0),
            Instr::Const(v + 1, 0),
            Instr::Const(v + 2, 0),
        ),
    }
}

/// A slot is narrowed to an integer of the type.
pub fn put_narrowing(out: &mut Draft, v: u32, i: Width)
    ensures { Grows (Line (narrowing_lines v (narrow_of (width_view i))))
        (Unit {0}) out.old out.new }
{
    match narrow_of(i) {
        None => keep(out),
        Some(part) => put(out, Instr::Ext(v, v, part)),
    }
}
