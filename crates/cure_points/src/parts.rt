//! The cured code of addresses of parts.
ghost use Rattle.std.specs.Prelude.{◌≡◌, ◌+◌, ◌≤◌, [], ◌∷◌, Some, None, IfSome, IfNone};
ghost use Rattle.cured_code.specs.declared.instr.Instr.TheVariants as instr;
ghost use Rattle.check_forms.specs.Pieces.{Line};
ghost use Rattle.check_insert.specs.Drafts.{Grows};
ghost use Rattle.c_types.specs.Cells.{IsBetweenPointers};
ghost use Rattle.c_types.specs.Equality.{cells_of};
ghost use Rattle.c_types.specs.Layouts.{offset_of};
ghost use Rattle.cure_rules.specs.Known.{cured_size};
ghost use Rattle.cure_rules.specs.Pointing.{cured_offset};
ghost use Rattle.cure_scope.specs.Scopes.{whole_of, world_of};
ghost use Rattle.cure_points.specs.Lines.{part_row, part_operation, PartOf};

use c_types::TypeShape;
use cc_base::{Kind, Place, TypeId};
use check_forms::{Fixed, Op, Reach};
use check_insert::{Draft, put};
use cure_instrs::{put_three, put_two, size_at, wild_numbers};
use cure_scope::{LEAST, OFFSET, SIZE, SPAN, Scope, pointer_slots, put_guarded};
use cured_code::Instr;

/// The number of the type node of a type.
fn node_number(k: &Scope<'_>, t: TypeId) -> u64
    ensures { result ≡ (world_of k.now).whole.node t }
{
    match k.nodes.get(t.0 as usize) {
        Some(node) => u64::from(*node),
        None => 0,
    }
}

/// A part: its bytes, its type, and the kind of its address.
#[derive(Clone, Copy)]
pub struct Part {
    pub kind: Kind,
    pub size: u64,
    pub ty: TypeId,
}

/// The words of the address of a part, from slot v on, where it begins where slots a and o say.
#[tactic(auto, using(cure_instrs::proofs::PieceLaws::line_more))]
pub fn put_part(out: &mut Draft, k: &Scope<'_>, part: Part, v: u32, a: u32, o: u32)
    requires to { v + 3 ≤ 1948 }
    requires from { a + 3 ≤ 1948 }
    ensures { Grows (Line (part_row part.kind (world_of k.now) part.size part.ty v a o))
        (Unit {0}) out.old out.new }
{
    let one = Instr::Add(v, a, o);
    match part.kind {
        Kind::Safe => put(out, one),
        Kind::Rtti => put_two(out, one, Instr::Const(v + 1, node_number(k, part.ty))),
        Kind::Seq => {
            put(out, Instr::Const(SIZE, part.size));
            put_three(out, one, Instr::Copy(v + 1, v), Instr::Add(v + 2, v, SIZE))
        }
        Kind::Wild => put_two(out, one, Instr::Copy(v + 1, a + 1)),
    }
}

/// What is asked for the address of a part of an object of a type.
fn part_operation(k: &Scope<'_>, outer: Kind, of: TypeId, a: u32) -> Op
    requires { a + 3 ≤ 1948 }
    ensures { result ≡ part_operation (world_of k.now) outer of a }
{
    let least = match outer {
        Kind::Wild => 1099511627776,
        Kind::Safe | Kind::Seq | Kind::Rtti => 2147483648,
    };
    let span = match outer {
        Kind::Wild => 2199023255553,
        Kind::Safe | Kind::Seq | Kind::Rtti => 4294967297,
    };
    Op::Member {
        p: pointer_slots(a),
        size: size_at(k, outer, of),
        numbers: wild_numbers(k),
        offset: OFFSET,
        reach: Reach {
            least: Fixed {
                slot: LEAST,
                value: least,
            },
            span: Fixed {
                slot: SPAN,
                value: span,
            },
        },
    }
}

/// Where a part is taken from: the kind of the address in slot a, and the type of what is there.
#[derive(Clone, Copy)]
pub struct Outer {
    pub kind: Kind,
    pub ty: TypeId,
    pub a: u32,
}

/// The address of a part, behind its check.
pub fn put_part_of(
    out: &mut Draft,
    k: &Scope<'_>,
    from: Outer,
    part: Part,
    ov: (u64, u32),
    at: Place,
)
    requires to { ov.1 + 3 ≤ 1948 }
    requires from { from.a + 3 ≤ 1948 }
    ensures { Grows (PartOf (world_of k.now) from.kind from.ty part.kind part.size part.ty ov.0 ov.1
        from.a at) (Unit {0}) out.old out.new }
{
    let (offset, v) = ov;
    put(out, Instr::Const(OFFSET, offset));
    put_guarded(
        out,
        part_operation(k, from.kind, from.ty, from.a),
        from.kind,
        at,
    );
    put_part(out, k, part, v, from.a, OFFSET)
}
