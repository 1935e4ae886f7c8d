//! The cured code of constants and copies.
ghost use Rattle.std.specs.Prelude.{◌≡◌, ◌+◌, ◌≤◌, [], ◌∷◌, Some, None};
ghost use Rattle.integers.specs.Words.{word};
ghost use Rattle.cured_code.specs.declared.instr.Instr.TheVariants as instr;
ghost use Rattle.check_forms.specs.Pieces.{Line};
ghost use Rattle.check_insert.specs.Drafts.{Grows};
ghost use Rattle.sim_relation.specs.Ground.{function_word};
ghost use Rattle.cil_form.specs.Typing.{Typing};
ghost use Rattle.c_types.specs.Table.{shape_at};
ghost use Rattle.c_types.specs.declared.shape.TypeShape.TheVariants as shape;
ghost use Rattle.cure_scope.specs.Scopes.{fixed_column, whole_of, world_of};
ghost use Rattle.cure_instrs.specs.Lines.{function_row, object_row, start_line, held_views, copied_lines};
ghost use Rattle.cure_instrs.specs.Cured.{SetCured, CanSet, IsCopied, IsHome, node_at};

use crate::held::{Held, held_words};
use crate::pieces::{put_copies, put_noughts, put_two};
use c_types::TypeShape;
use cc_base::{Kind, NodeId, TypeId};
use check_insert::{Draft, keep, put, refuse};
use cil_form::{FunctionNumber, Object, Set, Temp};
use cure_scope::{Scope, column};
use cured_code::Instr;

/// The word of an integer.
fn word(value: i128) -> u64
    ensures { result ≡ word value }
{
    if value < 0 {
        u64::MAX - ((-1 - value) % 18446744073709551616) as u64
    } else {
        (value % 18446744073709551616) as u64
    }
}

/// The node of a pointer type; of another type node 0.
pub fn node_of(k: &Scope<'_>, t: TypeId) -> NodeId
    ensures { result ≡ node_at (shape_at k.now.layouts.now.table t) }
{
    let types = k.layouts.types();
    if t.0 < types.count() {
        match types.shape(t) {
            TypeShape::Pointer(node, _) => *node,
            _ => NodeId(0),
        }
    } else {
        NodeId(0)
    }
}

/// The address of a function, by the kind of the pointer.
#[tactic(auto, using(check_insert::proofs::Laws::grows_failed))]
fn put_function(out: &mut Draft, kind: Kind, v: u32, function: FunctionNumber)
    requires { v + 3 ≤ 1948 }
    ensures { Grows (function_row kind v (function_word function.0)) (IsHome kind) out.old out.new }
{
    let n = 8 * (u64::from(function.0) + 2);
    match kind {
        Kind::Safe => put(out, Instr::Const(v, n)),
        Kind::Wild => put_two(out, Instr::Const(v, n), Instr::Const(v + 1, n)),
        Kind::Seq => refuse(out),
        Kind::Rtti => refuse(out),
    }
}

/// The line that sets a slot to the address of an object.
pub fn start_line(k: &Scope<'_>, object: Object, v: u32) -> Instr
    ensures { result ≡ start_line k.now object v }
{
    match object {
        Object::Variable(n) => Instr::Frame(v, n.0),
        Object::Static(n) => match k.addresses.get(n.0 as usize) {
            Some(address) => Instr::Const(v, *address),
            None => Instr::Const(v, 0),
        },
    }
}

/// The address of an object, by the kind of its home.
#[tactic(auto, using(check_insert::proofs::Laws::grows_failed))]
fn put_object(out: &mut Draft, k: &Scope<'_>, kind: Kind, object: Object, v: u32)
    requires { v + 3 ≤ 1948 }
    ensures { Grows (object_row kind k.now object v) (IsHome kind) out.old out.new }
{
    let one = start_line(k, object, v);
    match kind {
        Kind::Safe => put(out, one),
        Kind::Wild => put_two(out, one, Instr::Copy(v + 1, v)),
        Kind::Seq => refuse(out),
        Kind::Rtti => refuse(out),
    }
}

/// What another temporary holds is copied.
fn put_held(out: &mut Draft, k: &Scope<'_>, held: Option<Held>, v: u32, a: u32)
    requires to { v + 3 ≤ 1948 }
    requires from { a + 3 ≤ 1948 }
    ensures { Grows (copied_lines (whole_of k.now) (held_views held) v a)
        (Unit {0}) out.old out.new }
{
    match held {
        None => keep(out),
        Some(held) => put_copies(out, held_words(k, held), v, a),
    }
}

/// A constant, an address or a copy. `from` is what the temporary holds that is copied.
pub fn put_set(out: &mut Draft, k: &Scope<'_>, from: Option<Held>, i: Set)
    ensures { (types : Typing) → IsCopied i types (held_views from)
        → Grows (SetCured i (world_of k.now) types) (CanSet i (whole_of k.now)) out.old out.new }
{
    match i {
        Set::Integer { into, value, ty: _ } => put(out, Instr::Const(column(into), word(value))),
        Set::Null { into, ty } => put_noughts(out, k.kind_of(node_of(k, ty)), column(into)),
        Set::Function { into, function, ty } => {
            put_function(out, k.kind_of(node_of(k, ty)), column(into), function)
        }
        Set::Object {
            into,
            object,
            home,
            ty: _,
        } => { put_object(out, k, k.kind_of(home), object, column(into)) }
        Set::Copy { into, from: source } => put_held(out, k, from, column(into), column(source)),
    }
}
