//! The cured code of calls.
ghost use Rattle.std.specs.Prelude.{◌≡◌, ◌≢◌, ◌+◌, ◌*◌, ◌<◌, ◌≤◌, suc, [], ◌∷◌, Some, None, IfSome, IfNone, IsTrue, length};
ghost use Rattle.cured_code.specs.declared.instr.Instr.TheVariants as instr;
ghost use Rattle.check_forms.specs.Pieces.{Line};
ghost use Rattle.check_insert.specs.Drafts.{Grows};
ghost use Rattle.c_types.specs.Table.{shape_at};
ghost use Rattle.cure_rules.specs.Known.{words_in};
ghost use Rattle.cure_scope.specs.Scopes.{whole_of, world_of};
ghost use Rattle.cil_form.specs.Typing.{Typing};
ghost use Rattle.cure_calls.specs.Cured.{CallCured};
ghost use Rattle.cure_calls.specs.Lines.{ArgumentRow, FitsRow, CalledBy, IsFunctionAt, HasFunction, CanCall};

use c_types::TypeShape;
use cc_base::{Kind, Place, TypeId};
use check_forms::{Fixed, Op};
use check_insert::{Draft, keep, put, refuse};
use cil_form::{Call, Temp};
use cure_instrs::{pointer_in, put_copies, word_number};
use cure_scope::{SIGNATURE, Scope, column, pointer_slots, put_guarded};
use cured_code::Instr;

/// How many words a value of a type takes.
pub(crate) fn words_in(k: &Scope<'_>, t: TypeId) -> u32
    ensures value { result ≡ words_in (whole_of k.now) t }
    ensures few { result ≤ 3 }
{
    let types = k.layouts.types();
    if t.0 < types.count() {
        match types.shape(t) {
            TypeShape::Integer {
                bytes: _,
                signed: _,
            } => 1,
            TypeShape::Pointer(node, _) => word_number(k.kind_of(*node)),
            _ => 0,
        }
    } else {
        0
    }
}

/// Whether a value of this number is there, and the row has room for its words.
fn has_room(n: u32, j: u32, words: u32) -> bool
    requires { words ≤ 3 }
    ensures there { IsTrue result → n < 256 }
    ensures room { IsTrue result → j + words ≤ 381 }
    ensures exact { n < 256 → j + words ≤ 381 → IsTrue result }
{
    n < 256 && j <= 381 - words
}

/// The arguments, values of numbers from `n` on, in the row from its slot `j` on.
fn put_arguments(out: &mut Draft, k: &Scope<'_>, n: u32, parameters: &[TypeId], j: u32)
    ensures { Grows (ArgumentRow (world_of k.now) n parameters.now j)
        (FitsRow (world_of k.now) n parameters.now j) out.old out.new }
{
    match parameters.split_first() {
        None => keep(out),
        Some((t, rest)) => {
            let words = words_in(k, *t);
            if has_room(n, j, words) {
                put_copies(out, words, j, column(Temp::Value(n as u8)));
                put_arguments(out, k, n + 1, rest, j + words)
            } else {
                refuse(out)
            }
        }
    }
}

/// A function type.
#[derive(Clone, Copy)]
struct FunctionType<'a> {
    parameters: &'a [TypeId],
    result: TypeId,
}

/// The function type that a type is.
#[tactic(auto, unfolding(crate::specs::Lines::IsFunctionAt, crate::specs::Lines::HasFunction))]
fn function_in<'a>(k: &Scope<'a>, t: TypeId) -> Option<FunctionType<'a>>
    ensures there { IfSome result (λ f. IsFunctionAt (whole_of k.now) t f.parameters.now f.result) }
    ensures none { IfNone result (HasFunction (whole_of k.now) t → ⊥) }
{
    let types = k.layouts.types();
    if t.0 < types.count() {
        match types.shape(t) {
            TypeShape::Function(parameters, result) => Some(FunctionType {
                parameters: parameters.ids(),
                result: *result,
            }),
            _ => None,
        }
    } else {
        None
    }
}

/// The number of the signature of functions of a type.
fn signature(k: &Scope<'_>, t: TypeId) -> u32
    ensures { result ≡ (whole_of k.now).signature t }
{
    match k.signatures.get(t.0 as usize) {
        Some(number) => *number,
        None => 0,
    }
}

/// A call: the kind of the pointer, the type of the function, the number of the first argument, and the slots of the pointer and of what
/// it gives.
#[derive(Clone, Copy)]
struct Calling {
    kind: Kind,
    function: TypeId,
    first: u32,
    a: u32,
    v: u32,
}

/// A call through a pointer, behind its check.
fn put_called(out: &mut Draft, k: &Scope<'_>, c: Calling, parameters: &[TypeId], at: Place)
    requires { c.a + 3 ≤ 1948 }
    ensures { Grows (CalledBy (world_of k.now) c.kind c.function parameters.now c.first c.a c.v at)
        (FitsRow (world_of k.now) c.first parameters.now 0) out.old out.new }
{
    let number = signature(k, c.function);
    let op = Op::Call {
        p: pointer_slots(c.a),
        signature: Fixed {
            slot: SIGNATURE,
            value: u64::from(number) + 1,
        },
    };
    put_guarded(out, op, c.kind, at);
    put_arguments(out, k, c.first, parameters, 0);
    put(out, Instr::Icall(number, c.a, 0, c.v))
}

/// A call in a function.
fn put_inner_call(out: &mut Draft, k: &Scope<'_>, i: Call)
    requires { k.now.number ≢ 0 }
    ensures { (types : Typing) → Grows (CallCured i (world_of k.now) types)
        (CanCall (world_of k.now) i.ty i.first) out.old out.new }
{
    match pointer_in(k, i.ty) {
        Some(p) => match function_in(k, p.to) {
            Some(f) => put_called(
                out,
                k,
                Calling {
                    kind: k.kind_of(p.node),
                    function: p.to,
                    first: u32::from(i.first),
                    a: column(i.callee),
                    v: column(i.into),
                },
                f.parameters,
                i.place,
            ),
            None => refuse(out),
        },
        None => refuse(out),
    }
}

/// A call.
pub fn put_call(out: &mut Draft, k: &Scope<'_>, i: Call)
    ensures { (types : Typing) → Grows (CallCured i (world_of k.now) types)
        (CanCall (world_of k.now) i.ty i.first) out.old out.new }
{
    if k.number == 0 {
        refuse(out)
    } else {
        put_inner_call(out, k, i)
    }
}
