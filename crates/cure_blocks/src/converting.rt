//! The cured code of conversions.
ghost use Rattle.std.specs.Prelude.{◌≡◌, ◌+◌, ◌≤◌, [], length};
ghost use Rattle.c_types.specs.Table.{shape_at};
ghost use Rattle.c_types.specs.Flows.{flow_class};
ghost use Rattle.cil_form.specs.Typing.{Typing};
ghost use Rattle.check_forms.specs.declared.op.Conversion.TheVariants.{Shrink};
ghost use Rattle.cure_rules.specs.Slots.{Size};
ghost use Rattle.cure_rules.specs.Checks.{number_at};
ghost use Rattle.check_forms.specs.Pieces.{Line, When};
ghost use Rattle.check_insert.specs.Drafts.{Grows};
ghost use Rattle.cure_rules.specs.Known.{cured_size, narrowed_lines};
ghost use Rattle.cure_rules.specs.Pointing.{NumberWords, ConvertedWords, conversion_by, made_type, noded_lines};
ghost use Rattle.cure_instrs.specs.Cured.{kind_in};
ghost use Rattle.cure_scope.specs.Scopes.{fixed_column, seat, whole_of, world_of};
ghost use Rattle.cure_blocks.specs.Cured.{AreConverted, AreTypes, CanConvert, ConvertCured, IsNumbered};
ghost use Rattle.cure_blocks.specs.Rows.{narrow_at, node_in, pointee_at, PointerConverted};

use c_types::TypeShape;
use cc_base::{Kind, Place, TypeId};
use check_forms::{Conversion, Fixed, Op};
use check_insert::{Draft, SlotLine, fail, keep, put, put_lines, refuse};
use cil_form::Convert;
use cure_instrs::{Width, cured_size, narrow_of, node_of};
use cure_scope::{NOUGHT, SIZE, Scope, WORD, column, pointer_slots, put_guarded};
use cured_code::{Instr, Narrow};
use phys_types::{FlowClass, Known};

/// The part of a word that an integer of the type is.
fn narrow_in(k: &Scope<'_>, t: TypeId) -> Option<Narrow>
    ensures { result ≡ narrow_at (shape_at k.now.layouts.now.table t) }
{
    let types = k.layouts.types();
    if t.0 < types.count() {
        match types.shape(t) {
            TypeShape::Integer { bytes, signed } => narrow_of(Width {
                bytes: *bytes,
                signed: *signed,
            }),
            _ => None,
        }
    } else {
        None
    }
}

/// A word becomes an integer of the type.
fn put_narrowed(out: &mut Draft, k: &Scope<'_>, v: u32, a: u32, t: TypeId)
    ensures { Grows (Line (narrowed_lines v a (narrow_at (shape_at k.now.layouts.now.table t))))
        (Unit {0}) out.old out.new }
{
    match narrow_in(k, t) {
        None => put(out, Instr::Copy(v, a)),
        Some(part) => put(out, Instr::Ext(v, a, part)),
    }
}

/// An integer as a pointer of a kind, made for no object.
#[tactic(auto, using(check_insert::proofs::Laws::grows_failed))]
fn put_number(out: &mut Draft, kind: Kind, v: u32, a: u32)
    requires { v + 3 ≤ 1948 }
    ensures { Grows (NumberWords kind v a) (IsNumbered kind) out.old out.new }
{
    match kind {
        Kind::Safe => refuse(out),
        Kind::Rtti => refuse(out),
        Kind::Seq => put_lines(
            out,
            &[
                SlotLine::Same(v, a),
                SlotLine::Number(v + 1, 0),
                SlotLine::Number(v + 2, 0),
            ],
        ),
        Kind::Wild => put_lines(out, &[SlotLine::Same(v, a), SlotLine::Number(v + 1, 0)]),
    }
}

/// The kind of the pointers of a type; of another type that of node 0.
fn kind_in(k: &Scope<'_>, t: TypeId) -> Kind
    ensures { result ≡ kind_in (whole_of k.now) t }
{
    k.kind_of(node_of(k, t))
}

/// What the pointers of a type point to; of another type the type 0.
fn pointee_of(k: &Scope<'_>, t: TypeId) -> TypeId
    ensures { result ≡ pointee_at (shape_at k.now.layouts.now.table t) }
{
    let types = k.layouts.types();
    if t.0 < types.count() {
        match types.shape(t) {
            TypeShape::Pointer(_, pointee) => *pointee,
            _ => TypeId(0),
        }
    } else {
        TypeId(0)
    }
}

/// The number of the type node that pointers to a type carry.
pub(crate) fn node_number(k: &Scope<'_>, t: TypeId) -> u32
    ensures { result ≡ node_in k.now t }
{
    match k.nodes.get(t.0 as usize) {
        Some(node) => *node,
        None => 0,
    }
}

/// A conversion of a pointer: the kinds, the types that are pointed to, and how they lie to each other.
#[derive(Clone, Copy)]
pub struct Converted {
    pub from: Kind,
    pub to: Kind,
    pub source: TypeId,
    pub target: TypeId,
    pub class: FlowClass,
}

/// Its check, with as many bytes as a type takes.
fn shrink(k: &Scope<'_>, t: TypeId) -> Conversion
    ensures { result ≡ Shrink (number_at seat Size (cured_size (whole_of k.now) t)) }
{
    Conversion::Shrink {
        size: Fixed {
            slot: SIZE,
            value: cured_size(k, t),
        },
    }
}

/// What a conversion asks.
fn conversion_of(k: &Scope<'_>, c: Converted) -> Conversion
    ensures { result ≡ conversion_by c.from c.to (world_of k.now) seat c.class c.source c.target }
{
    match c.from {
        Kind::Safe | Kind::Wild => Conversion::Free,
        Kind::Seq => match c.to {
            Kind::Safe => shrink(k, c.target),
            Kind::Rtti => match c.class {
                FlowClass::DownTile | FlowClass::Tile => shrink(k, c.target),
                _ => shrink(k, c.source),
            },
            Kind::Seq | Kind::Wild => Conversion::Free,
        },
        Kind::Rtti => match c.class {
            FlowClass::Down | FlowClass::DownTile => Conversion::Down {
                node: node_number(k, c.target),
            },
            _ => Conversion::Free,
        },
    }
}

/// The type at which an RTTI pointer is made that comes from a SEQ one.
fn made_type(c: Converted) -> TypeId
    ensures { result ≡ made_type c.class c.source c.target }
{
    match c.class {
        FlowClass::DownTile | FlowClass::Tile => c.target,
        _ => c.source,
    }
}

/// An address, and its type node, or 0 where it is null.
pub(crate) fn put_noded(out: &mut Draft, k: &Scope<'_>, v: u32, a: u32, t: TypeId)
    requires { v + 3 ≤ 1948 }
    ensures { Grows (Line (noded_lines (world_of k.now) v a t)) (Unit {0}) out.old out.new }
{
    put_lines(
        out,
        &[
            SlotLine::Same(v, a),
            SlotLine::Different(v + 1, v, NOUGHT),
            SlotLine::Number(WORD, u64::from(node_number(k, t))),
            SlotLine::Product(v + 1, v + 1, WORD),
        ],
    )
}

/// The words of a pointer in slots from `a` on, converted into those from `v` on.
#[tactic(auto, using(check_insert::proofs::Laws::grows_failed))]
fn put_words(out: &mut Draft, k: &Scope<'_>, c: Converted, v: u32, a: u32)
    requires to { v + 3 ≤ 1948 }
    requires from { a + 3 ≤ 1948 }
    ensures { Grows (ConvertedWords c.from c.to (world_of k.now) c.class c.source c.target v a)
        (AreConverted c.from c.to) out.old out.new }
{
    match c.from {
        Kind::Safe => match c.to {
            Kind::Safe => put(out, Instr::Copy(v, a)),
            Kind::Rtti => put_noded(out, k, v, a, c.source),
            Kind::Seq => refuse(out),
            Kind::Wild => refuse(out),
        },
        Kind::Rtti => match c.to {
            Kind::Safe => put(out, Instr::Copy(v, a)),
            Kind::Rtti => put_lines(out, &[SlotLine::Same(v, a), SlotLine::Same(v + 1, a + 1)]),
            Kind::Seq => refuse(out),
            Kind::Wild => refuse(out),
        },
        Kind::Seq => match c.to {
            Kind::Safe => put(out, Instr::Copy(v, a)),
            Kind::Rtti => put_noded(out, k, v, a, made_type(c)),
            Kind::Seq => put_lines(
                out,
                &[
                    SlotLine::Same(v, a),
                    SlotLine::Same(v + 1, a + 1),
                    SlotLine::Same(v + 2, a + 2),
                ],
            ),
            Kind::Wild => refuse(out),
        },
        Kind::Wild => match c.to {
            Kind::Wild => put_lines(out, &[SlotLine::Same(v, a), SlotLine::Same(v + 1, a + 1)]),
            Kind::Safe => refuse(out),
            Kind::Seq => refuse(out),
            Kind::Rtti => refuse(out),
        },
    }
}

/// A pointer is checked, and its words are converted.
#[tactic(auto, using(crate::proofs::ConvertLaws::grows_converted))]
fn put_converted(out: &mut Draft, k: &Scope<'_>, c: Converted, v: u32, a: u32, at: Place)
    requires to { v + 3 ≤ 1948 }
    requires from { a + 3 ≤ 1948 }
    ensures { Grows (PointerConverted c.from c.to (world_of k.now) c.class c.source c.target v a at)
        (AreConverted c.from c.to) out.old out.new }
{
    let op = Op::Convert {
        p: pointer_slots(a),
        conversion: conversion_of(k, c),
    };
    put_guarded(out, op, c.from, at);
    put_words(out, k, c, v, a)
}

/// How two types lie to each other.
#[tactic(auto, using(crate::proofs::Rules::class_rules))]
fn class_of(out: &mut Draft, known: &Known<'_>, u: TypeId, v: TypeId, count: u32) -> FlowClass
    requires { count ≡ length known.now }
    ensures { Grows (When (result ≡ flow_class known.now u v) (Line []))
        (AreTypes known.now u v) out.old out.new }
{
    if u.0 < count {
        if v.0 < count {
            match known.class(u, v) {
                Ok(class) => return class,
                Err(_) => {
                    fail(out);
                    return FlowClass::Bad;
                }
            }
        }
    }
    refuse(out);
    FlowClass::Bad
}

/// A conversion (C99 6.3.1.3, 6.3.2.3), between pointers by their kinds (CCured, TOPLAS 2005). `known` is what is known of
/// the program's types.
pub fn put_convert(out: &mut Draft, k: &Scope<'_>, known: &Known<'_>, i: Convert)
    requires { known.now ≡ k.now.layouts.now.table }
    ensures { (types : Typing) → Grows (ConvertCured i (world_of k.now) types)
        (CanConvert i (whole_of k.now)) out.old out.new }
{
    match i {
        Convert::Integer { into, from, ty } => {
            put_narrowed(out, k, column(into), column(from), ty)
        }
        Convert::ToPointer {
            into,
            from,
            ty,
            place: _,
        } => put_number(out, kind_in(k, ty), column(into), column(from)),
        Convert::FromPointer {
            into,
            from,
            from_ty: _,
            ty,
        } => put_narrowed(out, k, column(into), column(from), ty),
        Convert::Pointer {
            into,
            from,
            from_ty,
            ty,
            place,
        } => {
            let source = pointee_of(k, from_ty);
            let target = pointee_of(k, ty);
            let class = class_of(out, known, source, target, k.layouts.types().count());
            let c = Converted {
                from: kind_in(k, from_ty),
                to: kind_in(k, ty),
                source,
                target,
                class,
            };
            put_converted(out, k, c, column(into), column(from), place)
        }
    }
}
