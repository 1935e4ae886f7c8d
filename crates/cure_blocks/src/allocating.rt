//! The cured code of allocations.
ghost use Rattle.std.specs.Prelude.{◌≡◌, ◌+◌, ◌≤◌, [], length};
ghost use Rattle.c_types.specs.Cells.{holds_pointer};
ghost use Rattle.cil_form.specs.Typing.{Typing};
ghost use Rattle.check_forms.specs.Pieces.{Line, When};
ghost use Rattle.check_insert.specs.Drafts.{Grows};
ghost use Rattle.cure_rules.specs.Calling.{BlockWords, has_elements, is_tagged_kind};
ghost use Rattle.cure_scope.specs.Scopes.{whole_of, world_of};
ghost use Rattle.cure_blocks.specs.Cured.{AllocateCured, CanAllocate, IsTypeIn};
ghost use Rattle.cure_blocks.specs.Blocks.{bytes_slot, BlockMade, BlockGiven, AmountLines, MallocLines, CallocLines};

use crate::converting::put_noded;
use cc_base::{Kind, Place, TypeId};
use check_forms::{Fixed, Op};
use check_insert::{Draft, SlotLine, choose, put, put_lines, refuse, start};
use cil_form::Allocate;
use cure_instrs::{cured_size, source_size};
use cure_scope::{AMOUNT, BYTES, CHARGE, FIRST, MADE, OFFSET, SIZE, Scope, column, put_guarded};
use cured_code::Instr;
use phys_types::Known;

/// What a block is made for: the kind of the pointer to it, what that points to, and whether this holds pointers.
#[derive(Clone, Copy)]
pub struct Block {
    pub kind: Kind,
    pub ty: TypeId,
    pub holds: bool,
}

/// Whether a block consists of whole elements, which grow as they are cured.
fn has_elements(b: Block) -> bool
    ensures { result ≡ has_elements b.kind b.holds }
{
    match b.kind {
        Kind::Wild => false,
        Kind::Safe | Kind::Seq | Kind::Rtti => b.holds,
    }
}

/// Whether blocks for pointers of a kind are tagged.
fn is_tagged(kind: Kind) -> bool
    ensures { result ≡ is_tagged_kind kind }
{
    match kind {
        Kind::Wild => true,
        Kind::Safe | Kind::Seq | Kind::Rtti => false,
    }
}

/// The slot that holds how many cured bytes a block has that is made for as many as slot n holds.
fn bytes_slot(b: Block, n: u32) -> u32
    ensures { result ≡ bytes_slot (has_elements b.kind b.holds) n }
{
    if has_elements(b) { BYTES } else { n }
}

/// A new block for as many bytes as slot n holds.
#[tactic(auto, using(cure_scope::proofs::Laws::grows_row))]
fn put_block(out: &mut Draft, k: &Scope<'_>, b: Block, n: u32)
    ensures { Grows (BlockMade (has_elements b.kind b.holds) (whole_of k.now) b.kind b.ty n)
        (Unit {0}) out.old out.new }
{
    let tagged = is_tagged(b.kind);
    if has_elements(b) {
        put_lines(
            out,
            &[
                SlotLine::Number(SIZE, source_size(k, b.ty)),
                SlotLine::Number(OFFSET, cured_size(k, b.ty)),
                SlotLine::Quotient(CHARGE, n, SIZE),
                SlotLine::Product(BYTES, CHARGE, OFFSET),
                SlotLine::Product(CHARGE, CHARGE, SIZE),
            ],
        );
        put(out, Instr::New(tagged, MADE, BYTES, CHARGE))
    } else {
        put(out, Instr::New(tagged, MADE, n, n))
    }
}

/// The words of the pointer to a block that was made, from slot v on.
fn put_block_words(out: &mut Draft, k: &Scope<'_>, b: Block, v: u32, bytes: u32)
    requires { v + 3 ≤ 1948 }
    ensures { Grows (BlockWords b.kind (world_of k.now) b.ty v bytes) (Unit {0}) out.old out.new }
{
    match b.kind {
        Kind::Safe => put(out, Instr::Copy(v, MADE)),
        Kind::Rtti => put_noded(out, k, v, MADE, b.ty),
        Kind::Wild => put_lines(out, &[SlotLine::Same(v, MADE), SlotLine::Same(v + 1, MADE)]),
        Kind::Seq => {
            let mut made = start(out);
            put(&mut made, Instr::Add(v + 2, MADE, bytes));
            let mut none = start(out);
            put(&mut none, Instr::Const(v + 2, 0));
            choose(out, MADE, made, none);
            put_lines(out, &[SlotLine::Same(v, MADE), SlotLine::Same(v + 1, MADE)])
        }
    }
}

/// What an allocation gives is checked, and becomes a pointer.
#[tactic(auto, using(cure_scope::proofs::Laws::grows_row))]
fn put_given(out: &mut Draft, k: &Scope<'_>, b: Block, v: u32, bytes: u32, at: Place)
    requires { v + 3 ≤ 1948 }
    ensures { Grows (BlockGiven (world_of k.now) b.kind b.ty v bytes at)
        (Unit {0}) out.old out.new }
{
    let op = Op::Allocate {
        made: MADE,
        size: bytes,
        needed: Fixed {
            slot: SIZE,
            value: cured_size(k, b.ty),
        },
    };
    put_guarded(out, op, b.kind, at);
    put_block_words(out, k, b, v, bytes)
}

/// `malloc`, of as many bytes as slot n holds.
fn put_malloc(out: &mut Draft, k: &Scope<'_>, b: Block, v: u32, n: u32, at: Place)
    requires { v + 3 ≤ 1948 }
    ensures { Grows (MallocLines (world_of k.now) b.kind b.holds b.ty v n at)
        (Unit {0}) out.old out.new }
{
    put_block(out, k, b, n);
    put_given(out, k, b, v, bytes_slot(b, n), at)
}

/// The product of two slots, and whether it wraps.
fn put_amount(out: &mut Draft, p: u32, q: u32)
    ensures { Grows (AmountLines p q) (Unit {0}) out.old out.new }
{
    put(out, Instr::Mul(AMOUNT, p, q));
    let mut wraps = start(out);
    put_lines(
        &mut wraps,
        &[
            SlotLine::Quotient(FIRST, AMOUNT, p),
            SlotLine::Different(FIRST, FIRST, q),
        ],
    );
    let mut none = start(out);
    put(&mut none, Instr::Const(FIRST, 0));
    choose(out, p, wraps, none)
}

/// `calloc`, of as many bytes as the product of slots p and q.
fn put_calloc(out: &mut Draft, k: &Scope<'_>, b: Block, v: u32, p: u32, q: u32, at: Place)
    requires { v + 3 ≤ 1948 }
    ensures { Grows (CallocLines (world_of k.now) b.kind b.holds b.ty v p q at)
        (Unit {0}) out.old out.new }
{
    put_amount(out, p, q);
    let mut none = start(out);
    put(&mut none, Instr::Const(MADE, 0));
    let mut made = start(out);
    put_block(&mut made, k, b, AMOUNT);
    choose(out, FIRST, none, made);
    put_given(out, k, b, v, bytes_slot(b, AMOUNT), at)
}

/// Whether a type holds pointers.
#[tactic(auto, using(crate::proofs::Rules::class_rules))]
fn holds_pointer(out: &mut Draft, known: &Known<'_>, t: TypeId, count: u32) -> bool
    requires { count ≡ length known.now }
    ensures { Grows (When (result ≡ holds_pointer known.now t) (Line []))
        (IsTypeIn known.now t) out.old out.new }
{
    if t.0 < count {
        return known.holds_pointer(t);
    }
    refuse(out);
    false
}

/// An allocation (C99 7.20.3): a block of so many bytes of the source, with its cured ones.
pub fn put_allocate(out: &mut Draft, k: &Scope<'_>, known: &Known<'_>, i: Allocate)
    requires { known.now ≡ k.now.layouts.now.table }
    ensures { (types : Typing) → Grows (AllocateCured i (world_of k.now) types)
        (CanAllocate i (whole_of k.now)) out.old out.new }
{
    let count = k.layouts.types().count();
    match i {
        Allocate::Malloc {
            into,
            size,
            node,
            ty,
            place,
        } => {
            let holds = holds_pointer(out, known, ty, count);
            let kind = k.kind_of(node);
            put_malloc(
                out,
                k,
                Block { kind, ty, holds },
                column(into),
                column(size),
                place,
            )
        }
        Allocate::Calloc {
            into,
            count: number,
            size,
            node,
            ty,
            place,
        } => {
            let holds = holds_pointer(out, known, ty, count);
            let kind = k.kind_of(node);
            let b = Block { kind, ty, holds };
            put_calloc(out, k, b, column(into), column(number), column(size), place)
        }
    }
}
