//! The cured code that copies structs and unions.
ghost use Rattle.std.specs.Prelude.{◌≡◌, ◌≤◌, IfOk, IfSome, IfNone, true, [], ◌∷◌};
ghost use Rattle.std.specs.List.{All};
ghost use Rattle.c_types.specs.Cells.{IsBetweenPointers};
ghost use Rattle.c_types.specs.Equality.{cells_of};
ghost use Rattle.c_types.specs.Layouts.{size_of};
ghost use Rattle.c_types.specs.Table.{IsComplete, IsType};
ghost use Rattle.check_forms.specs.Pieces.{Line, Then};
ghost use Rattle.check_insert.specs.Drafts.{Grows};
ghost use Rattle.cil_form.specs.Typing.{Typing};
ghost use Rattle.cil_form.specs.declared.instr.Access.TheVariants as access;
ghost use Rattle.cil_form.specs.declared.instr.Target.TheVariants as target;
ghost use Rattle.cure_rules.specs.Accesses.{plain_copied};
ghost use Rattle.cure_rules.specs.Pointing.{cured_offset};
ghost use Rattle.cure_scope.specs.Scopes.{whole_of, world_of};
ghost use Rattle.phys_types.specs.Lending.{lent_layout};
ghost use Rattle.cure_objects.specs.Cured.{ObjectCured};
ghost use Rattle.cure_objects.specs.Starts.{IsSpotOf, TellsPointers};
ghost use Rattle.cure_objects.specs.Copies.{AreCopied, CanCopy, CanCopyPart, HolderCopied, IsTyped, IsWild, ItemKept, PointerKept, SpotsCopied, SpotsKept, StructCopied, tags_copied};

use crate::parts::{Part, part_offset, put_part};
use c_types::Types;
use cc_base::{Kind, NoMemory, NodeId, Place, TypeId};
use check_forms::{Op, PointerSlots};
use check_insert::{Draft, fail, keep, put, refuse};
use cil_form::Temp;
use cure_instrs::{
    Reached, cured_size, home_slot, put_two, put_words_loaded, size_at, source_size, wild_numbers,
};
use cure_scope::{
    ADDRESS, BASE, MADE, NOUGHT, OFFSET, Scope, WORD, column, pointer_slots, put_guarded,
};
use cured_code::Instr;
use phys_types::{Item, Known, Layout, Lent, Spot};

/// Where the checks of a copy stand: those of its source and of its target, and ESCAPE.
#[derive(Clone, Copy)]
pub struct CopyPlaces {
    pub from: Place,
    pub to: Place,
    pub assignment: Place,
}

/// A struct that is copied: its type, and the kinds and the slots of the pointers to its source and to its target.
#[derive(Clone, Copy)]
pub struct Struct {
    pub ty: TypeId,
    pub from: Kind,
    pub source: PointerSlots,
    pub to: Kind,
    pub target: PointerSlots,
}

/// Where the pointers of a struct are copied from: a pointer of the kind, to the type, in the slot. The home word of the target
/// stands in another, and the check that each pointer lives as long names the place.
#[derive(Clone, Copy)]
pub struct Cells {
    pub from: Kind,
    pub ty: TypeId,
    pub source: u32,
    pub home: u32,
    pub assignment: Place,
}

/// Bytes without pointers are copied.
fn put_plain(out: &mut Draft, kind: Kind, bytes: u64, source: PointerSlots, to: PointerSlots)
    ensures { Grows (Line (plain_copied kind source to bytes)) (Unit {0}) out.old out.new }
{
    let copy = Instr::Move(to.first, source.first, bytes);
    match kind {
        Kind::Wild => put_two(out, Instr::Untag(to.first, to.second, bytes), copy),
        Kind::Safe => put(out, copy),
        Kind::Seq => put(out, copy),
        Kind::Rtti => put(out, copy),
    }
}

/// A struct with pointers is copied with its tags, from one tagged area to what a pointer of the kind points to.
#[tactic(auto, using(cure_instrs::proofs::PieceLaws::refused))]
fn put_tags(out: &mut Draft, kind: Kind, bytes: u64, source: PointerSlots, to: PointerSlots)
    ensures { Grows (tags_copied kind bytes source to) (IsWild kind) out.old out.new }
{
    match kind {
        Kind::Wild => put(
            out,
            Instr::Tmove(to.first, to.second, source.first, source.second, bytes),
        ),
        Kind::Safe => refuse(out),
        Kind::Seq => refuse(out),
        Kind::Rtti => refuse(out),
    }
}

/// How far a pointer lies behind the start of a struct once cured.
fn pointer_offset(k: &Scope<'_>, from: Kind, t: TypeId, offset: u64) -> u64
    requires complete { IsComplete k.now.layouts.now.table t }
    requires within { offset ≤ size_of k.now.layouts.now.table t }
    requires whole { IsBetweenPointers (cells_of k.now.layouts.now.table t) offset }
    ensures { result ≡ cured_offset (world_of k.now) from t offset }
{
    match from {
        Kind::Wild => offset,
        Kind::Safe => k.layouts.cured_offset(t, offset),
        Kind::Seq => k.layouts.cured_offset(t, offset),
        Kind::Rtti => k.layouts.cured_offset(t, offset),
    }
}

/// A pointer of a struct is loaded, and is checked against the target.
fn put_pointer(out: &mut Draft, k: &Scope<'_>, c: Cells, offset: u64, node: NodeId)
    requires complete { IsComplete k.now.layouts.now.table c.ty }
    requires within { offset ≤ size_of k.now.layouts.now.table c.ty }
    requires whole { IsBetweenPointers (cells_of k.now.layouts.now.table c.ty) offset }
    ensures { Grows (PointerKept (world_of k.now) c.from c.ty c.source c.home c.assignment offset
        node) (Unit {0}) out.old out.new }
{
    let kind = k.kind_of(node);
    let far = pointer_offset(k, c.from, c.ty, offset);
    put(out, Instr::Const(OFFSET, far));
    put(out, Instr::Add(MADE, c.source, OFFSET));
    put_words_loaded(out, kind, WORD, MADE);
    let home = home_slot(kind, pointer_slots(WORD));
    let target = c.home;
    put_guarded(out, Op::KeepCell { home, target }, c.from, c.assignment)
}

/// What stands at a spot is checked, if it is a pointer.
fn put_spot(out: &mut Draft, k: &Scope<'_>, c: Cells, spot: Spot)
    requires { IsSpotOf k.now.layouts.now.table c.ty spot }
    ensures { Grows (ItemKept (world_of k.now) c.from c.ty c.source c.home c.assignment spot.start
        spot.item) (Unit {0}) out.old out.new }
{
    match spot.item {
        Item::Pointer(node, _) => put_pointer(out, k, c, spot.start, node),
        Item::Mixed(_, _) => keep(out),
        Item::Incomplete(_) => keep(out),
    }
}

/// The pointers among the spots are checked, one after another.
fn put_spots(out: &mut Draft, k: &Scope<'_>, c: Cells, spots: &[Spot])
    requires { All (IsSpotOf k.now.layouts.now.table c.ty) spots.now }
    ensures { Grows (SpotsKept (world_of k.now) c.from c.ty c.source c.home c.assignment spots.now)
        (Unit {0}) out.old out.new }
{
    for spot in spots {
        put_spot(out, k, c, *spot);
    }
}

/// A struct with pointers is copied where no tags are, behind the checks of its pointers.
#[tactic(auto, using(cure_instrs::proofs::PieceLaws::refused))]
fn put_cells(out: &mut Draft, k: &Scope<'_>, c: Struct, spots: &[Spot], assignment: Place)
    requires { All (IsSpotOf k.now.layouts.now.table c.ty) spots.now }
    ensures { Grows (SpotsCopied c.to (world_of k.now) c.from c.ty spots.now c.source c.target
        assignment) (IsTyped c.to) out.old out.new }
{
    let cells = Cells {
        from: c.from,
        ty: c.ty,
        source: c.source.first,
        home: home_slot(c.to, c.target),
        assignment,
    };
    let moved = Instr::Move(c.target.first, c.source.first, cured_size(k, c.ty));
    match c.to {
        Kind::Wild => refuse(out),
        Kind::Safe => put_kept(out, k, cells, spots, moved),
        Kind::Seq => put_kept(out, k, cells, spots, moved),
        Kind::Rtti => put_kept(out, k, cells, spots, moved),
    }
}

/// The pointers among the spots are checked, and then comes an instruction.
fn put_kept(out: &mut Draft, k: &Scope<'_>, c: Cells, spots: &[Spot], moved: Instr)
    requires { All (IsSpotOf k.now.layouts.now.table c.ty) spots.now }
    ensures { Grows (Then (SpotsKept (world_of k.now) c.from c.ty c.source c.home c.assignment
        spots.now) (Line (moved ∷ []))) (Unit {0}) out.old out.new }
{
    put_spots(out, k, c, spots);
    put(out, moved)
}

/// A struct with pointers is copied.
fn put_holder(out: &mut Draft, k: &Scope<'_>, c: Struct, spots: &[Spot], assignment: Place)
    requires { All (IsSpotOf k.now.layouts.now.table c.ty) spots.now }
    ensures { Grows (HolderCopied c.from c.to (world_of k.now) c.ty spots.now c.source c.target
        assignment) (AreCopied true c.from c.to) out.old out.new }
{
    match c.from {
        Kind::Wild => put_tags(out, c.to, source_size(k, c.ty), c.source, c.target),
        Kind::Safe => put_cells(out, k, c, spots, assignment),
        Kind::Seq => put_cells(out, k, c, spots, assignment),
        Kind::Rtti => put_cells(out, k, c, spots, assignment),
    }
}

/// A struct is copied, behind its checks.
fn put_struct(out: &mut Draft, k: &Scope<'_>, c: Struct, layout: &Layout, at: CopyPlaces)
    requires { layout.now.holds ≡ true → All (IsSpotOf k.now.layouts.now.table c.ty)
        layout.now.spots.items }
    ensures { Grows (StructCopied (world_of k.now) layout.now.holds layout.now.spots.items c.from
        c.to c.ty c.source c.target at.from at.to at.assignment)
        (AreCopied layout.now.holds c.from c.to) out.old out.new }
{
    let size = size_at(k, c.from, c.ty);
    if layout.holds {
        let op = Op::CopyPointers {
            source: c.source,
            target: c.target,
            other: c.to,
            size,
            numbers: wild_numbers(k),
            target_at: at.to,
            assignment: at.assignment,
        };
        put_guarded(out, op, c.from, at.from);
        put_holder(out, k, c, &layout.spots, at.assignment)
    } else {
        let op = Op::CopyPlain {
            source: c.source,
            target: c.target,
            other: c.to,
            size,
            target_at: at.to,
        };
        put_guarded(out, op, c.from, at.from);
        put_plain(out, c.to, source_size(k, c.ty), c.source, c.target)
    }
}

/// The layout of a type.
fn layout_in<'a>(
    known: &'a Known<'_>,
    t: TypeId,
    types: &Types,
) -> Result<Option<Lent<'a>>, NoMemory>
    requires { types.now ≡ known.now }
    ensures there { IfOk result (λ found. IfSome found (λ lent. TellsPointers known.now t
        (lent_layout lent))) }
    ensures none { IfOk result (λ found. IfNone found (IsType known.now t → ⊥)) }
{
    let count = types.count();
    if t.0 < count {
        Ok(Some(known.layout(t)?))
    } else {
        Ok(None)
    }
}

/// A struct or union is copied to what a pointer of the node points to (C99 6.5.16.1).
pub fn put_pointer_copy(
    out: &mut Draft,
    k: &Scope<'_>,
    known: &Known<'_>,
    to: (Temp, NodeId),
    from: Reached,
    at: CopyPlaces,
)
    requires { known.now ≡ k.now.layouts.now.table }
    ensures { (types : Typing) → Grows (ObjectCured (access.Copy
        (target.Pointer to.0 to.1) at.to from.pointer from.node at.from from.ty at.assignment)
        (world_of k.now) types) (CanCopy (whole_of k.now) to.1 from.node from.ty) out.old out.new }
{
    let (pointer, node) = to;
    match layout_in(known, from.ty, k.layouts.types()) {
        Ok(Some(lent)) => {
            let c = Struct {
                ty: from.ty,
                from: k.kind_of(from.node),
                source: pointer_slots(column(from.pointer)),
                to: k.kind_of(node),
                target: pointer_slots(column(pointer)),
            };
            put_struct(out, k, c, lent.layout(), at)
        }
        Ok(None) => refuse(out),
        Err(_) => fail(out),
    }
}

/// A struct or union is copied into a part of an object (C99 6.7.8).
pub fn put_part_copy(
    out: &mut Draft,
    k: &Scope<'_>,
    known: &Known<'_>,
    to: Part,
    from: Reached,
    at: CopyPlaces,
)
    requires { known.now ≡ k.now.layouts.now.table }
    ensures { (types : Typing) → Grows (ObjectCured (access.Copy
        (target.Part to.object to.home to.ty to.offset) at.to from.pointer from.node at.from from.ty
        at.assignment) (world_of k.now) types) (CanCopyPart
        (whole_of k.now) to.home to.ty to.offset from.node from.ty) out.old out.new }
{
    let kind = k.kind_of(to.home);
    match layout_in(known, from.ty, k.layouts.types()) {
        Ok(Some(lent)) => match part_offset(k, kind, to.ty, to.offset) {
            Some(n) => {
                let target = PointerSlots {
                    first: ADDRESS,
                    second: BASE,
                    third: NOUGHT,
                };
                let c = Struct {
                    ty: from.ty,
                    from: k.kind_of(from.node),
                    source: pointer_slots(column(from.pointer)),
                    to: kind,
                    target,
                };
                put_part(out, k, kind, to.object, n);
                put_struct(out, k, c, lent.layout(), at)
            }
            None => refuse(out),
        },
        Ok(None) => refuse(out),
        Err(_) => fail(out),
    }
}
