//! What instructions name, and whether it is there.
ghost use Rattle.std.specs.Prelude.{◌≡◌, ◌<◌, ◌≤◌, ◌↔◌, IsTrue, MatchOption};
ghost use Rattle.cured_code.specs.Groups.{group, Words, Tests, Bytes, Tags, Lookups, Outside, Flow};
ghost use Rattle.cured_code.specs.Ranges.{IsAccessSize, IsRowSize, IsInstrInRange, AreInstrsInRange, HasSlot, HasSlots, CanPass, flat_nest_limit, inside_if, inside_block};

use crate::instr::Instr;
use crate::parts::{Function, Sig};
use std::marker::Model;

// How many `if`, `block` and `loop` stand in one another at most.
const NEST_LIMIT: u32 = 1_024;

/// What an instruction of a function may name: signatures, functions, type nodes, slots, areas of the frame; how many
/// words the function gives; in how many blocks and loops the instruction stands, and in how many of these and of `if`s.
#[derive(Drop)]
pub struct Names<'a> {
    pub sigs: &'a [Sig],
    pub functions: &'a [Function],
    pub nodes: usize,
    pub slots: u32,
    pub areas: usize,
    pub results: u32,
    pub blocks: u32,
    pub nest: u32,
}

impl<'a> Model for Names<'a> {
    ghost use Rattle.std.specs.Prelude.{◌≤◌};
    ghost use Rattle.cured_code.specs.Ranges.{Names as Scope, sigs_of};

    ghost Value = { Scope };

    ghost view = { λ n. record {
      sigs = n.sigs.now;
      functions = sigs_of n.functions.now;
      nodes = n.nodes;
      slots = n.slots;
      areas = n.areas;
      results = n.results;
      blocks = n.blocks;
      nest = n.nest;
    } };

    ghost invariant = { λ n. n.blocks ≤ n.nest };
}

impl<'a> Names<'a> {
    /// What may be named inside an `if`.
    pub fn inside_if(&self) -> Names<'a>
        requires { self.now.nest < flat_nest_limit }
        ensures { result ≡ inside_if self.now }
    {
        Names {
            nest: self.nest + 1,
            ..*self
        }
    }

    /// What may be named inside a `block` or a `loop`.
    pub fn inside_block(&self) -> Names<'a>
        requires { self.now.nest < flat_nest_limit }
        ensures { result ≡ inside_block self.now }
    {
        Names {
            blocks: self.blocks + 1,
            nest: self.nest + 1,
            ..*self
        }
    }
}

fn has_slot(names: &Names, a: u32) -> bool
    ensures { IsTrue result ↔ HasSlot names.now a }
{
    a < names.slots
}

fn has_slots(names: &Names, first: u32, n: u32) -> bool
    ensures { IsTrue result ↔ HasSlots names.now first n }
{
    u64::from(first) + u64::from(n) <= u64::from(names.slots)
}

fn have_two(names: &Names, a: u32, b: u32) -> bool
    ensures { IsTrue result ↔ (HasSlot names.now a × HasSlot names.now b) }
{
    has_slot(names, a) && has_slot(names, b)
}

fn have_three(names: &Names, a: u32, b: u32, c: u32) -> bool
    ensures { IsTrue result ↔ (HasSlot names.now a × HasSlot names.now b × HasSlot names.now c) }
{
    has_slot(names, a) && has_slot(names, b) && has_slot(names, c)
}

fn can_pass(names: &Names, number: u32, a: u32, v: u32) -> bool
    ensures { IsTrue result ↔ CanPass names.now number a v }
{
    match names.sigs.get(number as usize) {
        None => false,
        Some(sig) => has_slots(names, a, sig.params) && has_slots(names, v, sig.results),
    }
}

fn can_call(names: &Names, f: u32, a: u32, v: u32) -> bool
    ensures { IsTrue result ↔ IsInstrInRange names.now (Instr.Call f a v) }
{
    match names.functions.get(f as usize) {
        None => false,
        Some(function) => can_pass(names, function.sig, a, v),
    }
}

fn is_access_size(n: u64) -> bool
    ensures { IsTrue result ↔ IsAccessSize n }
{
    n == 1 || n == 2 || n == 4 || n == 8
}

fn is_row_size(k: u32) -> bool
    ensures { IsTrue result ↔ IsRowSize k }
{
    k == 2 || k == 3
}

fn is_node(names: &Names, n: u32) -> bool
    ensures { IsTrue result ↔ ((0 < n) × (n ≤ names.now.nodes)) }
{
    n > 0 && n as usize <= names.nodes
}

// Each of these says of its group's instructions whether they are in range, and None of the others.

fn are_words_kept(names: &Names, instr: &Instr) -> Option<bool>
    ensures { MatchOption result (group instr.now ≡ Words → ⊥)
        (λ kept. IsTrue kept ↔ IsInstrInRange names.now instr.now) }
{
    match *instr {
        Instr::Const(v, _) => Some(has_slot(names, v)),
        Instr::Copy(v, a) | Instr::Ext(v, a, _) => Some(have_two(names, v, a)),
        Instr::Add(v, a, b)
        | Instr::Sub(v, a, b)
        | Instr::Mul(v, a, b)
        | Instr::And(v, a, b)
        | Instr::Or(v, a, b)
        | Instr::Xor(v, a, b)
        | Instr::Shl(v, a, b)
        | Instr::Shr(v, a, b)
        | Instr::Sar(v, a, b) => Some(have_three(names, v, a, b)),
        _ => None,
    }
}

fn are_tests_kept(names: &Names, instr: &Instr) -> Option<bool>
    ensures { MatchOption result (group instr.now ≡ Tests → ⊥)
        (λ kept. IsTrue kept ↔ IsInstrInRange names.now instr.now) }
{
    match *instr {
        Instr::Divu(v, a, b)
        | Instr::Divs(v, a, b)
        | Instr::Remu(v, a, b)
        | Instr::Rems(v, a, b)
        | Instr::Eq(v, a, b)
        | Instr::Ne(v, a, b)
        | Instr::Ltu(v, a, b)
        | Instr::Lts(v, a, b) => Some(have_three(names, v, a, b)),
        _ => None,
    }
}

fn are_bytes_kept(names: &Names, instr: &Instr) -> Option<bool>
    ensures { MatchOption result (group instr.now ≡ Bytes → ⊥)
        (λ kept. IsTrue kept ↔ IsInstrInRange names.now instr.now) }
{
    match *instr {
        Instr::Ld(n, v, a) | Instr::St(n, v, a) => Some(is_access_size(n) && have_two(names, v, a)),
        Instr::Ldw(k, v, a) => {
            Some(is_row_size(k) && has_slots(names, v, k) && has_slot(names, a))
        }
        Instr::Stw(k, a, v) => {
            Some(is_row_size(k) && has_slot(names, a) && has_slots(names, v, k))
        }
        Instr::Move(a, b, _) | Instr::Len(a, b) => Some(have_two(names, a, b)),
        Instr::Zero(a, _) => Some(has_slot(names, a)),
        _ => None,
    }
}

fn are_tags_kept(names: &Names, instr: &Instr) -> Option<bool>
    ensures { MatchOption result (group instr.now ≡ Tags → ⊥)
        (λ kept. IsTrue kept ↔ IsInstrInRange names.now instr.now) }
{
    match *instr {
        Instr::Plain(v, a, b, _)
        | Instr::Tdepth(v, a, b, _)
        | Instr::Tagged(v, a, b)
        | Instr::Base(v, a, b)
        | Instr::Mark(v, a, b) => Some(have_three(names, v, a, b)),
        Instr::Untag(a, b, _) | Instr::Tzero(a, b, _) => Some(have_two(names, a, b)),
        Instr::Tmove(a, b, c, d, _) => Some(have_three(names, a, b, c) && has_slot(names, d)),
        _ => None,
    }
}

fn are_lookups_kept(names: &Names, instr: &Instr) -> Option<bool>
    ensures { MatchOption result (group instr.now ≡ Lookups → ⊥)
        (λ kept. IsTrue kept ↔ IsInstrInRange names.now instr.now) }
{
    match *instr {
        Instr::Frame(v, k) => Some(has_slot(names, v) && (k as usize) < names.areas),
        Instr::Depth(v, a) | Instr::Sigof(v, a) | Instr::Room(v, a) => Some(have_two(names, v, a)),
        Instr::Below(v, a, n) => Some(have_two(names, v, a) && is_node(names, n)),
        Instr::New(_, v, n, s) => Some(have_three(names, v, n, s)),
        _ => None,
    }
}

fn is_outside_kept(names: &Names, instr: &Instr) -> Option<bool>
    ensures { MatchOption result (group instr.now ≡ Outside → ⊥)
        (λ kept. IsTrue kept ↔ IsInstrInRange names.now instr.now) }
{
    match *instr {
        Instr::Get(a) | Instr::Put(a) | Instr::Exit(a) | Instr::Check(_, _, a) => Some(has_slot(
            names, a,
        )),
        _ => None,
    }
}

/// Whether the instructions that hold no others are in range.
fn is_straight_kept(names: &Names, instr: &Instr) -> Option<bool>
    ensures { MatchOption result (group instr.now ≡ Flow)
        (λ kept. IsTrue kept ↔ IsInstrInRange names.now instr.now) }
{
    if let Some(kept) = are_words_kept(names, instr) {
        return Some(kept);
    }
    if let Some(kept) = are_tests_kept(names, instr) {
        return Some(kept);
    }
    if let Some(kept) = are_bytes_kept(names, instr) {
        return Some(kept);
    }
    if let Some(kept) = are_tags_kept(names, instr) {
        return Some(kept);
    }
    if let Some(kept) = are_lookups_kept(names, instr) {
        return Some(kept);
    }
    is_outside_kept(names, instr)
}

#[cycle(naming)]
fn is_flow_kept(names: &Names, instr: &Instr) -> bool
    requires { group instr.now ≡ Flow }
    ensures { IsTrue result ↔ IsInstrInRange names.now instr.now }
{
    match instr {
        Instr::Call(f, a, v) => can_call(names, *f, *a, *v),
        Instr::Icall(g, w, a, v) => has_slot(names, *w) && can_pass(names, *g, *a, *v),
        Instr::If(a, x, y) => {
            has_slot(names, *a) && is_branch_kept(names, &x.0) && is_branch_kept(names, &y.0)
        },
        Instr::Block(x) | Instr::Loop(x) => is_block_kept(names, &x.0),
        Instr::Break(k) => *k < names.blocks,
        Instr::Return(a) => has_slots(names, *a, names.results),
        _ => false,
    }
}

#[cycle(naming)]
fn is_branch_kept(names: &Names, x: &[Instr]) -> bool
    ensures { IsTrue result ↔ ((names.now.nest < flat_nest_limit)
        × AreInstrsInRange (inside_if names.now) x.now) }
{
    if names.nest >= NEST_LIMIT {
        return false;
    }
    let inner = names.inside_if();
    are_instrs_in_range(&inner, x)
}

#[cycle(naming)]
fn is_block_kept(names: &Names, x: &[Instr]) -> bool
    ensures { IsTrue result ↔ ((names.now.nest < flat_nest_limit)
        × AreInstrsInRange (inside_block names.now) x.now) }
{
    if names.nest >= NEST_LIMIT {
        return false;
    }
    let inner = names.inside_block();
    are_instrs_in_range(&inner, x)
}

/// Whether the instruction is in range.
#[cycle(naming)]
pub fn is_instr_in_range(names: &Names, instr: &Instr) -> bool
    ensures { IsTrue result ↔ IsInstrInRange names.now instr.now }
{
    match is_straight_kept(names, instr) {
        Some(kept) => kept,
        None => is_flow_kept(names, instr),
    }
}

/// Whether all the instructions are in range.
#[cycle(naming)]
pub(crate) fn are_instrs_in_range(names: &Names, instrs: &[Instr]) -> bool
    ensures { IsTrue result ↔ AreInstrsInRange names.now instrs.now }
{
    for instr in instrs {
        if !is_instr_in_range(names, instr) {
            return false;
        }
    }
    true
}
