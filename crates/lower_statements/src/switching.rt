//! What the code of a `switch` has beside the code of its statements (C99 6.8.4.2): the choice of the label where it begins, and the guards
//! of its pieces.
ghost use Rattle.std.specs.Prelude.{◌≡◌, ◌≤◌, ◌<◌, length, suc, pos, true, [], ◌∷◌};
ghost use Rattle.c_tree.specs.TypedTree.{TypedBlockItems};
ghost use Rattle.c_tree.specs.TypedParts.{type_of};
ghost use Rattle.c_tree.specs.TypedViews.{typed_expr_view};
ghost use Rattle.c_tree.specs.TypedStatementViews.{typed_block_item_view, typed_block_view};
ghost use Rattle.src_machine.specs.Statements.{labels, otherwise};
ghost use Rattle.cil_form.specs.declared.instr.Convert.TheVariants as convert;
ghost use Rattle.cil_form.specs.declared.instr.Instr.TheVariants as instr;
ghost use Rattle.cil_form.specs.declared.instr.Set.TheVariants as set;
ghost use Rattle.lower_rules.specs.Pieces.{Line, When};
ghost use Rattle.lower_rules.specs.Statements.{IsCodeOfTests, guard_code, label_of};
ghost use Rattle.lower_rules.specs.Words.{unsigned_long, value, work};
ghost use Rattle.lower_exprs.specs.Drafts.{Grows, Starts};
ghost use Rattle.lower_statements.specs.Switches.{AreLabels, Chosen, Guards, IsFew, Tested, equal_code};

use crate::nesting::Nesting;
use c_tree::{TypedBlockItem, TypedExpr};
use cc_base::{Place, TypeId};
use cil_form::{Calculate, Code, Comparison, Convert, Instr, Operator, Set, Temp, Work};
use lower_exprs::{Draft, Scope, choose, keep, put, start};

/// `unsigned long`, the type of labels' numbers.
const UNSIGNED_LONG: TypeId = TypeId(8);

/// How many labels a block has, and the number of its first `default`, counted from 1.
#[derive(Clone, Copy)]
pub(crate) struct Labels {
    count: usize,
    first_default: Option<usize>,
}

/// The labels with the one of an item, if it has one.
#[tactic(auto, using(crate::proofs::Rules::label_rules))]
fn with_item(before: Labels, item: &TypedBlockItem) -> Labels
    requires { before.count < 18446744073709551615 }
    ensures labels { (all : TypedBlockItems) → AreLabels all before
        → AreLabels (typed_block_item_view item.now all) result }
    ensures few { result.count ≤ suc before.count }
{
    match item {
        TypedBlockItem::Statement(_) => before,
        TypedBlockItem::Declaration(_) => before,
        TypedBlockItem::Case(_, _, _) => Labels {
            count: before.count + 1,
            first_default: before.first_default,
        },
        TypedBlockItem::Default(_) => Labels {
            count: before.count + 1,
            first_default: Some(before.first_default.unwrap_or(before.count + 1)),
        },
    }
}

/// The labels of a block.
fn labels_in(items: &[TypedBlockItem]) -> Labels
    ensures labels { AreLabels (typed_block_view items.now) result }
    ensures few { result.count ≤ length items.now }
{
    let mut labels = Labels {
        count: 0,
        first_default: None,
    };
    for item in items {
        labels = with_item(labels, item);
    }
    labels
}

/// Appends nothing: a block has no more labels than items, and fewer than 2^64 - 1 of these, so that its labels have numbers.
pub(crate) fn labels_fit(out: &mut Draft, items: &[TypedBlockItem])
    ensures { Grows (When (IsFew (typed_block_view items.now)) (Line []))
        (Unit {0}) out.old out.new }
{
    if labels_in(items).count < usize::MAX {
        keep(out)
    } else {
        unreachable!()
    }
}

/// The number of `default`; where there is none, one that no label has.
fn otherwise(items: &[TypedBlockItem]) -> i128
    ensures { result ≡ pos (otherwise (typed_block_view items.now)) }
{
    let labels = labels_in(items);
    match labels.first_default {
        Some(n) => i128::from(n as u64),
        None => i128::from(labels.count as u64) + 1,
    }
}

/// Appends what begins a `switch` inside so many others, behind its value: the label is that of `default` at first.
#[tactic(auto, using(lower_exprs::proofs::Laws::grows_line))]
pub(crate) fn put_begin(out: &mut Draft, n: u8, e: &TypedExpr, items: &[TypedBlockItem])
    ensures { Grows (Line (instr.Convert (convert.Integer work (value 0)
        (type_of (typed_expr_view e.now))) ∷ instr.Set
        (set.Integer (label_of n) (pos (otherwise (typed_block_view items.now))) unsigned_long) ∷
        [])) (Unit {0}) out.old out.new }
{
    put(
        out,
        Instr::Convert(Convert::Integer {
            into: Temp::Work(Work::First),
            from: Temp::Value(0),
            ty: e.ty(),
        }),
    );
    put_number(out, Temp::Switch(n), otherwise(items))
}

/// Appends the instruction that sets a temporary to the number of a label.
fn put_number(out: &mut Draft, into: Temp, value: i128)
    ensures { Grows (Line (instr.Set (set.Integer into value unsigned_long) ∷ []))
        (Unit {0}) out.old out.new }
{
    put(
        out,
        Instr::Set(Set::Integer {
            into,
            value,
            ty: UNSIGNED_LONG,
        }),
    )
}

/// Appends the instruction that keeps the number of the label where the `switch` begins.
fn put_label(out: &mut Draft, n: u8, label: usize)
    ensures { Grows (Line (instr.Set (set.Integer (label_of n) (pos label) unsigned_long) ∷ []))
        (Unit {0}) out.old out.new }
{
    put_number(out, Temp::Switch(n), i128::from(label as u64))
}

/// A `switch`: how many others are around it, its type, and its place.
#[derive(Clone, Copy)]
pub(crate) struct Switch {
    pub(crate) switches: u8,
    pub(crate) ty: TypeId,
    pub(crate) at: Place,
}

/// The `switch` with this value, nested so.
pub(crate) fn switch_of(v: Nesting, e: &TypedExpr, at: Place) -> Switch
    ensures { result ≡ record {
      switches = v.switches;
      ty = type_of
          (typed_expr_view e.now);
      at = at;
    } }
{
    Switch {
        switches: v.switches,
        ty: e.ty(),
        at,
    }
}

/// The `switch` begins at this label where value 1 is true.
fn put_chosen(out: &mut Draft, k: &Scope<'_>, n: u8, label: usize)
    ensures { Grows (Chosen n label) (Unit {0}) out.old out.new }
{
    let mut then = start(k);
    put_label(&mut then, n, label);
    let otherwise = start(k);
    choose(out, 1, then, otherwise)
}

/// Value 1 is whether value 0 is that of a `case`.
#[tactic(auto, using(lower_exprs::proofs::Laws::grows_line))]
fn put_equal(out: &mut Draft, s: Switch, z: &i128)
    ensures { Grows (Line (equal_code z.now s.ty s.at)) (Unit {0}) out.old out.new }
{
    put(
        out,
        Instr::Set(Set::Integer {
            into: Temp::Value(1),
            value: *z,
            ty: s.ty,
        }),
    );
    put(
        out,
        Instr::Calculate(Calculate::Binary {
            into: Temp::Value(1),
            operator: Operator::Compare(Comparison::Equal),
            left: Temp::Value(1),
            right: Temp::Value(0),
            ty: s.ty,
            place: s.at,
        }),
    )
}

/// Appends the choice of a label, where the item is a `case`.
fn put_test(out: &mut Draft, k: &Scope<'_>, s: Switch, label: usize, item: &TypedBlockItem)
    ensures { Grows (Tested item.now label s.switches s.ty s.at) (Unit {0}) out.old out.new }
{
    match item {
        TypedBlockItem::Statement(_) => keep(out),
        TypedBlockItem::Declaration(_) => keep(out),
        TypedBlockItem::Case(_, _, z) => {
            put_equal(out, s, z);
            put_chosen(out, k, s.switches, label)
        }
        TypedBlockItem::Default(_) => keep(out),
    }
}

/// How many labels are before an item, from how many there are up to it.
#[tactic(auto, using(crate::proofs::Rules::label_rules))]
fn before(count: usize, item: &TypedBlockItem) -> usize
    ensures { (all : TypedBlockItems) → count ≡ labels (typed_block_item_view item.now all) → result
        ≡ labels all }
{
    match item {
        TypedBlockItem::Statement(_) => count,
        TypedBlockItem::Declaration(_) => count,
        TypedBlockItem::Case(_, _, _) => count.saturating_sub(1),
        TypedBlockItem::Default(_) => count.saturating_sub(1),
    }
}

/// Appends the choices of labels by value 0. The last label is tried first.
pub(crate) fn put_tests(out: &mut Draft, k: &Scope<'_>, s: Switch, items: &[TypedBlockItem])
    ensures { Grows (IsCodeOfTests (typed_block_view items.now) s.switches s.ty s.at)
        (Unit {0}) out.old out.new }
{
    let mut label = labels_in(items).count;
    for i in (0..items.len()).rev() {
        put_test(out, k, s, label, &items[i]);
        label = before(label, &items[i]);
    }
}

/// Whether the piece behind this label runs, in value 0.
#[tactic(auto, using(lower_exprs::proofs::Laws::grows_line))]
fn put_guard(out: &mut Draft, n: u8, label: usize, at: Place)
    ensures { Grows (Line (guard_code label n at)) (Unit {0}) out.old out.new }
{
    put_number(out, Temp::Value(0), i128::from(label as u64));
    put(
        out,
        Instr::Calculate(Calculate::Binary {
            into: Temp::Value(0),
            operator: Operator::Compare(Comparison::LessOrEqual),
            left: Temp::Switch(n),
            right: Temp::Value(0),
            ty: UNSIGNED_LONG,
            place: at,
        }),
    )
}

/// Appends a piece with its guard.
pub(crate) fn put_piece(
    out: &mut Draft,
    k: &Scope<'_>,
    n: u8,
    label: usize,
    at: Place,
    piece: Draft,
)
    ensures { Grows (Guards label n at piece) (piece.ready ≡ true) out.old out.new }
{
    put_guard(out, n, label, at);
    let otherwise = start(k);
    choose(out, 0, piece, otherwise)
}

/// Appends the last piece with its guard, and begins another.
pub(crate) fn close(
    out: &mut Draft,
    k: &Scope<'_>,
    last: &mut Draft,
    n: u8,
    label: usize,
    at: Place,
)
    ensures closed { Grows (Guards label n at last.old) (last.old.ready ≡ true) out.old out.new }
    ensures begun { Starts last.new }
{
    let piece = std::mem::replace(last, start(k));
    put_piece(out, k, n, label, at, piece)
}
