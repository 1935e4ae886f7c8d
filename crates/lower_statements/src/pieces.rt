//! Blocks, loops, conditions and effects.
ghost use Rattle.std.specs.Prelude.{◌≡◌, true, [], ◌∷◌, option_map};
ghost use Rattle.cil_form.specs.declared.instr.Instr.TheVariants as instr;
ghost use Rattle.c_tree.specs.TypedParts.{type_of};
ghost use Rattle.c_tree.specs.TypedViews.{typed_expr_view};
ghost use Rattle.lower_rules.specs.Pieces.{Choice, Line, When};
ghost use Rattle.lower_rules.specs.Statements.{IsCodeOfEffect, IsCodeOfTest};
ghost use Rattle.lower_rules.specs.Words.{value};
ghost use Rattle.lower_exprs.specs.Drafts.{context_of, Grows};
ghost use Rattle.lower_statements.specs.Ready.{HasCodeOfEffect, HasCodeOfTest};

use c_tree::{Boxed, TypedExpr};
use cc_base::Place;
use cil_form::{Code, Instr, Temp};
use lower_exprs::{Draft, Scope, choose, expr, fail, keep, put, refuse, start};

/// Appends an instruction that holds the code of a draft in which, where `fine`, nothing failed.
#[tactic(auto, using(crate::proofs::Rules::whole_rules))]
fn put_whole(out: &mut Draft, fine: bool, ready: bool, one: Instr)
    ensures { Grows (When (fine ≡ true) (Line (one ∷ []))) (ready ≡ true) out.old out.new }
{
    if ready {
        if fine {
            return put(out, one);
        }
        return fail(out);
    }
    refuse(out)
}

/// Appends a block.
pub(crate) fn put_block(out: &mut Draft, inner: Draft)
    ensures { Grows (When (inner.fine ≡ true) (Line (instr.Block
        (record { 0 = inner.items }) ∷ []))) (inner.ready ≡ true) out.old out.new }
{
    put_whole(
        out,
        inner.fine,
        inner.ready,
        Instr::Block(Code(inner.items)),
    )
}

/// Appends a loop.
pub(crate) fn put_loop(out: &mut Draft, round: Draft)
    ensures { Grows (When (round.fine ≡ true) (Line (instr.Loop (record { 0 = round.items }) ∷ [])))
        (round.ready ≡ true) out.old out.new }
{
    put_whole(out, round.fine, round.ready, Instr::Loop(Code(round.items)))
}

/// Leaves the loop where value 0 is false.
fn leave_unless(out: &mut Draft, k: &Scope<'_>)
    ensures { Grows (Choice (value 0) (Line []) (Line (instr.Break 0 ∷ [])))
        (Unit {0}) out.old out.new }
{
    let then = start(k);
    let mut otherwise = start(k);
    put(&mut otherwise, Instr::Break(0));
    choose(out, 0, then, otherwise)
}

/// Appends the code of a loop's condition, which leaves the loop where it fails.
pub(crate) fn test(out: &mut Draft, k: &Scope<'_>, c: &TypedExpr)
    ensures { Grows (IsCodeOfTest (Some (typed_expr_view c.now)) (context_of k.now))
        (HasCodeOfTest (Some (typed_expr_view c.now)) (context_of k.now)) out.old out.new }
{
    expr(out, k, 0, c);
    leave_unless(out, k)
}

/// The same of a condition that may be missing.
pub(crate) fn condition(out: &mut Draft, k: &Scope<'_>, c: &Option<Boxed<TypedExpr>>)
    ensures { Grows (IsCodeOfTest (option_map typed_expr_view c.now) (context_of k.now))
        (HasCodeOfTest (option_map typed_expr_view c.now) (context_of k.now)) out.old out.new }
{
    match c {
        None => keep(out),
        Some(c) => test(out, k, c.get()),
    }
}

/// Appends the code of an expression, where there is one, for what it does.
pub(crate) fn effect(out: &mut Draft, k: &Scope<'_>, e: &Option<Boxed<TypedExpr>>)
    ensures { Grows (IsCodeOfEffect (option_map typed_expr_view e.now) (context_of k.now))
        (HasCodeOfEffect (option_map typed_expr_view e.now) (context_of k.now)) out.old out.new }
{
    match e {
        None => keep(out),
        Some(e) => expr(out, k, 0, e.get()),
    }
}

/// Appends the code that leaves the function with value 0, which is that of the expression.
pub(crate) fn put_return(out: &mut Draft, e: &TypedExpr, place: Place)
    ensures { Grows (Line (instr.ReturnValue (value 0)
        (type_of (typed_expr_view e.now)) place ∷ [])) (Unit {0}) out.old out.new }
{
    put(
        out,
        Instr::ReturnValue {
            value: Temp::Value(0),
            ty: e.ty(),
            place,
        },
    )
}
