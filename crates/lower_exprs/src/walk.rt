//! The code of expressions and places: one arm a construct.
ghost use Rattle.std.specs.Prelude.{◌≡◌, map, suc};
ghost use Rattle.c_tree.specs.TypedViews.{typed_expr_view, typed_place_view, typed_arguments_of};
ghost use Rattle.lower_rules.specs.Words.{Follows};
ghost use Rattle.lower_rules.specs.Expressions.{IsCodeOf, IsCodeOfPlace, IsCodeOfArguments};
ghost use Rattle.lower_exprs.specs.Drafts.{context_of, Grows};
ghost use Rattle.lower_exprs.specs.Ready.{HasCode, HasCodeOfPlace, HaveCode, HasRoom};

use crate::accessing::{follow, motion_of, put_assign, put_update, spot_of};
use crate::afters::{address_of, copy_of, decay_of, load_of, member_of, step_of};
use crate::calling::{block_of, count, put_allocation, put_call, put_runtime};
use crate::draft::{Draft, Scope};
use crate::operators::{
    is_null, is_or, is_subtraction, lowered, operands_of, put_binary, put_character, put_compare,
    put_conversion, put_difference, put_enumerator, put_function, put_move, put_object, put_prefix,
    put_test, put_unsigned,
};
use crate::pieces::{above, argument_number, choose, demand_fixed, put_logical, refuse, start};
use crate::places::{
    is_pointer, named_type, node_in_place, node_of, place_at, pointee_of, pointer_type,
};
use c_tree::{TypedExpr, TypedPlace};
use lower_rules::After;

/// Appends the code of arguments, which leaves them in the values behind value t.
#[cycle(lowering)]
#[tactic(auto, using(crate::proofs::Rules::nothing_rules))]
fn arguments(out: &mut Draft, k: &Scope<'_>, t: u8, all: &[TypedExpr])
    ensures { Grows (IsCodeOfArguments (typed_arguments_of (map typed_expr_view all.now))
        (context_of k.now) (suc t)) (HaveCode (typed_arguments_of (map typed_expr_view all.now))
        (context_of k.now) (suc t)) out.old out.new }
{
    let mut i = 0;
    for e in all {
        let u = argument_number(out, t, i);
        expr(out, k, u, e);
        i += 1;
    }
}

/// Appends the code of a place, which leaves its address in value t, and what comes after.
#[cycle(lowering)]
pub fn place(out: &mut Draft, k: &Scope<'_>, t: u8, p: &TypedPlace, after: After)
    ensures { Grows (IsCodeOfPlace (typed_place_view p.now) (context_of k.now) t (Follows after t))
        (HasCodeOfPlace (typed_place_view p.now) (context_of k.now) t (HasRoom after t)) out.old
        out.new }
{
    match p {
        TypedPlace::Variable(_, home, ty) => {
            put_object(out, k, t, *home, *ty);
            follow(out, t, *home, after)
        }
        TypedPlace::String(_, home, ty) => {
            put_object(out, k, t, *home, *ty);
            follow(out, t, *home, after)
        }
        TypedPlace::ParenPlace(_, p) => place(out, k, t, p.get(), after),
        TypedPlace::Target(_, e, _) => {
            let e = e.get();
            expr(out, k, t, e);
            follow(out, t, node_of(k, e.ty()), after)
        }
        TypedPlace::Element(which, a, at, b, _) => {
            let a = a.get();
            let b = b.get();
            expr(out, k, t, a);
            let u = above(out, t);
            expr(out, k, u, b);
            put_move(out, *which, false, operands_of(t, a, b, *at));
            follow(out, t, node_of(k, pointer_type(*which, a, b)), after)
        }
        TypedPlace::Member(p, at, _, i, node, ty) => {
            let p = p.get();
            place(out, k, t, p, member_of(p.ty(), *i, *node, *ty, *at));
            follow(out, t, *node, after)
        }
        TypedPlace::MemberAt(e, at, _, i, node, ty) => {
            let e = e.get();
            expr(out, k, t, e);
            let to = pointee_of(k, e.ty());
            follow(
                out,
                t,
                node_of(k, e.ty()),
                member_of(to, *i, *node, *ty, *at),
            );
            follow(out, t, *node, after)
        }
        TypedPlace::StructAssign(p, at, q) => {
            let p = p.get();
            let q = q.get();
            demand_fixed(out, p);
            place(out, k, t, p, After::Nothing);
            let u = above(out, t);
            place(out, k, u, q, copy_of(k, t, p, q, *at));
            follow(out, t, node_in_place(k, p), after)
        }
        TypedPlace::StructConditional(c, _, p, q) => {
            expr(out, k, t, c.get());
            let mut then = start(k);
            place(&mut then, k, t, p.get(), after);
            let mut otherwise = start(k);
            place(&mut otherwise, k, t, q.get(), after);
            choose(out, t, then, otherwise)
        }
        TypedPlace::StructComma(e, p) => {
            expr(out, k, t, e.get());
            place(out, k, t, p.get(), after)
        }
    }
}

/// Appends the code of an expression, which leaves its value in value t.
#[cycle(lowering)]
pub fn expr(out: &mut Draft, k: &Scope<'_>, t: u8, e: &TypedExpr)
    ensures { Grows (IsCodeOf (typed_expr_view e.now) (context_of k.now) t)
        (HasCode (typed_expr_view e.now) (context_of k.now) t) out.old out.new }
{
    match e {
        TypedExpr::Integer(_, n, _, ty) => put_unsigned(out, k, t, *ty, n),
        TypedExpr::Character(z, _, ty) => put_character(out, k, t, *ty, z),
        TypedExpr::Enumerator(_, z, ty) => put_enumerator(out, k, t, *ty, z),
        TypedExpr::FunctionName(_, f, _, ty) => put_function(out, t, *f, *ty),
        TypedExpr::RuntimeName(_, _, _) => refuse(out),
        TypedExpr::Paren(_, e) => expr(out, k, t, e.get()),
        TypedExpr::Read(p) => {
            let p = p.get();
            place(out, k, t, p, load_of(p.ty(), place_at(p)))
        }
        TypedExpr::Unread(p) => place(out, k, t, p.get(), After::Nothing),
        TypedExpr::Decay(p, node, ty) => {
            let p = p.get();
            place(out, k, t, p, decay_of(k, p, *node, *ty))
        }
        TypedExpr::Convert(which, at, ty, e) => {
            let e = e.get();
            expr(out, k, t, e);
            put_conversion(out, *which, t, *at, e.ty(), *ty)
        }
        TypedExpr::Cast(which, at, name, e) => {
            let e = e.get();
            expr(out, k, t, e);
            put_conversion(out, *which, t, *at, e.ty(), named_type(name.get()))
        }
        TypedExpr::AddressOf(_, p, node, _) => {
            let p = p.get();
            place(out, k, t, p, address_of(*node, p.ty()))
        }
        TypedExpr::AddressOfElement(_, p, _) => place(out, k, t, p.get(), After::Nothing),
        TypedExpr::AddressOfFunction(_, e) => expr(out, k, t, e.get()),
        TypedExpr::FunctionAt(_, e) => expr(out, k, t, e.get()),
        TypedExpr::Prefix(op, _, e, ty) => {
            expr(out, k, t, e.get());
            put_prefix(out, *op, t, *ty)
        }
        TypedExpr::SizeOfPlace(_, _, n, ty) => put_unsigned(out, k, t, *ty, n),
        TypedExpr::SizeOfValue(_, _, n, ty) => put_unsigned(out, k, t, *ty, n),
        TypedExpr::SizeOfType(_, _, _, n, ty) => put_unsigned(out, k, t, *ty, n),
        TypedExpr::StepBefore(which, at, p) => {
            let p = p.get();
            place(out, k, t, p, step_of(k, false, *which, p, *at))
        }
        TypedExpr::StepAfter(p, which, at) => {
            let p = p.get();
            place(out, k, t, p, step_of(k, true, *which, p, *at))
        }
        TypedExpr::Arithmetic(op, a, at, b, _) => {
            let a = a.get();
            expr(out, k, t, a);
            let u = above(out, t);
            expr(out, k, u, b.get());
            put_binary(out, t, lowered(*op), a.ty(), *at)
        }
        TypedExpr::Moved(op, which, a, at, b, _) => {
            let a = a.get();
            let b = b.get();
            expr(out, k, t, a);
            let u = above(out, t);
            expr(out, k, u, b);
            put_move(out, *which, is_subtraction(*op), operands_of(t, a, b, *at))
        }
        TypedExpr::Difference(a, at, b, _) => {
            let a = a.get();
            let b = b.get();
            expr(out, k, t, a);
            let u = above(out, t);
            expr(out, k, u, b);
            put_difference(out, operands_of(t, a, b, *at))
        }
        TypedExpr::Compared(op, a, at, b, _) => {
            let a = a.get();
            let b = b.get();
            expr(out, k, t, a);
            let u = above(out, t);
            expr(out, k, u, b);
            put_compare(out, is_null(a), is_null(b), *op, operands_of(t, a, b, *at))
        }
        TypedExpr::Logical(op, a, _, b, _) => {
            expr(out, k, t, a.get());
            let mut right = start(k);
            expr(&mut right, k, t, b.get());
            put_test(&mut right, t);
            put_logical(out, k, t, is_or(*op), right)
        }
        TypedExpr::Conditional(c, _, a, b, _) => {
            expr(out, k, t, c.get());
            let mut then = start(k);
            expr(&mut then, k, t, a.get());
            let mut otherwise = start(k);
            expr(&mut otherwise, k, t, b.get());
            choose(out, t, then, otherwise)
        }
        TypedExpr::PointerConditional(c, _, a, b, _, _) => {
            expr(out, k, t, c.get());
            let mut then = start(k);
            expr(&mut then, k, t, a.get());
            let mut otherwise = start(k);
            expr(&mut otherwise, k, t, b.get());
            choose(out, t, then, otherwise)
        }
        TypedExpr::Comma(a, b) => {
            expr(out, k, t, a.get());
            expr(out, k, t, b.get())
        }
        TypedExpr::Assign(p, at, e) => {
            let p = p.get();
            demand_fixed(out, p);
            place(out, k, t, p, After::Nothing);
            let u = above(out, t);
            expr(out, k, u, e.get());
            put_assign(out, spot_of(k, t, p, *at))
        }
        TypedExpr::AssignWith(op, p, at, e, computed) => {
            let p = p.get();
            demand_fixed(out, p);
            place(out, k, t, p, After::Nothing);
            let u = above(out, t);
            expr(out, k, u, e.get());
            let pointer = is_pointer(k, p.ty());
            put_update(
                out,
                spot_of(k, t, p, *at),
                pointer,
                motion_of(*op),
                *computed,
            )
        }
        TypedExpr::Call(f, at, all, _) => {
            let f = f.get();
            let all = all.as_slice();
            expr(out, k, t, f);
            arguments(out, k, t, all);
            put_call(out, t, f.ty(), count(all), *at)
        }
        TypedExpr::CallRuntime(which, _, _, all, _) => {
            let all = all.as_slice();
            arguments(out, k, t, all);
            put_runtime(out, *which, count(all), t)
        }
        TypedExpr::Allocate(which, _, at, all, node, ty) => {
            let all = all.as_slice();
            arguments(out, k, t, all);
            put_allocation(
                out,
                *which,
                count(all),
                t,
                block_of(*node, pointee_of(k, *ty), *at),
            )
        }
        TypedExpr::AllocateFor(which, _, at, all, ty) => {
            let all = all.as_slice();
            arguments(out, k, t, all);
            put_allocation(
                out,
                *which,
                count(all),
                t,
                block_of(node_of(k, *ty), pointee_of(k, *ty), *at),
            )
        }
    }
}
