//! The code of statements: one arm a construct.
ghost use Rattle.std.specs.Prelude.{◌≡◌};
ghost use Rattle.c_tree.specs.TypedStatementViews.{typed_block_view, typed_statement_view};
ghost use Rattle.lower_rules.specs.Statements.{IsCodeOfBlock, IsCodeOfStatement};
ghost use Rattle.lower_exprs.specs.Drafts.{context_of, Grows};
ghost use Rattle.lower_statements.specs.Ready.{HasCodeOfBlock, HasCodeOfStatement, HasPieces, nesting_of};
ghost use Rattle.lower_statements.specs.Switches.{Pieces};

use crate::nesting::{Nesting, in_loop, in_switch};
use crate::pieces::{condition, effect, put_block, put_loop, put_return, test};
use crate::switching::{close, labels_fit, put_begin, put_piece, put_tests, switch_of};
use c_tree::{TypedBlockItem, TypedStatement};
use cc_base::Place;
use cil_form::Instr;
use lower_exprs::{Draft, Scope, choose, expr, keep, put, start};
use lower_initialisers::declaration;

/// Appends the code of statements and declarations in order.
#[cycle(statements)]
#[tactic(auto, using(crate::proofs::Rules::nothing_rules))]
pub fn block(out: &mut Draft, k: &Scope<'_>, v: Nesting, items: &[TypedBlockItem])
    ensures { Grows (IsCodeOfBlock (typed_block_view items.now) (context_of k.now) (nesting_of v))
        (HasCodeOfBlock (typed_block_view items.now) (context_of k.now) (nesting_of v)) out.old
        out.new }
{
    for item in items {
        match item {
            TypedBlockItem::Statement(s) => statement(out, k, v, s),
            TypedBlockItem::Declaration(d) => declaration(out, k, d),
            TypedBlockItem::Case(_, _, _) => keep(out),
            TypedBlockItem::Default(_) => keep(out),
        }
    }
}

/// Appends the pieces of a `switch`, each with its guard.
#[cycle(statements)]
fn pieces(out: &mut Draft, k: &Scope<'_>, v: Nesting, at: Place, items: &[TypedBlockItem])
    ensures { Grows (Pieces (typed_block_view items.now) (context_of k.now) (nesting_of v) at)
        (HasPieces (typed_block_view items.now) (context_of k.now) (nesting_of v)) out.old out.new }
{
    let mut last = start(k);
    let mut label = 0;
    for item in items {
        match item {
            TypedBlockItem::Statement(s) => {
                let inner = in_switch(&mut last, v);
                statement(&mut last, k, inner, s);
            }
            TypedBlockItem::Declaration(d) => declaration(&mut last, k, d),
            TypedBlockItem::Case(_, _, _) => {
                close(out, k, &mut last, v.switches, label, at);
                label += 1;
            }
            TypedBlockItem::Default(_) => {
                close(out, k, &mut last, v.switches, label, at);
                label += 1;
            }
        }
    }
    put_piece(out, k, v.switches, label, at, last)
}

/// Appends the code of a statement, which begins at value 0 and keeps no value.
#[cycle(statements)]
pub fn statement(out: &mut Draft, k: &Scope<'_>, v: Nesting, s: &TypedStatement)
    ensures { Grows (IsCodeOfStatement (typed_statement_view s.now) (context_of k.now)
        (nesting_of v)) (HasCodeOfStatement (typed_statement_view s.now) (context_of k.now)
        (nesting_of v)) out.old out.new }
{
    match s {
        TypedStatement::Block(_, items) => block(out, k, v, items.as_slice()),
        TypedStatement::Express(e) => expr(out, k, 0, e),
        TypedStatement::Empty => keep(out),
        TypedStatement::If(_, _, c, s) => {
            expr(out, k, 0, c.get());
            let mut then = start(k);
            statement(&mut then, k, v, s.get());
            let otherwise = start(k);
            choose(out, 0, then, otherwise)
        }
        TypedStatement::IfElse(_, _, c, s, r) => {
            expr(out, k, 0, c.get());
            let mut then = start(k);
            statement(&mut then, k, v, s.get());
            let mut otherwise = start(k);
            statement(&mut otherwise, k, v, r.get());
            choose(out, 0, then, otherwise)
        }
        TypedStatement::Switch(at, _, e, _, items) => {
            let e = e.get();
            let items = items.as_slice();
            labels_fit(out, items);
            let mut inner = start(k);
            expr(&mut inner, k, 0, e);
            put_begin(&mut inner, v.switches, e, items);
            put_tests(&mut inner, k, switch_of(v, e, *at), items);
            pieces(&mut inner, k, v, *at, items);
            put_block(out, inner)
        }
        TypedStatement::While(_, _, c, s) => {
            let mut round = start(k);
            test(&mut round, k, c.get());
            let mut body = start(k);
            statement(&mut body, k, in_loop(v), s.get());
            put_block(&mut round, body);
            put_loop(out, round)
        }
        TypedStatement::DoWhile(s, _, _, c) => {
            let mut round = start(k);
            let mut body = start(k);
            statement(&mut body, k, in_loop(v), s.get());
            put_block(&mut round, body);
            test(&mut round, k, c.get());
            put_loop(out, round)
        }
        TypedStatement::For(_, _, first, c, step, s) => {
            effect(out, k, first);
            let mut round = start(k);
            condition(&mut round, k, c);
            let mut body = start(k);
            statement(&mut body, k, in_loop(v), s.get());
            put_block(&mut round, body);
            effect(&mut round, k, step);
            put_loop(out, round)
        }
        TypedStatement::ForDeclaration(_, _, d, c, step, s) => {
            declaration(out, k, d.get());
            let mut round = start(k);
            condition(&mut round, k, c);
            let mut body = start(k);
            statement(&mut body, k, in_loop(v), s.get());
            put_block(&mut round, body);
            effect(&mut round, k, step);
            put_loop(out, round)
        }
        TypedStatement::Break(_) => put(out, Instr::Break(v.breaks)),
        TypedStatement::Continue(_) => put(out, Instr::Break(v.continues)),
        TypedStatement::Return(at, e) => match e {
            None => put(out, Instr::Return),
            Some(e) => {
                let e = e.get();
                expr(out, k, 0, e);
                put_return(out, e, *at)
            }
        },
    }
}
