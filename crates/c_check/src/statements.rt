//! Statements (C99 6.8).
#![tactic(auto)]

ghost use Rattle.std.specs.Prelude.{◌≡◌, IfOk, Some, None, false, option_map};
ghost use Rattle.c_tree.specs.Tree as tree;
ghost use Rattle.c_tree.specs.TypedTree.{TypedBlockItems};
ghost use Rattle.c_tree.specs.Views.{expr_view};
ghost use Rattle.c_tree.specs.StatementViews.{statement_view, block_view, block_item_view, declaration_view};
ghost use Rattle.c_tree.specs.TypedStatementViews.{typed_statement_view, typed_block_view, typed_block_item_view, typed_declaration_view};
ghost use Rattle.c_check.specs.Labels.{HoldsLabels};
ghost use Rattle.c_check.specs.CodeViews.{around_view};
ghost use Rattle.c_check_context.specs.ContextViews.{state_of};
ghost use Rattle.c_unit_typing.specs.UnitJudging.{Answers, Gives, UnitState};
ghost use Rattle.c_unit_typing.specs.DeclarationJudging.{judge_declaration};
ghost use Rattle.c_unit_typing.specs.StatementJudging as judging;

use crate::around::Around;
use crate::blocks::{enter, leave};
use crate::expressions::{
    dropped, promoted, returned, try_condition, try_condition_or_none, try_integer,
};
use crate::labels::{Labels, case_label};
use c_check_context::Context;
use c_check_declarations::declaration;
use c_tree::{
    BlockItem, Boxed, Declaration, Expr, Items, Statement, TypedBlockItem, TypedDeclaration,
    TypedStatement,
};
use c_typing::stops::refusal;
use cc_base::{Fault, NoMemory, Place, Rule, TypeId};

/// A statement on the heap.
fn boxed(context: &Context, one: TypedStatement) -> Result<Boxed<TypedStatement>, NoMemory>
    ensures { IfOk result (λ made. made ≡ one) }
{
    Ok(Boxed::new(context.scope.alloc(), one)?)
}

/// A declaration of a block, on the heap.
fn boxed_declaration(
    context: &mut Context,
    d: &Declaration,
) -> Result<Boxed<TypedDeclaration>, Fault>
    ensures { Answers typed_declaration_view
        (judge_declaration false (declaration_view d.now) (state_of context.old))
        result (state_of context.new) }
{
    let made = declaration(context, false, d)?;
    Ok(Boxed::new(context.scope.alloc(), made)?)
}

/// `break`, where it may stand.
#[tactic(auto, using(c_tree::proofs::TypedStatementViewLaws::typed_statement_views), unfolding(c_unit_typing::specs::StatementJudging::judge_statement, c_unit_typing::specs::StatementJudging::jump))]
fn break_from(
    context: &mut Context,
    around: Around,
    at: Place,
) -> Result<Boxed<TypedStatement>, Fault>
    ensures { Answers typed_statement_view (judging.judge_statement (around_view around)
        (tree.Break at) (state_of context.old)) result (state_of context.new) }
{
    if !around.breakable {
        return Err(refusal(at, Rule::Mismatch));
    }
    Ok(boxed(context, TypedStatement::Break(at))?)
}

/// `continue`, where it may stand.
#[tactic(auto, using(c_tree::proofs::TypedStatementViewLaws::typed_statement_views), unfolding(c_unit_typing::specs::StatementJudging::judge_statement, c_unit_typing::specs::StatementJudging::jump))]
fn continue_in(
    context: &mut Context,
    around: Around,
    at: Place,
) -> Result<Boxed<TypedStatement>, Fault>
    ensures { Answers typed_statement_view (judging.judge_statement (around_view around)
        (tree.Continue at) (state_of context.old)) result (state_of context.new) }
{
    if !around.in_loop {
        return Err(refusal(at, Rule::Mismatch));
    }
    Ok(boxed(context, TypedStatement::Continue(at))?)
}

/// `return` (C99 6.8.6.4).
#[tactic(auto, using(c_tree::proofs::TypedStatementViewLaws::typed_statement_views), unfolding(c_unit_typing::specs::StatementJudging::judge_statement, c_unit_typing::specs::StatementJudging::within))]
fn return_from(
    context: &mut Context,
    around: Around,
    at: Place,
    e: &Option<Boxed<Expr>>,
) -> Result<Boxed<TypedStatement>, Fault>
    ensures { Answers typed_statement_view (judging.judge_statement (around_view around)
        (tree.Return at (option_map expr_view e.now)) (state_of context.old)) result
        (state_of context.new) }
{
    let v = returned(context, at, around.result, e)?;
    Ok(boxed(context, TypedStatement::Return(at, v))?)
}

/// A block.
#[cycle(statements)]
#[tactic(auto, using(c_tree::proofs::TypedStatementViewLaws::typed_statement_views), unfolding(c_unit_typing::specs::StatementJudging::judge_statement, c_unit_typing::specs::StatementJudging::within))]
fn block(
    context: &mut Context,
    around: Around,
    brace: Place,
    items: &[BlockItem],
) -> Result<Boxed<TypedStatement>, Fault>
    ensures { Answers typed_statement_view (judging.judge_statement (around_view around)
        (tree.Block brace (block_view items.now)) (state_of context.old)) result
        (state_of context.new) }
{
    enter(context)?;
    let list = block_items(context, around, None, items)?;
    leave(context, brace)?;
    Ok(boxed(context, TypedStatement::Block(brace, list))?)
}

/// A substatement of a selection or iteration statement, which is a block of its own (C99 6.8.4, 6.8.5).
#[cycle(statements)]
#[tactic(auto, unfolding(c_unit_typing::specs::StatementJudging::within))]
fn substatement(
    context: &mut Context,
    around: Around,
    at: Place,
    s: &Statement,
) -> Result<Boxed<TypedStatement>, Fault>
    ensures { Answers typed_statement_view (judging.within at
        (judging.judge_statement (around_view around) (statement_view s.now))
        (state_of context.old)) result (state_of context.new) }
{
    enter(context)?;
    let one = statement(context, around, s)?;
    leave(context, at)?;
    Ok(one)
}

/// `if` without `else`.
#[cycle(statements)]
#[tactic(auto, using(c_tree::proofs::TypedStatementViewLaws::typed_statement_views), unfolding(c_unit_typing::specs::StatementJudging::judge_statement, c_unit_typing::specs::StatementJudging::within))]
fn if_alone(
    context: &mut Context,
    around: Around,
    s: &Statement,
    at: Place,
    paren: Place,
    c: &Expr,
) -> Result<Boxed<TypedStatement>, Fault>
    ensures { Answers typed_statement_view (judging.judge_statement (around_view around)
        (tree.If at paren (expr_view c.now) (statement_view s.now)) (state_of context.old)) result
        (state_of context.new) }
{
    enter(context)?;
    let test = context.expr(c)?;
    let one = substatement(context, around, at, s)?;
    try_condition(context, at, test.get())?;
    leave(context, at)?;
    Ok(boxed(context, TypedStatement::If(at, paren, test, one))?)
}

/// The block of a `switch` on a value of the type.
#[cycle(statements)]
#[tactic(auto, unfolding(c_unit_typing::specs::StatementJudging::within))]
fn switch_block(
    context: &mut Context,
    around: Around,
    on: TypeId,
    brace: Place,
    items: &[BlockItem],
) -> Result<Items<TypedBlockItem>, Fault>
    ensures { Answers typed_block_view (judging.within brace
        (judging.judge_block_items (around_view around) (Some on) (block_view items.now))
        (state_of context.old)) result (state_of context.new) }
{
    enter(context)?;
    let list = block_items(context, around, Some(on), items)?;
    leave(context, brace)?;
    Ok(list)
}

/// `switch` (C99 6.8.4.2).
#[cycle(statements)]
#[tactic(auto, using(c_tree::proofs::TypedStatementViewLaws::typed_statement_views), unfolding(c_unit_typing::specs::StatementJudging::judge_statement, c_unit_typing::specs::StatementJudging::within))]
fn switch(
    context: &mut Context,
    around: Around,
    items: &[BlockItem],
    at: Place,
    paren: Place,
    e: &Expr,
    brace: Place,
) -> Result<Boxed<TypedStatement>, Fault>
    ensures { Answers typed_statement_view (judging.judge_statement (around_view around)
        (tree.Switch at paren (expr_view e.now) brace (block_view items.now))
        (state_of context.old)) result (state_of context.new) }
{
    enter(context)?;
    let value = context.expr(e)?;
    let from = value.get().ty();
    let on = promoted(context, at, value)?;
    let list = switch_block(context, around.in_a_switch(), on.get().ty(), brace, items)?;
    try_integer(context, at, from)?;
    leave(context, at)?;
    Ok(boxed(context, TypedStatement::Switch(at, paren, on, brace, list))?)
}

#[cycle(statements)]
#[tactic(auto, using(c_tree::proofs::TypedStatementViewLaws::typed_statement_views), unfolding(c_unit_typing::specs::StatementJudging::judge_statement, c_unit_typing::specs::StatementJudging::within))]
fn while_loop(
    context: &mut Context,
    around: Around,
    s: &Statement,
    at: Place,
    paren: Place,
    c: &Expr,
) -> Result<Boxed<TypedStatement>, Fault>
    ensures { Answers typed_statement_view (judging.judge_statement (around_view around)
        (tree.While at paren (expr_view c.now) (statement_view s.now)) (state_of context.old))
        result (state_of context.new) }
{
    enter(context)?;
    let test = context.expr(c)?;
    let one = substatement(context, around.in_a_loop(), at, s)?;
    try_condition(context, at, test.get())?;
    leave(context, at)?;
    Ok(boxed(context, TypedStatement::While(at, paren, test, one))?)
}

#[cycle(statements)]
#[tactic(auto, using(c_tree::proofs::TypedStatementViewLaws::typed_statement_views), unfolding(c_unit_typing::specs::StatementJudging::judge_statement, c_unit_typing::specs::StatementJudging::within))]
fn do_while(
    context: &mut Context,
    around: Around,
    s: &Statement,
    at: Place,
    paren: Place,
    c: &Expr,
) -> Result<Boxed<TypedStatement>, Fault>
    ensures { Answers typed_statement_view (judging.judge_statement (around_view around)
        (tree.DoWhile (statement_view s.now) at paren (expr_view c.now)) (state_of context.old))
        result (state_of context.new) }
{
    enter(context)?;
    let one = substatement(context, around.in_a_loop(), at, s)?;
    let test = context.expr(c)?;
    try_condition(context, at, test.get())?;
    leave(context, at)?;
    Ok(boxed(context, TypedStatement::DoWhile(one, at, paren, test))?)
}

/// `for` that begins with an expression or with none (C99 6.8.5.3).
#[cycle(statements)]
#[tactic(auto, using(c_tree::proofs::TypedStatementViewLaws::typed_statement_views), unfolding(c_unit_typing::specs::StatementJudging::judge_statement, c_unit_typing::specs::StatementJudging::within))]
fn for_loop(
    context: &mut Context,
    around: Around,
    s: &Statement,
    at: Place,
    paren: Place,
    first: &Option<Boxed<Expr>>,
    test: &Option<Boxed<Expr>>,
    step: &Option<Boxed<Expr>>,
) -> Result<Boxed<TypedStatement>, Fault>
    ensures { Answers typed_statement_view (judging.judge_statement (around_view around)
        (tree.For at paren (option_map expr_view first.now) (option_map expr_view test.now)
        (option_map expr_view step.now) (statement_view s.now)) (state_of context.old)) result
        (state_of context.new) }
{
    enter(context)?;
    let before = dropped(context, first)?;
    let c = dropped(context, test)?;
    let after = dropped(context, step)?;
    let one = substatement(context, around.in_a_loop(), at, s)?;
    try_condition_or_none(context, at, &c)?;
    leave(context, at)?;
    Ok(boxed(
        context,
        TypedStatement::For(at, paren, before, c, after, one),
    )?)
}

/// `for` that begins with a declaration, in a scope of its own (C99 6.8.5.3).
#[cycle(statements)]
#[tactic(auto, using(c_tree::proofs::TypedStatementViewLaws::typed_statement_views), unfolding(c_unit_typing::specs::StatementJudging::judge_statement, c_unit_typing::specs::StatementJudging::within))]
fn for_declaration(
    context: &mut Context,
    around: Around,
    s: &Statement,
    at: Place,
    paren: Place,
    d: &Declaration,
    test: &Option<Boxed<Expr>>,
    step: &Option<Boxed<Expr>>,
) -> Result<Boxed<TypedStatement>, Fault>
    ensures { Answers typed_statement_view (judging.judge_statement (around_view around)
        (tree.ForDeclaration at paren (declaration_view d.now) (option_map expr_view test.now)
        (option_map expr_view step.now) (statement_view s.now)) (state_of context.old)) result
        (state_of context.new) }
{
    enter(context)?;
    let before = boxed_declaration(context, d)?;
    let c = dropped(context, test)?;
    let after = dropped(context, step)?;
    let one = substatement(context, around.in_a_loop(), at, s)?;
    try_condition_or_none(context, at, &c)?;
    leave(context, at)?;
    Ok(boxed(
        context,
        TypedStatement::ForDeclaration(at, paren, before, c, after, one),
    )?)
}

/// A statement.
#[cycle(statements)]
#[tactic(auto, using(c_tree::proofs::StatementViewLaws::statement_views, c_tree::proofs::TypedStatementViewLaws::typed_statement_views), unfolding(c_unit_typing::specs::StatementJudging::judge_statement, c_unit_typing::specs::StatementJudging::within))]
fn statement(
    context: &mut Context,
    around: Around,
    s: &Statement,
) -> Result<Boxed<TypedStatement>, Fault>
    ensures { Answers typed_statement_view (judging.judge_statement (around_view around)
        (statement_view s.now) (state_of context.old)) result (state_of context.new) }
{
    match s {
        Statement::Block(brace, items) => block(context, around, *brace, items.as_slice()),
        Statement::Express(e) => {
            let v = context.expr(e)?;
            Ok(boxed(context, TypedStatement::Express(v.into_inner()))?)
        }
        Statement::Empty => Ok(boxed(context, TypedStatement::Empty)?),
        Statement::If(at, paren, c, s) => if_alone(context, around, s.get(), *at, *paren, c.get()),
        Statement::IfElse(at, paren, c, s, r) => {
            enter(context)?;
            let test = context.expr(c.get())?;
            let one = substatement(context, around, *at, s.get())?;
            let other = substatement(context, around, *at, r.get())?;
            let condition = test.get();
            try_condition(context, *at, condition)?;
            leave(context, *at)?;
            Ok(boxed(
                context,
                TypedStatement::IfElse(*at, *paren, test, one, other),
            )?)
        }
        Statement::Switch(at, paren, e, brace, items) => {
            switch(
                context,
                around,
                items.as_slice(),
                *at,
                *paren,
                e.get(),
                *brace,
            )
        }
        Statement::Break(at) => break_from(context, around, *at),
        Statement::Continue(at) => continue_in(context, around, *at),
        Statement::Return(at, e) => return_from(context, around, *at, e),
        Statement::While(at, paren, c, s) => while_loop(
            context,
            around,
            s.get(),
            *at,
            *paren,
            c.get(),
        ),
        Statement::DoWhile(s, at, paren, c) => do_while(
            context,
            around,
            s.get(),
            *at,
            *paren,
            c.get(),
        ),
        Statement::For(at, paren, first, test, step, s) => {
            for_loop(context, around, s.get(), *at, *paren, first, test, step)
        }
        Statement::ForDeclaration(at, paren, d, test, step, s) => {
            for_declaration(context, around, s.get(), *at, *paren, d.get(), test, step)
        }
    }
}

/// What a block holds after these items, which have these labels; `on` is the type of the `switch` whose block it is.
#[cycle(statements)]
#[tactic(auto, using(c_tree::proofs::StatementViewLaws::statement_views, c_tree::proofs::TypedStatementViewLaws::typed_statement_views), unfolding(c_unit_typing::specs::StatementJudging::judge_statement, c_unit_typing::specs::StatementJudging::default_label))]
fn block_item(
    context: &mut Context,
    around: Around,
    on: Option<TypeId>,
    labels: &mut Labels,
    item: &BlockItem,
) -> Result<TypedBlockItem, Fault>
    ensures answers { (all : tree.BlockItems) (start : UnitState) (list : TypedBlockItems)
        → judging.judge_block_items (around_view around) on all start
        ≡ Gives list (state_of context.old) → HoldsLabels labels.old list
        → Answers (λ one. typed_block_item_view one list)
        (judging.judge_block_items (around_view around) on (block_item_view item.now all) start)
        result (state_of context.new) }
    ensures labels { (list : TypedBlockItems) → HoldsLabels labels.old list
        → IfOk result (λ one. HoldsLabels labels.new (typed_block_item_view one list)) }
{
    match item {
        BlockItem::Statement(s) => {
            let one = statement(context, around, s)?;
            Ok(TypedBlockItem::Statement(one.into_inner()))
        }
        BlockItem::Declaration(d) => {
            let one = declaration(context, false, d)?;
            Ok(TypedBlockItem::Declaration(one))
        }
        BlockItem::Case(at, e) => {
            let (e, value) = case_label(context, on, labels, *at, e)?;
            Ok(TypedBlockItem::Case(*at, e.into_inner(), value))
        }
        BlockItem::Default(at) => {
            if labels.default {
                return Err(refusal(*at, Rule::Redeclared));
            }
            labels.default = true;
            Ok(TypedBlockItem::Default(*at))
        }
    }
}

/// What a block holds; `on` is the type of the `switch` whose block it is.
#[cycle(statements)]
#[tactic(auto, unfolding(c_unit_typing::specs::StatementJudging::judge_block_items))]
pub(crate) fn block_items(
    context: &mut Context,
    around: Around,
    on: Option<TypeId>,
    items: &[BlockItem],
) -> Result<Items<TypedBlockItem>, Fault>
    ensures { Answers typed_block_view (judging.judge_block_items (around_view around) on
        (block_view items.now) (state_of context.old)) result (state_of context.new) }
{
    let mut labels = Labels::new(context.scope.alloc());
    let mut list = Items::new(context.scope.alloc());
    for item in items {
        let one = block_item(context, around, on, &mut labels, item)?;
        list.push(one)?;
    }
    Ok(list)
}
