//! The labels of a `switch` (C99 6.8.4.2).
#![tactic(auto)]

ghost use Rattle.std.specs.Prelude.{◌≡◌, [], ◌∷◌, ◌++◌, false, OnOk, IfOk};
ghost use Rattle.std.specs.List.{list_any};
ghost use Rattle.std.specs.Ordering.{int_eq};
ghost use Rattle.c_tree.specs.Views.{expr_view};
ghost use Rattle.c_tree.specs.TypedViews.{typed_expr_view};
ghost use Rattle.c_tree.specs.TypedTree as typed;
ghost use Rattle.c_tree.specs.TypedTree.{TypedBlockItems};
ghost use Rattle.c_check.specs.Labels.{HoldsLabels};
ghost use Rattle.c_check_context.specs.ContextViews.{state_of};
ghost use Rattle.c_unit_typing.specs.UnitJudging.{Answers};
ghost use Rattle.c_unit_typing.specs.StatementJudging as judging;

use c_check_context::Context;
use c_tree::{Boxed, Expr, TypedExpr};
use c_typing::shapes::integer_at;
use c_typing::stops::{no_room, refusal};
use c_typing::value::converted;
use cc_base::{Fault, NoMemory, Place, Rule, TypeId};
use indexmap::IndexSet;
use std::alloc::Global;
use std::marker::Model;

/// The values of labels. Contracts see the list of them.
#[derive(Drop)]
pub(crate) struct LabelValues(IndexSet<i128>);

impl Model for LabelValues {
    ghost use Rattle.std.specs.Prelude.{List, ℤ};

    ghost Value = { List ℤ };

    ghost view = { λ s. s.0.keys };
}

impl LabelValues {
    fn has(&self, value: i128) -> bool
        ensures { result ≡ list_any (λ each. int_eq value each) self.now }
    {
        self.0.contains(&value)
    }

    /// Adds a value that is new.
    fn add(&mut self, value: i128) -> Result<(), NoMemory>
        requires { list_any (λ each. int_eq value each) self.old ≡ false }
        ensures { OnOk result (self.new ≡ self.old ++ value ∷ []) }
    {
        self.0.insert(value)?;
        Ok(())
    }
}

/// The labels of a block so far.
pub(crate) struct Labels {
    pub(crate) values: LabelValues,
    /// Whether there is a `default`.
    pub(crate) default: bool,
}

impl Drop for Labels {
    fn drop(self) {
        let Self {
            values: _,
            default: _,
        } = self;
    }
}

impl Labels {
    /// None. Takes no memory.
    pub(crate) fn new(alloc: Global) -> Labels
        ensures { HoldsLabels result typed.NoBlockItem }
    {
        Labels {
            values: LabelValues(IndexSet::new(alloc)),
            default: false,
        }
    }
}

/// A constant as a label of a `switch` on a value of the type; where that is no integer it stays as it is.
fn label_value(context: &Context, on: Option<TypeId>, value: i128) -> Option<i128>
    ensures { result ≡ judging.label_as context.now.types on value }
{
    match integer_at(&context.types, on?) {
        None => Some(value),
        Some(kind) => Some(converted(kind, value)),
    }
}

/// `case`: its expression, and its value in the type of the `switch`.
#[tactic(auto, unfolding(c_unit_typing::specs::StatementJudging::case_label, c_unit_typing::specs::StatementJudging::labelled))]
pub(crate) fn case_label(
    context: &mut Context,
    on: Option<TypeId>,
    labels: &mut Labels,
    at: Place,
    e: &Expr,
) -> Result<(Boxed<TypedExpr>, i128), Fault>
    ensures answers { (list : TypedBlockItems) → HoldsLabels labels.old list
        → Answers (λ c. typed.AndCase list at (typed_expr_view c.0) c.1)
        (judging.case_label on at (expr_view e.now) list (state_of context.old)) result
        (state_of context.new) }
    ensures labels { IfOk result (λ c. labels.new ≡ record labels.old
        { values = labels.old.values ++ c.1 ∷ [] }) }
{
    let (e, value) = context.constant(e)?;
    let Some(value) = label_value(context, on, value) else {
        return Err(no_room(at));
    };
    if labels.values.has(value) {
        return Err(refusal(at, Rule::Redeclared));
    }
    labels.values.add(value)?;
    Ok((e, value))
}
