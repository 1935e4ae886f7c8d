//! What is known where a part of a unit is judged, and what is asked of its expressions.
#![tactic(auto)]

ghost use Rattle.std.specs.Prelude.{◌≡◌, IfOk, None};
ghost use Rattle.c_tree.specs.Views.{expr_view, specifiers_view, declarator_view};
ghost use Rattle.c_tree.specs.TypedViews.{typed_expr_view, typed_specifiers_view, typed_declarator_view};
ghost use Rattle.c_typing.specs.Assignments.{count_global};
ghost use Rattle.c_typing.specs.Cells.{count_cells};
ghost use Rattle.c_typing.specs.Checking.{checked, checked_value, checked_constant};
ghost use Rattle.c_check_walk.specs.CheckingViews.{constant_view};
ghost use Rattle.c_typing.specs.Judging.{known};
ghost use Rattle.c_typing.specs.Walks.{judge_specifiers_of, judge_declarator};
ghost use Rattle.c_tree.specs.TypedParts.{specified_type};
ghost use Rattle.c_unit_typing.specs.ParameterScopes.{level_of};
ghost use Rattle.c_check_context.specs.ContextViews.{state_of};
ghost use Rattle.c_unit_typing.specs.UnitJudging.{Answers, lifted};

use crate::linkage::Linkage;
use c_check_expr::{
    Level, check_constant, check_declarator, check_definition, check_expr, check_specifiers,
    check_value,
};
use c_check_operators::cells::count_cells;
use c_check_operators::literals::count_global;
use c_tree::{Boxed, Declarator, Expr, Specifiers, TypedDeclarator, TypedExpr, TypedSpecifiers};
use c_types::Types;
use c_typing::{Naming, Scope};
use cc_base::{Fault, Place, TypeId};

/// The types, what names stand for, and what has linkage.
#[derive(Drop)]
pub struct Context {
    /// The types so far.
    pub types: Types,
    /// What names and tags stand for, with the number of the next node and the counts.
    pub scope: Scope,
    /// What is known of names with linkage, and of objects that live as long as the program.
    pub linkage: Linkage,
}

impl Context {
    /// The value of an expression; a struct is not read.
    pub fn expr(&mut self, e: &Expr) -> Result<Boxed<TypedExpr>, Fault>
        ensures { Answers typed_expr_view (lifted (checked (expr_view e.now)) (state_of self.old))
            result (state_of self.new) }
    {
        let v = check_expr(&mut self.scope, &mut self.types, e)?;
        Ok(Boxed::new(self.scope.alloc(), v)?)
    }

    /// An expression that is converted to a type at a place.
    pub fn value(
        &mut self,
        to: TypeId,
        at: Place,
        init: bool,
        e: &Expr,
    ) -> Result<Boxed<TypedExpr>, Fault>
        ensures { Answers typed_expr_view (lifted (checked_value to at init (expr_view e.now))
            (state_of self.old)) result (state_of self.new) }
    {
        let v = check_value(&mut self.scope, &mut self.types, to, at, init, e)?;
        Ok(Boxed::new(self.scope.alloc(), v)?)
    }

    /// An integer constant expression and its value.
    pub fn constant(&mut self, e: &Expr) -> Result<(Boxed<TypedExpr>, i128), Fault>
        ensures { Answers constant_view (lifted (checked_constant (expr_view e.now))
            (state_of self.old)) result (state_of self.new) }
    {
        let (v, value) = check_constant(&mut self.scope, &mut self.types, e)?;
        Ok((Boxed::new(self.scope.alloc(), v)?, value))
    }

    /// Specifiers; `alone` says that no declarator follows.
    pub fn specifiers(
        &mut self,
        specifiers: &Specifiers,
        alone: bool,
    ) -> Result<TypedSpecifiers, Fault>
        ensures { Answers typed_specifiers_view (lifted (judge_specifiers_of alone
            (specifiers_view specifiers.now)) (state_of self.old)) result (state_of self.new) }
    {
        check_specifiers(&mut self.scope, &mut self.types, specifiers, alone)
    }

    /// A declarator behind specifiers.
    pub fn declarator(
        &mut self,
        naming: Naming,
        base: &TypedSpecifiers,
        size: Option<u64>,
        d: &Declarator,
    ) -> Result<TypedDeclarator, Fault>
        ensures { Answers typed_declarator_view (lifted (judge_declarator naming
            (typed_specifiers_view base.now) size (declarator_view d.now)) (state_of self.old))
            result (state_of self.new) }
    {
        check_declarator(&mut self.scope, &mut self.types, base, d, size, naming)
    }

    /// The declarator of a function definition, with the scope that its parameters leave.
    pub fn definition(
        &mut self,
        naming: Naming,
        base: &TypedSpecifiers,
        d: &Declarator,
    ) -> Result<(TypedDeclarator, Level), Fault>
        ensures level { IfOk result (λ made. level_of naming (specified_type
            (typed_specifiers_view base.now)) (declarator_view d.now)
            (known self.old.types self.old.scope) ≡ made.1) }
        ensures judged { Answers (λ made. typed_declarator_view made.0)
            (lifted (judge_declarator naming (typed_specifiers_view base.now) None
            (declarator_view d.now)) (state_of self.old)) result (state_of self.new) }
    {
        check_definition(&mut self.scope, &mut self.types, base, d, naming)
    }

    /// The pointers that the copy of a struct moves are counted.
    pub fn count_cells(&mut self, at: Place, t: TypeId) -> Result<TypeId, Fault>
        ensures { Answers (λ u. u) (lifted (count_cells at t) (state_of self.old)) result
            (state_of self.new) }
    {
        count_cells(&mut self.scope, &self.types, at, t)
    }

    /// The bytes of an object that lives as long as the program are counted.
    pub(crate) fn count_global(&mut self, at: Place, bytes: u64) -> Result<u64, Fault>
        ensures { Answers (λ n. n) (lifted (count_global at bytes) (state_of self.old)) result
            (state_of self.new) }
    {
        count_global(&mut self.scope, &self.types, at, bytes)
    }
}
