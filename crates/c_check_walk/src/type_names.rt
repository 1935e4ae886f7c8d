//! Type names (C99 6.7.6).
#![tactic(auto)]

ghost use Rattle.std.specs.Prelude.{option_map, suc};
ghost use Rattle.c_tree.specs.Depth.{declared_height, type_name_height};
ghost use Rattle.c_tree.specs.Views.{type_name_view, declarator_view, declared_of};
ghost use Rattle.c_tree.specs.TypedViews.{typed_type_name_view, typed_form_view, typed_declared_of};
ghost use Rattle.c_typing.specs.Growing.{Grows};
ghost use Rattle.c_typing.specs.Judging.{Answers, known};
ghost use Rattle.c_check_walk.specs.Nests.{Nests};
ghost use Rattle.c_typing.specs.Walks as walks;

use crate::walker::Walker;
use c_check_declarators::making::{Nearest, declared_makes};
use c_check_declarators::places::declared_place;
use c_tree::{
    Boxed, Declarator, Expr, Specifiers, TypeName, TypedForm, TypedSpecifiers, TypedTypeName,
};
use c_types::Types;
use c_typing::naming::Naming;
use c_typing::operand::Operand;
use c_typing::scope::Scope;
use cc_base::{Fault, Place};

impl<
    E: Fn(&mut Scope, &mut Types, bool, &Expr) -> Result<Operand, Fault>,
    S: Fn(&mut Scope, &mut Types, &Specifiers) -> Result<TypedSpecifiers, Fault>,
    D: Fn(&mut Scope, &mut Types, Naming, Place, &Declarator) -> Result<TypedForm, Fault>,
> Walker<E, S, D> {
    /// A declarator that may be left out.
    #[tactic(auto, unfolding(c_typing::specs::Walks::judge_declared))]
    pub(crate) fn declared(
        &self,
        scope: &mut Scope,
        types: &mut Types,
        which: Naming,
        at: Place,
        d: &Option<Declarator>,
    ) -> Result<Option<TypedForm>, Fault>
        requires nests { Nests (suc (declared_height (declared_of
            (option_map declarator_view d.now)))) (E.pre self.now.judge_expr)
            (E.post self.now.judge_expr) (S.pre self.now.judge_specifiers)
            (S.post self.now.judge_specifiers) (D.pre self.now.judge_form)
            (D.post self.now.judge_form) }
        ensures answers { Answers (λ form. typed_declared_of (option_map typed_form_view form))
            (walks.judge_declared which at (declared_of (option_map declarator_view d.now))
            (known types.old scope.old)) result (known types.new scope.new) }
        ensures grows { Grows (known types.old scope.old) (known types.new scope.new) }
    {
        match d {
            Some(d) => Ok(Some(self.form(scope, types, which, at, d)?)),
            None => Ok(None),
        }
    }

    #[tactic(auto, using(crate::proofs::NestLaws::nests, c_tree::proofs::ViewLaws::expr_views, c_tree::proofs::TypedViewLaws::typed_views), unfolding(c_typing::specs::Walks::judge_type_name))]
    pub(crate) fn type_name(
        &self,
        scope: &mut Scope,
        types: &mut Types,
        name: &TypeName,
    ) -> Result<Boxed<TypedTypeName>, Fault>
        requires nests { Nests (suc (type_name_height (type_name_view name.now)))
            (E.pre self.now.judge_expr) (E.post self.now.judge_expr)
            (S.pre self.now.judge_specifiers) (S.post self.now.judge_specifiers)
            (D.pre self.now.judge_form) (D.post self.now.judge_form) }
        ensures answers { Answers typed_type_name_view (walks.judge_type_name
            (type_name_view name.now) (known types.old scope.old)) result
            (known types.new scope.new) }
        ensures grows { Grows (known types.old scope.old) (known types.new scope.new) }
    {
        let at = declared_place(&name.specifiers, &name.declarator);
        let specifiers = self.specifiers(scope, types, &name.specifiers)?;
        let declarator = self.declared(scope, types, Naming::None, at, &name.declarator)?;
        let ty = declared_makes(
            scope,
            types,
            at,
            Nearest::Written,
            declarator.as_ref(),
            specifiers.ty,
        )?;
        let name = TypedTypeName {
            specifiers,
            declarator,
            ty,
        };
        Ok(Boxed::new(scope.alloc(), name)?)
    }
}
