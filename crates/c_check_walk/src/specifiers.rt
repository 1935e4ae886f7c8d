//! Lists of specifiers (C99 6.7.2).
#![tactic(auto)]

ghost use Rattle.std.specs.Prelude.{◌≡◌, IfOk, map, option_copied, suc};
ghost use Rattle.c_tree.specs.Depth.{enumerators_height, members_height, specifier_height, specifiers_height};
ghost use Rattle.c_tree.specs.Tree as tree;
ghost use Rattle.c_tree.specs.Views.{added, enumerator_view, members_view, specifier_view, specifiers_of, specifiers_view};
ghost use Rattle.c_tree.specs.TypedViews.{typed_specifier_view, typed_specifiers_view};
ghost use Rattle.c_typing.specs.Declarators.{counting, named_by_specifier};
ghost use Rattle.c_typing.specs.Growing.{Grows};
ghost use Rattle.c_typing.specs.Judging.{Answers, known};
ghost use Rattle.c_check_walk.specs.Nests.{Nests};
ghost use Rattle.c_check_walk.specs.NamedViews.{named_view};
ghost use Rattle.c_typing.specs.Specifying as specifying;
ghost use Rattle.c_typing.specs.Walks as walks;

use crate::walker::Walker;
use c_check_declarators::aggregates::{begun, ended, tag_named_here, tag_place};
use c_check_declarators::enumerations::{
    enumeration_begun, enumeration_ended, is_taken_enumeration,
};
use c_check_declarators::specifying::{enum_named, tagged, typedef_name, word};
use c_check_declarators::words::Words;
use c_tree::{
    AggregateKind, Declarator, Enumerator, Expr, Identifier, Items, Members, Specifier, Specifiers,
    TypedForm, TypedSpecifier, TypedSpecifiers,
};
use c_types::Types;
use c_typing::copies::copied_tag;
use c_typing::member::MemberNames;
use c_typing::naming::Naming;
use c_typing::operand::Operand;
use c_typing::scope::Scope;
use c_typing::stops::refusal;
use cc_base::{Fault, Place, Rule, TypeId};

/// What a specifier names besides words.
#[derive(Clone, Copy)]
pub(crate) enum Named {
    Nothing,
    Type(TypeId),
    Enumeration,
}

/// What a list names with a specifier more.
#[tactic(auto, using(c_tree::proofs::TypedViewLaws::typed_views))]
pub(crate) fn named_with(specifier: &TypedSpecifier, before: Named) -> Named
    ensures { named_view result ≡ named_by_specifier (typed_specifier_view specifier.now)
        (named_view before) }
{
    match specifier {
        TypedSpecifier::Keyword(_) => before,
        TypedSpecifier::Typedef(_, t) => Named::Type(*t),
        TypedSpecifier::Tagged(_, _, _, t) => Named::Type(*t),
        TypedSpecifier::Aggregate(_, _, _, _, _, t) => Named::Type(*t),
        TypedSpecifier::Enum(_, _) => Named::Enumeration,
        TypedSpecifier::Enumeration(_, _, _, _, _) => Named::Enumeration,
    }
}

/// The type that specifiers name together.
pub(crate) fn listed_type(named: Named, words: &Words) -> TypeId
    ensures { result ≡ specifying.listed_type (named_view named) words.now }
{
    match named {
        Named::Nothing => words.ty(),
        Named::Type(t) => t,
        Named::Enumeration => TypeId(5),
    }
}

impl<
    E: Fn(&mut Scope, &mut Types, bool, &Expr) -> Result<Operand, Fault>,
    S: Fn(&mut Scope, &mut Types, &Specifiers) -> Result<TypedSpecifiers, Fault>,
    D: Fn(&mut Scope, &mut Types, Naming, Place, &Declarator) -> Result<TypedForm, Fault>,
> Walker<E, S, D> {
    /// A struct or union with its members.
    #[tactic(auto, using(c_tree::proofs::TypedViewLaws::typed_views), unfolding(c_typing::specs::Walks::judge_specifier))]
    fn aggregate(
        &self,
        scope: &mut Scope,
        types: &mut Types,
        before: &Words,
        which: AggregateKind,
        at: Place,
        name: Option<&Identifier>,
        brace: Place,
        rows: &[Members],
    ) -> Result<(TypedSpecifier, Words), Fault>
        requires nests { Nests (suc (members_height (added tree.NoMember
            (map members_view rows.now)))) (E.pre self.now.judge_expr) (E.post self.now.judge_expr)
            (S.pre self.now.judge_specifiers) (S.post self.now.judge_specifiers)
            (D.pre self.now.judge_form) (D.post self.now.judge_form) }
        ensures answers { Answers (λ r. typed_specifier_view r.0)
            (walks.judge_specifier before.now (tree.Aggregate which at
            (option_copied name.entry) brace (added tree.NoMember (map members_view rows.now)))
            (known types.old scope.old)) result (known types.new scope.new) }
        ensures counts { IfOk result (λ r. r.1 ≡ counting (typed_specifier_view r.0) before.now) }
        ensures grows { Grows (known types.old scope.old) (known types.new scope.new) }
    {
        let t = begun(scope, types, which, at, name)?;
        let mut names = MemberNames::new(scope.alloc());
        let rows = self.members(scope, types, &mut names, rows)?;
        let (t, words) = ended(scope, types, before, at, name, t, rows.as_slice(), names)?;
        let name = copied_tag(scope.alloc(), name)?;
        Ok((
            TypedSpecifier::Aggregate(which, at, name, brace, rows, t),
            words,
        ))
    }

    /// An enumeration with its enumerators.
    #[tactic(auto, using(c_tree::proofs::TypedViewLaws::typed_views), unfolding(c_typing::specs::Walks::judge_specifier, c_typing::specs::Specifying::enumeration))]
    fn enumeration(
        &self,
        scope: &mut Scope,
        types: &mut Types,
        before: &Words,
        at: Place,
        name: Option<&Identifier>,
        brace: Place,
        list: &[Enumerator],
        comma: bool,
    ) -> Result<(TypedSpecifier, Words), Fault>
        requires nests { Nests (suc (enumerators_height (added tree.NoEnumerator
            (map enumerator_view list.now)))) (E.pre self.now.judge_expr)
            (E.post self.now.judge_expr) (S.pre self.now.judge_specifiers)
            (S.post self.now.judge_specifiers) (D.pre self.now.judge_form)
            (D.post self.now.judge_form) }
        ensures answers { Answers (λ r. typed_specifier_view r.0)
            (walks.judge_specifier before.now (tree.Enumeration at (option_copied name.entry) brace
            (added tree.NoEnumerator (map enumerator_view list.now)) comma)
            (known types.old scope.old)) result (known types.new scope.new) }
        ensures counts { IfOk result (λ r. r.1 ≡ counting (typed_specifier_view r.0) before.now) }
        ensures grows { Grows (known types.old scope.old) (known types.new scope.new) }
    {
        enumeration_begun(scope, name)?;
        let list = self.enumerators(scope, types, list)?;
        if is_taken_enumeration(tag_named_here(scope, name)) {
            return Err(refusal(tag_place(at, name), Rule::Redeclared));
        }
        let Some(words) = before.with_name() else {
            return Err(refusal(at, Rule::Mismatch));
        };
        enumeration_ended(scope, name)?;
        let name = copied_tag(scope.alloc(), name)?;
        Ok((
            TypedSpecifier::Enumeration(at, name, brace, list, comma),
            words,
        ))
    }

    /// A specifier after those that are judged, which are counted.
    #[tactic(auto, using(c_tree::proofs::ViewLaws::expr_views, c_tree::proofs::TypedViewLaws::typed_views), unfolding(c_typing::specs::Walks::judge_specifier))]
    fn specifier(
        &self,
        scope: &mut Scope,
        types: &mut Types,
        before: &Words,
        one: &Specifier,
    ) -> Result<(TypedSpecifier, Words), Fault>
        requires nests { Nests (suc (specifier_height (specifier_view one.now)))
            (E.pre self.now.judge_expr) (E.post self.now.judge_expr)
            (S.pre self.now.judge_specifiers) (S.post self.now.judge_specifiers)
            (D.pre self.now.judge_form) (D.post self.now.judge_form) }
        ensures answers { Answers (λ r. typed_specifier_view r.0)
            (walks.judge_specifier before.now (specifier_view one.now) (known types.old scope.old))
            result (known types.new scope.new) }
        ensures counts { IfOk result (λ r. r.1 ≡ counting (typed_specifier_view r.0) before.now) }
        ensures grows { Grows (known types.old scope.old) (known types.new scope.new) }
    {
        match one {
            Specifier::Keyword(w) => word(before, *w),
            Specifier::Typedef(name) => typedef_name(scope, types, before, name),
            Specifier::Tagged(which, at, name) => tagged(scope, types, before, *which, *at, name),
            Specifier::Aggregate(which, at, name, brace, rows) => self.aggregate(
                scope,
                types,
                before,
                *which,
                *at,
                name.as_ref(),
                *brace,
                rows.as_slice(),
            ),
            Specifier::Enum(at, name) => enum_named(scope, types, before, *at, name),
            Specifier::Enumeration(at, name, brace, list, comma) => self.enumeration(
                scope,
                types,
                before,
                *at,
                name.as_ref(),
                *brace,
                list.as_slice(),
                *comma,
            ),
        }
    }

    /// Specifiers, one after another.
    #[tactic(auto, using(crate::proofs::StayLaws::none_judged))]
    fn listed(
        &self,
        scope: &mut Scope,
        types: &mut Types,
        specifiers: &[Specifier],
    ) -> Result<TypedSpecifiers, Fault>
        requires nests { Nests (suc (specifiers_height (specifiers_of
            (map specifier_view specifiers.now)))) (E.pre self.now.judge_expr)
            (E.post self.now.judge_expr) (S.pre self.now.judge_specifiers)
            (S.post self.now.judge_specifiers) (D.pre self.now.judge_form)
            (D.post self.now.judge_form) }
        ensures answers { Answers typed_specifiers_view (walks.judge_specifiers
            (specifiers_of (map specifier_view specifiers.now)) (known types.old scope.old)) result
            (known types.new scope.new) }
        ensures grows { Grows (known types.old scope.old) (known types.new scope.new) }
    {
        let mut list = Items::new(scope.alloc());
        let mut words = Words::none();
        let mut named = Named::Nothing;
        for one in specifiers {
            let (specifier, counted) = self.specifier(scope, types, &words, one)?;
            named = named_with(&specifier, named);
            words = counted;
            list.push(specifier)?;
        }
        let ty = listed_type(named, &words);
        Ok(TypedSpecifiers { list, ty })
    }

    /// A list of specifiers.
    #[tactic(auto, using(c_tree::proofs::ViewLaws::expr_views))]
    pub(crate) fn specifier_list(
        &self,
        scope: &mut Scope,
        types: &mut Types,
        specifiers: &Specifiers,
    ) -> Result<TypedSpecifiers, Fault>
        requires nests { Nests (suc (specifiers_height (specifiers_view specifiers.now)))
            (E.pre self.now.judge_expr) (E.post self.now.judge_expr)
            (S.pre self.now.judge_specifiers) (S.post self.now.judge_specifiers)
            (D.pre self.now.judge_form) (D.post self.now.judge_form) }
        ensures answers { Answers typed_specifiers_view (walks.judge_specifiers
            (specifiers_view specifiers.now) (known types.old scope.old)) result
            (known types.new scope.new) }
        ensures grows { Grows (known types.old scope.old) (known types.new scope.new) }
    {
        self.listed(scope, types, specifiers.list.as_slice())
    }
}
