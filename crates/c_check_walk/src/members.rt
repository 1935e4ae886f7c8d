//! Rows of members (C99 6.7.2.1).
#![tactic(auto)]

ghost use Rattle.std.specs.Prelude.{◌≡◌, ◌++◌, ◌∷◌, [], false, None, Some, IfOk, List, map, option_copied, suc};
ghost use Rattle.c_tree.specs.Depth.{declarator_height, member_declarators_height, members_height};
ghost use Rattle.c_tree.specs.Tree as tree;
ghost use Rattle.c_tree.specs.Tree.{NoMember, MemberDeclarators, AndDeclarator as and_declarator};
ghost use Rattle.c_tree.specs.TypedParts.{name_of};
ghost use Rattle.c_tree.specs.TypedTree as typed;
ghost use Rattle.c_tree.specs.TypedTree.{NoMember as no_typed_member, TypedMemberDeclarators, AndDeclarator, Declares};
ghost use Rattle.c_tree.specs.Views.{added, declarator_view, members_view, member_declarators_of};
ghost use Rattle.c_tree.specs.TypedViews.{typed_declarator_view, typed_form_view, typed_members_view, typed_member_declarators_of};
ghost use Rattle.c_typing.specs.Declarators.{declarator_names, member_names, name_bytes};
ghost use Rattle.c_typing.specs.Declaring as declaring;
ghost use Rattle.c_typing.specs.Growing.{Grows};
ghost use Rattle.c_typing.specs.Judging.{Answers, Gives, State, known};
ghost use Rattle.c_check_walk.specs.Nests.{Nests};
ghost use Rattle.c_typing.specs.Refusals.{has_name};
ghost use Rattle.c_typing.specs.Scopes.{Name, place_among};
ghost use Rattle.c_typing.specs.Walks as walks;

use crate::walker::Walker;
use c_check_declarators::making::{Nearest, form_makes};
use c_check_declarators::places::{declarator_name, name_place};
use c_tree::{
    Declarator, Expr, Identifier, Items, Members, Specifiers, TypedDeclarator, TypedForm,
    TypedMembers, TypedSpecifiers,
};
use c_types::Types;
use c_typing::member::MemberNames;
use c_typing::naming::Naming;
use c_typing::operand::Operand;
use c_typing::scope::Scope;
use c_typing::shapes::is_complete_at;
use c_typing::stops::{no_room, refusal};
use cc_base::{Fault, Place, Rule, TypeId};

/// The first place of a text.
const NOWHERE: Place = Place { line: 1, col: 1 };

/// The type of a member, which is complete.
#[tactic(auto, unfolding(c_typing::specs::Declaring::member_type))]
fn member_type(
    scope: &Scope,
    types: &mut Types,
    at: Place,
    form: &TypedForm,
    base: TypeId,
) -> Result<TypeId, Fault>
    ensures answers { Answers (λ t. t) (declaring.member_type at (typed_form_view form.now) base
        (known types.old scope.now)) result (known types.new scope.now) }
    ensures grows { Grows (known types.old scope.now) (known types.new scope.now) }
{
    let t = form_makes(scope, types, at, Nearest::Written, form, base)?;
    if !is_complete_at(scope, types, t) {
        return Err(refusal(at, Rule::Incomplete));
    }
    Ok(t)
}

/// Whether one of the names is this.
#[tactic(auto, using(crate::proofs::MemberLaws::named_at))]
fn has_name(names: &MemberNames, name: &Identifier) -> bool
    ensures has { result ≡ has_name names.now (Some name.now) }
    ensures fresh { result ≡ false → place_among names.now name.now.bytes ≡ None }
{
    names.place(name.bytes.as_slice()).is_some()
}

/// The type of a member whose form is judged; its name is added to those before it.
#[tactic(auto, unfolding(c_typing::specs::Declaring::member_named))]
fn member_named(
    scope: &Scope,
    types: &mut Types,
    names: &mut MemberNames,
    form: &TypedForm,
    base: TypeId,
    name: Option<&Identifier>,
) -> Result<TypeId, Fault>
    ensures answers { (all : TypedMemberDeclarators) → Answers
        (λ t. AndDeclarator all (Declares (typed_form_view form.now) t))
        (declaring.member_named names.old all (typed_form_view form.now) base
        (option_copied name.entry) (known types.old scope.now)) result (known types.new scope.now) }
    ensures named { IfOk result (λ t. names.new ≡ names.old ++ name_bytes
        (option_copied name.entry) ∷ []) }
    ensures grows { Grows (known types.old scope.now) (known types.new scope.now) }
{
    let Some(name) = name else {
        return Err(no_room(NOWHERE));
    };
    if has_name(names, name) {
        return Err(refusal(name.place, Rule::Redeclared));
    }
    let t = member_type(scope, types, name.place, form, base)?;
    names.push(scope.alloc(), name.bytes.as_slice())?;
    Ok(t)
}

impl<
    E: Fn(&mut Scope, &mut Types, bool, &Expr) -> Result<Operand, Fault>,
    S: Fn(&mut Scope, &mut Types, &Specifiers) -> Result<TypedSpecifiers, Fault>,
    D: Fn(&mut Scope, &mut Types, Naming, Place, &Declarator) -> Result<TypedForm, Fault>,
> Walker<E, S, D> {
    /// A member after those of its row; its name is added to those before it.
    #[tactic(auto, using(c_tree::proofs::TypedViewLaws::typed_views, crate::proofs::NameLaws::form_name_kept), unfolding(c_typing::specs::Walks::judge_member_declarators))]
    fn member(
        &self,
        scope: &mut Scope,
        types: &mut Types,
        names: &mut MemberNames,
        base: TypeId,
        d: &Declarator,
    ) -> Result<TypedDeclarator, Fault>
        requires nests { Nests (suc (declarator_height (declarator_view d.now)))
            (E.pre self.now.judge_expr) (E.post self.now.judge_expr)
            (S.pre self.now.judge_specifiers) (S.post self.now.judge_specifiers)
            (D.pre self.now.judge_form) (D.post self.now.judge_form) }
        ensures answers { (start : State) (first : List Name) (before : MemberDeclarators)
            (done : TypedMemberDeclarators) → first ++ declarator_names done ≡ names.old
            → walks.judge_member_declarators base first before start
            ≡ Gives done (known types.old scope.old) → Answers
            (λ made. AndDeclarator done (typed_declarator_view made))
            (walks.judge_member_declarators base first (and_declarator before
            (declarator_view d.now)) start) result (known types.new scope.new) }
        ensures named { IfOk result (λ made. names.new ≡ names.old ++ name_bytes
            (name_of (typed_declarator_view made)) ∷ []) }
        ensures grows { Grows (known types.old scope.old) (known types.new scope.new) }
    {
        let name = declarator_name(d);
        let form = self.form(scope, types, Naming::None, name_place(name, NOWHERE), d)?;
        let ty = member_named(scope, types, names, &form, base, name)?;
        Ok(TypedDeclarator {
            form,
            ty,
            home: None,
        })
    }

    /// The members of a row; their names are added to those before.
    #[tactic(auto, using(c_tree::proofs::PushLaws::pushes, c_tree::proofs::TypedPushLaws::typed_pushes, crate::proofs::StayLaws::none_judged))]
    fn row(
        &self,
        scope: &mut Scope,
        types: &mut Types,
        names: &mut MemberNames,
        base: TypeId,
        list: &[Declarator],
    ) -> Result<Items<TypedDeclarator>, Fault>
        requires nests { Nests (suc (member_declarators_height
            (member_declarators_of (map declarator_view list.now)))) (E.pre self.now.judge_expr)
            (E.post self.now.judge_expr) (S.pre self.now.judge_specifiers)
            (S.post self.now.judge_specifiers) (D.pre self.now.judge_form)
            (D.post self.now.judge_form) }
        ensures answers { Answers (λ found. typed_member_declarators_of
            (map typed_declarator_view found)) (walks.judge_member_declarators base names.old
            (member_declarators_of (map declarator_view list.now)) (known types.old scope.old))
            result (known types.new scope.new) }
        ensures named { IfOk result (λ found. names.new ≡ names.old ++ declarator_names
            (typed_member_declarators_of (map typed_declarator_view found))) }
        ensures grows { Grows (known types.old scope.old) (known types.new scope.new) }
    {
        let mut found = Items::new(scope.alloc());
        for d in list {
            found.push(self.member(scope, types, names, base, d)?)?;
        }
        Ok(found)
    }

    /// A row after those that are judged, whose names are these.
    #[tactic(auto, using(crate::proofs::NestLaws::nests, c_tree::proofs::ViewLaws::expr_views, c_tree::proofs::TypedViewLaws::typed_views), unfolding(c_typing::specs::Walks::judge_members))]
    fn members_row(
        &self,
        scope: &mut Scope,
        types: &mut Types,
        names: &mut MemberNames,
        row: &Members,
    ) -> Result<TypedMembers, Fault>
        requires nests { Nests (suc (members_height (members_view row.now tree.NoMember)))
            (E.pre self.now.judge_expr) (E.post self.now.judge_expr)
            (S.pre self.now.judge_specifiers) (S.post self.now.judge_specifiers)
            (D.pre self.now.judge_form) (D.post self.now.judge_form) }
        ensures answers { (start : State) (before : tree.Members) (done : typed.TypedMembers)
            → member_names done ≡ names.old → walks.judge_members before start
            ≡ Gives done (known types.old scope.old) → Answers
            (λ made. typed_members_view made done) (walks.judge_members
            (members_view row.now before) start) result (known types.new scope.new) }
        ensures named { IfOk result (λ made. (done : typed.TypedMembers) → member_names done
            ≡ names.old → member_names (typed_members_view made done) ≡ names.new) }
        ensures grows { Grows (known types.old scope.old) (known types.new scope.new) }
    {
        let specifiers = self.specifiers(scope, types, &row.specifiers)?;
        let base = specifiers.ty;
        let declarators = self.row(scope, types, names, base, row.declarators.as_slice())?;
        Ok(TypedMembers {
            specifiers,
            declarators,
        })
    }

    /// Rows of members, one after another.
    #[tactic(auto, using(c_tree::proofs::PushLaws::pushes, crate::proofs::StayLaws::none_judged))]
    pub(crate) fn members(
        &self,
        scope: &mut Scope,
        types: &mut Types,
        names: &mut MemberNames,
        rows: &[Members],
    ) -> Result<Items<TypedMembers>, Fault>
        requires nests { Nests (suc (members_height (added NoMember (map members_view rows.now))))
            (E.pre self.now.judge_expr) (E.post self.now.judge_expr)
            (S.pre self.now.judge_specifiers) (S.post self.now.judge_specifiers)
            (D.pre self.now.judge_form) (D.post self.now.judge_form) }
        ensures answers { member_names no_typed_member ≡ names.old
            → Answers (λ found. added no_typed_member (map typed_members_view found))
            (walks.judge_members (added NoMember (map members_view rows.now))
            (known types.old scope.old)) result (known types.new scope.new) }
        ensures named { IfOk result (λ found. member_names no_typed_member ≡ names.old
            → member_names (added no_typed_member (map typed_members_view found)) ≡ names.new) }
        ensures grows { Grows (known types.old scope.old) (known types.new scope.new) }
    {
        let mut found = Items::new(scope.alloc());
        for row in rows {
            found.push(self.members_row(scope, types, names, row)?)?;
        }
        Ok(found)
    }
}
