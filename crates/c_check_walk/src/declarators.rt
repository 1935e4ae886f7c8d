//! What stands in a declarator (C99 6.7.5): nodes, homes, sizes and parameters, in the order of the text.
#![tactic(auto)]

ghost use Rattle.std.specs.Prelude.{◌≡◌, IfOk, List, map, suc};
ghost use Rattle.c_types.specs.Table.{Table};
ghost use Rattle.c_tree.specs.Depth.{core_height, declarator_height, parameters_height, parts_height};
ghost use Rattle.c_tree.specs.Tree.{Parts, NoPart, AndFunction, NoParameter};
ghost use Rattle.c_tree.specs.TypedTree.{TypedParts, AndSizedArray, NoPart as no_typed_part};
ghost use Rattle.c_tree.specs.Views.{added, core_view, declarator_view, parameter_view, part_view};
ghost use Rattle.c_tree.specs.TypedViews.{typed_core_view, typed_form_view, typed_part_view};
ghost use Rattle.c_typing.specs.Declaring as declaring;
ghost use Rattle.c_typing.specs.Growing.{Grows};
ghost use Rattle.c_typing.specs.Judging.{Answers, Gives, State, known, new_node};
ghost use Rattle.c_check_walk.specs.Nests.{Nests};
ghost use Rattle.c_typing.specs.OperandViews.{value_view};
ghost use Rattle.c_typing.specs.Scopes.{Seen};
ghost use Rattle.c_typing.specs.Tests as tests;
ghost use Rattle.c_typing.specs.Tests.{first_broken, AsValue};
ghost use Rattle.c_typing.specs.Walks as walks;

use crate::walker::Walker;
use c_tree::{
    Boxed, Core, Declarator, Expr, Home, Items, Parameter, Part, Specifiers, Star, TypedCore,
    TypedForm, TypedPart, TypedSpecifiers, TypedStar, Word,
};
use c_types::Types;
use c_typing::constant::constant_value;
use c_typing::copies::{copied_name, copied_star, copied_words};
use c_typing::naming::Naming;
use c_typing::operand::{Operand, Value};
use c_typing::scope::Scope;
use c_typing::stops::{no_room, refusal};
use cc_base::{Fault, NodeId, Place, Rule};

/// A new node for what is named at the place.
#[tactic(auto, using(c_typing::proofs::GrowingLaws::grown), unfolding(c_typing::specs::Judging::new_node))]
pub(crate) fn node_at(scope: &mut Scope, at: Place) -> Result<NodeId, Fault>
    ensures answers { (table : Table) → Answers (λ n. n)
        (new_node at (known table scope.old)) result (known table scope.new) }
    ensures same { scope.new.scopes ≡ scope.old.scopes }
    ensures grows { (table : Table) → Grows (known table scope.old) (known table scope.new) }
{
    match scope.new_node() {
        Some(node) => Ok(node),
        None => Err(no_room(at)),
    }
}

/// The home of a name, whose node is made where the name stands. Fails where no node is left.
#[tactic(auto, unfolding(c_typing::specs::Declaring::home_as))]
pub fn home_as(scope: &mut Scope, at: Place, which: Naming) -> Result<Home, Fault>
    ensures answers { (table : Table) → Answers (λ home. home)
        (declaring.home_as at which (known table scope.old)) result (known table scope.new) }
    ensures grows { (table : Table) → Grows (known table scope.old) (known table scope.new) }
{
    match which {
        Naming::None => Ok(Home::None),
        Naming::Static => Ok(Home::Static(node_at(scope, at)?)),
        Naming::Local => Ok(Home::Local(node_at(scope, at)?)),
        Naming::Parameter => Ok(Home::Parameter(node_at(scope, at)?)),
        Naming::Known(node) => Ok(Home::Known(node)),
    }
}

/// A star with a node of its own.
fn star_with_node(scope: &mut Scope, at: Place, star: &Star) -> Result<TypedStar, Fault>
    ensures ok { (table : Table) → Answers (λ s. s.node)
        (new_node at (known table scope.old)) result (known table scope.new) }
    ensures same { IfOk result (λ s. s.star ≡ star.now) }
    ensures grows { (table : Table) → Grows (known table scope.old) (known table scope.new) }
{
    let node = node_at(scope, at)?;
    let star = copied_star(scope.alloc(), star)?;
    Ok(TypedStar { star, node })
}

/// The nodes of stars, in the order of the text. Fails where no node is left, or memory is wanted.
pub fn stars_with_nodes(
    scope: &mut Scope,
    at: Place,
    stars: &[Star],
) -> Result<Items<TypedStar>, Fault>
    ensures answers { (table : Table) → Answers (λ found. found)
        (declaring.stars_with_nodes at stars.now (known table scope.old)) result
        (known table scope.new) }
    ensures grows { (table : Table) → Grows (known table scope.old) (known table scope.new) }
{
    let mut found = Items::new(scope.alloc());
    for star in stars {
        found.push(star_with_node(scope, at, star)?)?;
    }
    Ok(found)
}

/// Whether a constant is the size of an array.
fn is_size(size: Option<i128>) -> bool
    ensures { result ≡ tests.is_size size }
{
    match size {
        Some(z) => z > 0,
        None => false,
    }
}

/// The rules of an array part's size: it is constant, and above 0.
fn size_fault(types: &Types, v: &Value) -> Option<Fault>
    ensures { result ≡ first_broken (tests.array_size_tests types.now v.now.place
        (AsValue (value_view v.now).expr)) }
{
    if is_size(constant_value(types, v.expr.get())) {
        None
    } else {
        Some(refusal(v.place, Rule::NotConstant))
    }
}

/// The size that a constant gives.
fn size_given(size: Option<i128>) -> Option<u64>
    ensures { result ≡ declaring.size_given size }
{
    match size {
        Some(z) => u64::try_from(z).ok(),
        None => None,
    }
}

/// The size of an array part.
#[tactic(auto, unfolding(c_typing::specs::Declaring::sized, c_typing::specs::Declaring::sized_part))]
fn size_of_array(types: &Types, v: &Value) -> Result<u64, Fault>
    ensures { (seen : Seen) (all : TypedParts) (at : Place) (words : List Word)
        → Answers (AndSizedArray all at words (value_view v.now).expr)
        (declaring.sized all at words (value_view v.now) (known types.now seen)) result
        (known types.now seen) }
{
    if let Some(fault) = size_fault(types, v) {
        return Err(fault);
    }
    match size_given(constant_value(types, v.expr.get())) {
        Some(size) => Ok(size),
        None => Err(no_room(v.place)),
    }
}

/// An array part whose size is judged.
#[tactic(auto, using(c_tree::proofs::TypedViewLaws::typed_views))]
fn sized(
    scope: &Scope,
    types: &Types,
    at: Place,
    words: &[Word],
    v: Value,
) -> Result<TypedPart, Fault>
    ensures { (all : TypedParts) → Answers (λ part. typed_part_view part all)
        (declaring.sized all at words.now (value_view v) (known types.now scope.now)) result
        (known types.now scope.now) }
{
    let size = size_of_array(types, &v)?;
    let words = copied_words(scope.alloc(), words)?;
    Ok(TypedPart::SizedArray(at, words, v.expr.into_inner(), size))
}

impl<
    E: Fn(&mut Scope, &mut Types, bool, &Expr) -> Result<Operand, Fault>,
    S: Fn(&mut Scope, &mut Types, &Specifiers) -> Result<TypedSpecifiers, Fault>,
    D: Fn(&mut Scope, &mut Types, Naming, Place, &Declarator) -> Result<TypedForm, Fault>,
> Walker<E, S, D> {
    /// A function part after the parts that are judged.
    #[tactic(auto, using(c_tree::proofs::TypedViewLaws::typed_views, crate::proofs::PartLaws::function_judged))]
    fn function_part(
        &self,
        scope: &mut Scope,
        types: &mut Types,
        at: Place,
        paren: Place,
        parameters: &[Parameter],
    ) -> Result<TypedPart, Fault>
        requires nests { Nests (suc (parameters_height (added NoParameter
            (map parameter_view parameters.now)))) (E.pre self.now.judge_expr)
            (E.post self.now.judge_expr) (S.pre self.now.judge_specifiers)
            (S.post self.now.judge_specifiers) (D.pre self.now.judge_form)
            (D.post self.now.judge_form) }
        ensures answers { (start : State) (before : Parts) (done : TypedParts)
            → walks.judge_parts at before start ≡ Gives done (known types.old scope.old)
            → Answers (λ made. typed_part_view made done)
            (walks.judge_parts at (AndFunction before paren
            (added NoParameter (map parameter_view parameters.now))) start) result
            (known types.new scope.new) }
        ensures grows { Grows (known types.old scope.old) (known types.new scope.new) }
    {
        let (list, _) = self.prototype_left(scope, types, at, parameters)?;
        Ok(TypedPart::Function(paren, list))
    }

    /// A part after those that are judged.
    #[tactic(auto, using(crate::proofs::NestLaws::nests, c_tree::proofs::ViewLaws::expr_views, c_tree::proofs::TypedViewLaws::typed_views), unfolding(c_typing::specs::Walks::judge_parts, c_typing::specs::Walks::judge_value))]
    pub(crate) fn part(
        &self,
        scope: &mut Scope,
        types: &mut Types,
        at: Place,
        part: &Part,
    ) -> Result<TypedPart, Fault>
        requires nests { Nests (suc (parts_height (part_view part.now NoPart)))
            (E.pre self.now.judge_expr) (E.post self.now.judge_expr)
            (S.pre self.now.judge_specifiers) (S.post self.now.judge_specifiers)
            (D.pre self.now.judge_form) (D.post self.now.judge_form) }
        ensures answers { (start : State) (before : Parts) (done : TypedParts)
            → walks.judge_parts at before start ≡ Gives done (known types.old scope.old)
            → Answers (λ made. typed_part_view made done)
            (walks.judge_parts at (part_view part.now before) start) result
            (known types.new scope.new) }
        ensures grows { Grows (known types.old scope.old) (known types.new scope.new) }
    {
        match part {
            Part::Array(bracket, words, None) => {
                let words = copied_words(scope.alloc(), words.as_slice())?;
                Ok(TypedPart::Array(*bracket, words))
            }
            Part::Array(bracket, words, Some(e)) => {
                let v = self.value(scope, types, e)?;
                sized(scope, types, *bracket, words.as_slice(), v)
            }
            Part::Function(paren, parameters) => {
                self.function_part(scope, types, at, *paren, parameters.as_slice())
            }
        }
    }

    /// Parts behind those that are judged.
    #[tactic(auto, using(c_tree::proofs::PushLaws::pushes))]
    pub(crate) fn parts_behind(
        &self,
        scope: &mut Scope,
        types: &mut Types,
        at: Place,
        first: Items<TypedPart>,
        rest: &[Part],
    ) -> Result<Items<TypedPart>, Fault>
        requires nests { Nests (suc (parts_height (added NoPart (map part_view rest.now))))
            (E.pre self.now.judge_expr) (E.post self.now.judge_expr)
            (S.pre self.now.judge_specifiers) (S.post self.now.judge_specifiers)
            (D.pre self.now.judge_form) (D.post self.now.judge_form) }
        ensures answers { (start : State) (before : Parts) → walks.judge_parts at before start
            ≡ Gives (added no_typed_part (map typed_part_view first)) (known types.old scope.old)
            → Answers (λ found. added no_typed_part (map typed_part_view found))
            (walks.judge_parts at (added before (map part_view rest.now)) start) result
            (known types.new scope.new) }
        ensures grows { Grows (known types.old scope.old) (known types.new scope.new) }
    {
        let mut found = first;
        for part in rest {
            found.push(self.part(scope, types, at, part)?)?;
        }
        Ok(found)
    }

    /// Parts, one after another.
    #[tactic(auto, using(crate::proofs::StayLaws::none_judged))]
    fn parts(
        &self,
        scope: &mut Scope,
        types: &mut Types,
        at: Place,
        parts: &[Part],
    ) -> Result<Items<TypedPart>, Fault>
        requires nests { Nests (suc (parts_height (added NoPart (map part_view parts.now))))
            (E.pre self.now.judge_expr) (E.post self.now.judge_expr)
            (S.pre self.now.judge_specifiers) (S.post self.now.judge_specifiers)
            (D.pre self.now.judge_form) (D.post self.now.judge_form) }
        ensures answers { Answers (λ found. added no_typed_part (map typed_part_view found))
            (walks.judge_parts at (added NoPart (map part_view parts.now))
            (known types.old scope.old)) result (known types.new scope.new) }
        ensures grows { Grows (known types.old scope.old) (known types.new scope.new) }
    {
        self.parts_behind(scope, types, at, Items::new(scope.alloc()), parts)
    }

    /// A name, nothing, or a declarator in parentheses.
    #[tactic(auto, using(c_tree::proofs::ViewLaws::expr_views, c_tree::proofs::TypedViewLaws::typed_views), unfolding(c_typing::specs::Walks::judge_core))]
    pub(crate) fn core(
        &self,
        scope: &mut Scope,
        types: &mut Types,
        which: Naming,
        at: Place,
        core: &Core,
    ) -> Result<TypedCore, Fault>
        requires nests { Nests (suc (core_height (core_view core.now))) (E.pre self.now.judge_expr)
            (E.post self.now.judge_expr) (S.pre self.now.judge_specifiers)
            (S.post self.now.judge_specifiers) (D.pre self.now.judge_form)
            (D.post self.now.judge_form) }
        ensures answers { Answers typed_core_view (walks.judge_core which at (core_view core.now)
            (known types.old scope.old)) result (known types.new scope.new) }
        ensures grows { Grows (known types.old scope.old) (known types.new scope.new) }
    {
        match core {
            Core::Names(name) => {
                let home = home_as(scope, at, which)?;
                Ok(TypedCore::Names(copied_name(scope.alloc(), name)?, home))
            }
            Core::Unnamed => Ok(TypedCore::Unnamed),
            Core::Nested(paren, d) => {
                let form = self.form(scope, types, which, at, d.get())?;
                Ok(TypedCore::Nested(*paren, Boxed::new(scope.alloc(), form)?))
            }
        }
    }

    /// What stands in a declarator, whose name is to be this and whose type is named at the place.
    #[tactic(auto, using(crate::proofs::NestLaws::nests, c_tree::proofs::ViewLaws::expr_views, c_tree::proofs::TypedViewLaws::typed_views), unfolding(c_typing::specs::Walks::judge_form))]
    pub(crate) fn form_layer(
        &self,
        scope: &mut Scope,
        types: &mut Types,
        which: Naming,
        at: Place,
        d: &Declarator,
    ) -> Result<TypedForm, Fault>
        requires nests { Nests (declarator_height (declarator_view d.now))
            (E.pre self.now.judge_expr) (E.post self.now.judge_expr)
            (S.pre self.now.judge_specifiers) (S.post self.now.judge_specifiers)
            (D.pre self.now.judge_form) (D.post self.now.judge_form) }
        ensures answers { Answers typed_form_view (walks.judge_form which at (declarator_view d.now)
            (known types.old scope.old)) result (known types.new scope.new) }
        ensures grows { Grows (known types.old scope.old) (known types.new scope.new) }
    {
        let stars = stars_with_nodes(scope, at, d.stars.as_slice())?;
        let core = self.core(scope, types, which, at, &d.core)?;
        let parts = self.parts(scope, types, at, d.parts.as_slice())?;
        Ok(TypedForm { stars, core, parts })
    }
}
