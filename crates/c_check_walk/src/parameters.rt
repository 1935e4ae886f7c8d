//! Parameters (C99 6.7.5.3).
#![tactic(auto)]

ghost use Rattle.std.specs.Prelude.{◌≡◌, ◌≢◌, false, None, IfSome, IfOk, IfErr, map, option_map, option_copied, suc};
ghost use Rattle.cc_base.specs.declared.fault.Fault.TheVariants.{NoMemory as no_memory};
ghost use Rattle.c_types.specs.Table.{Table, shape_at};
ghost use Rattle.c_tree.specs.TypedParts.{declared_home};
ghost use Rattle.c_tree.specs.Depth.{parameters_height};
ghost use Rattle.c_tree.specs.Tree.{Parameters, NoParameter, AndParameter, NotDeclared, Specifiers as PlainSpecifiers, AndSpecifier};
ghost use Rattle.c_tree.specs.TypedTree.{TypedParameters, NoParameter as no_typed_parameter};
ghost use Rattle.c_tree.specs.Views.{added, declarator_view, declared_of, parameter_view, specifier_view, specifiers_of, specifiers_view};
ghost use Rattle.c_tree.specs.TypedViews.{typed_form_view, typed_declared_of, typed_parameter_view, typed_specifiers_view};
ghost use Rattle.c_typing.specs.Declarators.{is_derived_declared};
ghost use Rattle.c_typing.specs.Declaring as declaring;
ghost use Rattle.c_typing.specs.Growing.{Grows, GrowsAny, GrowsOrLeaves};
ghost use Rattle.c_typing.specs.Judging.{Answers, Gives, State, known, next};
ghost use Rattle.c_typing.specs.KindViews.{shape_or_void};
ghost use Rattle.c_check_walk.specs.Ending.{EndsIn};
ghost use Rattle.c_check_walk.specs.Nests.{Nests};
ghost use Rattle.c_typing.specs.Refusals.{declared_identifier, is_here, is_void_alone};
ghost use Rattle.c_check_declarators.specs.DerivedViews.{derived_view};
ghost use Rattle.c_typing.specs.Specifying.{obeying};
ghost use Rattle.c_typing.specs.Tests as tests;
ghost use Rattle.c_typing.specs.Tests.{first_broken};
ghost use Rattle.c_typing.specs.Walks as walks;

use crate::declarators::node_at;
use crate::walker::Walker;
use c_check_declarators::derived::{Derived, adjusted_at, derived_by_declared};
use c_check_declarators::homes::{home_of, name_of};
use c_check_declarators::making::{Nearest, declared_makes, is_derived};
use c_check_declarators::places::declared_place;
use c_lexer::Keyword;
use c_tree::{
    Adjusted, Declarator, Expr, Home, Identifier, Items, Parameter, Specifier, Specifiers,
    TypedForm, TypedParameter, TypedSpecifiers,
};
use c_types::{TypeShape, Types};
use c_typing::declared::Declared;
use c_typing::level::Level;
use c_typing::naming::Naming;
use c_typing::operand::Operand;
use c_typing::scope::Scope;
use c_typing::shapes::{is_aggregate, is_complete_at, shape_at};
use c_typing::stops::{no_room, refusal};
use c_typing::typing::pointer_type;
use cc_base::{Fault, NodeId, Place, Rule, TypeId};

/// Whether a typed declarator that may be left out has stars or parts.
fn is_derived_declared(d: Option<&TypedForm>) -> bool
    ensures { result ≡ is_derived_declared (typed_declared_of
        (option_map typed_form_view (option_copied d.entry))) }
{
    match d {
        Some(form) => is_derived(form),
        None => false,
    }
}

/// A type by a typedef's name becomes a pointer.
#[tactic(auto, unfolding(c_typing::specs::Declaring::adjusted_shape))]
fn adjusted_shape(
    scope: &Scope,
    types: &mut Types,
    at: Place,
    node: NodeId,
    base: TypeId,
) -> Result<TypeId, Fault>
    ensures answers { Answers (λ t. t) (declaring.adjusted_shape at node base
        (shape_at types.old base) (known types.old scope.now)) result (known types.new scope.now) }
    ensures grows { Grows (known types.old scope.now) (known types.new scope.now) }
{
    let to = match shape_at(types, base) {
        Some(TypeShape::Array(element, _)) => *element,
        Some(TypeShape::Function(_, _)) => base,
        _ => return Err(no_room(at)),
    };
    pointer_type(scope, types, at, node, to)
}

/// The type of a parameter, which may be a pointer in place of an array or a function.
#[tactic(auto, unfolding(c_typing::specs::Declaring::parameter_makes, c_typing::specs::Declaring::adjusted_makes))]
fn parameter_makes(
    scope: &Scope,
    types: &mut Types,
    at: Place,
    adjusted: Option<Adjusted>,
    d: Option<&TypedForm>,
    base: TypeId,
) -> Result<TypeId, Fault>
    ensures answers { Answers (λ t. t) (declaring.parameter_makes at adjusted
        (typed_declared_of (option_map typed_form_view (option_copied d.entry))) base
        (known types.old scope.now)) result (known types.new scope.now) }
    ensures grows { Grows (known types.old scope.now) (known types.new scope.now) }
{
    match adjusted {
        None => declared_makes(scope, types, at, Nearest::Written, d, base),
        Some(adjusted) => {
            if is_derived_declared(d) {
                let nearest = Nearest::Points(adjusted.node);
                return declared_makes(scope, types, at, nearest, d, base);
            }
            adjusted_shape(scope, types, at, adjusted.node, base)
        }
    }
}

/// Whether a parameter is made a pointer, by a node of its own.
#[tactic(auto, unfolding(c_typing::specs::Declaring::adjusted_with_node))]
fn adjusted_with_node(
    scope: &mut Scope,
    at: Place,
    place: Option<Place>,
) -> Result<Option<Adjusted>, Fault>
    ensures answers { (table : Table) → Answers (λ adjusted. adjusted)
        (declaring.adjusted_with_node at place (known table scope.old)) result
        (known table scope.new) }
    ensures same { scope.new.scopes ≡ scope.old.scopes }
    ensures grows { (table : Table) → Grows (known table scope.old) (known table scope.new) }
{
    match place {
        None => Ok(None),
        Some(place) => {
            let node = node_at(scope, at)?;
            Ok(Some(Adjusted { node, place }))
        }
    }
}

/// The rules of a parameter's type.
fn type_fault(scope: &Scope, types: &Types, void: bool, t: TypeId, at: Place) -> Option<Fault>
    ensures { result ≡ first_broken (tests.parameter_type_tests types.now scope.now.scopes void t
        at) }
{
    if !void && !is_complete_at(scope, types, t) {
        return Some(refusal(at, Rule::Incomplete));
    }
    if is_aggregate(shape_at(types, t)) {
        return Some(refusal(at, Rule::Mismatch));
    }
    None
}

/// Whether the innermost scope has the name, where there is one.
fn is_here(scope: &Scope, name: Option<&Identifier>) -> bool
    ensures { result ≡ is_here scope.now.scopes (option_copied name.entry) }
{
    match name {
        Some(name) => scope.here(name.bytes.as_slice()).is_some(),
        None => false,
    }
}

/// A parameter's name is declared in the scope of its list.
#[tactic(auto, unfolding(c_typing::specs::Declaring::parameter_declared))]
fn parameter_declared(
    scope: &mut Scope,
    at: Place,
    name: Option<&Identifier>,
    home: Home,
    t: TypeId,
) -> Result<TypeId, Fault>
    requires { is_here scope.old.scopes (option_copied name) ≡ false }
    ensures answers { (table : Table) → Answers (λ t. t) (declaring.parameter_declared at
        (option_copied name.entry) home t (known table scope.old)) result (known table scope.new) }
    ensures grows { (table : Table) → GrowsAny (known table scope.old) (known table scope.new) }
{
    match name {
        None => Ok(t),
        Some(name) => match home {
            Home::Parameter(node) => {
                scope.declare(name.bytes.as_slice(), Declared::Object(t, node))?;
                Ok(t)
            }
            _ => Err(no_room(at)),
        },
    }
}

/// The place of a specifier that is a typedef's name.
#[tactic(auto, using(c_tree::proofs::ViewLaws::expr_views))]
fn name_of_typedef(specifier: &Specifier) -> Option<Place>
    ensures some { IfSome result (λ at. (all : PlainSpecifiers)
        → declaring.typedef_place (AndSpecifier all (specifier_view specifier.now)) ≡ at) }
    ensures none { result ≡ None → (all : PlainSpecifiers) → declaring.typedef_place
        (AndSpecifier all (specifier_view specifier.now)) ≡ declaring.typedef_place all }
{
    match specifier {
        Specifier::Typedef(name) => Some(name.place),
        _ => None,
    }
}

/// The place of the typedef's name in a list of specifiers.
#[tactic(auto, using(c_tree::proofs::ViewLaws::expr_views, c_tree::proofs::PushLaws::pushes))]
fn typedef_place(specifiers: &Specifiers) -> Place
    ensures { result ≡ declaring.typedef_place (specifiers_view specifiers.now) }
{
    let mut rest = specifiers.list.as_slice();
    'backwards: while let Some((last, before)) = rest.split_last() {
        if let Some(place) = name_of_typedef(last) {
            return place;
        }
        rest = before;
    }
    Place { line: 1, col: 1 }
}

fn declared_name(d: Option<&TypedForm>) -> Option<&Identifier>
    ensures { option_copied result ≡ declared_identifier
        (typed_declared_of (option_map typed_form_view (option_copied d.entry))) }
{
    match d {
        Some(form) => name_of(form),
        None => None,
    }
}

fn declared_home(d: Option<&TypedForm>) -> Home
    ensures { result ≡ declared_home (typed_declared_of
        (option_map typed_form_view (option_copied d.entry))) }
{
    match d {
        Some(form) => home_of(form),
        None => Home::None,
    }
}

/// The type of a parameter, whose name is declared.
fn declared_type(
    scope: &mut Scope,
    types: &mut Types,
    void: bool,
    at: Place,
    adjusted: Option<Adjusted>,
    d: Option<&TypedForm>,
    base: TypeId,
) -> Result<TypeId, Fault>
    requires { is_here scope.old.scopes (declared_identifier
        (typed_declared_of (option_map typed_form_view (option_copied d)))) ≡ false }
    ensures answers { let one = typed_declared_of (option_map typed_form_view
        (option_copied d.entry)) in Answers (λ t. t) (next
        (declaring.parameter_makes at adjusted one base (known types.old scope.old))
        (λ t. obeying (λ s. tests.parameter_type_tests s.table s.seen.scopes void t at)
        (declaring.parameter_declared at (declared_identifier one) (declared_home one) t))) result
        (known types.new scope.new) }
    ensures grows { GrowsAny (known types.old scope.old) (known types.new scope.new) }
{
    let t = parameter_makes(scope, types, at, adjusted, d, base)?;
    if let Some(fault) = type_fault(scope, types, void, t, at) {
        return Err(fault);
    }
    parameter_declared(scope, at, declared_name(d), declared_home(d), t)
}

/// A parameter whose specifiers and declarator are judged.
#[tactic(auto, using(c_tree::proofs::TypedViewLaws::typed_views), unfolding(c_typing::specs::Declaring::parameter))]
fn made_parameter(
    scope: &mut Scope,
    types: &mut Types,
    void: bool,
    at: Place,
    derived: Derived,
    named: Place,
    specifiers: TypedSpecifiers,
    declarator: Option<TypedForm>,
) -> Result<TypedParameter, Fault>
    ensures answers { (all : TypedParameters) → Answers (λ made. typed_parameter_view made all)
        (declaring.parameter void at (λ base. declaring.adjusted_at
        (derived_view derived) base named) all (typed_specifiers_view specifiers)
        (typed_declared_of (option_map typed_form_view declarator)) (known types.old scope.old))
        result (known types.new scope.new) }
    ensures grows { GrowsAny (known types.old scope.old) (known types.new scope.new) }
{
    let d = declarator.as_ref();
    if is_here(scope, declared_name(d)) {
        return Err(refusal(at, Rule::Redeclared));
    }
    let base = specifiers.ty;
    let place = adjusted_at(types, derived, base, named);
    let adjusted = adjusted_with_node(scope, at, place)?;
    let ty = declared_type(scope, types, void, at, adjusted, d, base)?;
    Ok(TypedParameter {
        specifiers,
        declarator,
        adjusted,
        ty,
    })
}

/// The innermost scope is left, unless it is the file's.
fn leave_innermost(scope: &mut Scope)
    ensures { (table : Table) → known table scope.new
        ≡ declaring.once_left (known table scope.old) }
{
    if scope.depth() > 1 {
        scope.leave();
    }
}

impl<
    E: Fn(&mut Scope, &mut Types, bool, &Expr) -> Result<Operand, Fault>,
    S: Fn(&mut Scope, &mut Types, &Specifiers) -> Result<TypedSpecifiers, Fault>,
    D: Fn(&mut Scope, &mut Types, Naming, Place, &Declarator) -> Result<TypedForm, Fault>,
> Walker<E, S, D> {
    /// A parameter after those that are judged.
    #[tactic(auto, using(c_tree::proofs::ViewLaws::expr_views, c_tree::proofs::TypedViewLaws::typed_views), unfolding(c_typing::specs::Walks::judge_parameters))]
    fn parameter(
        &self,
        scope: &mut Scope,
        types: &mut Types,
        void: bool,
        one: &Parameter,
    ) -> Result<TypedParameter, Fault>
        requires nests { Nests (suc (parameters_height (parameter_view one.now NoParameter)))
            (E.pre self.now.judge_expr) (E.post self.now.judge_expr)
            (S.pre self.now.judge_specifiers) (S.post self.now.judge_specifiers)
            (D.pre self.now.judge_form) (D.post self.now.judge_form) }
        ensures answers { (start : State) (before : Parameters) (done : TypedParameters)
            → walks.judge_parameters void before start ≡ Gives done (known types.old scope.old)
            → Answers (λ made. typed_parameter_view made done)
            (walks.judge_parameters void (parameter_view one.now before) start) result
            (known types.new scope.new) }
        ensures grows { GrowsAny (known types.old scope.old) (known types.new scope.new) }
    {
        let at = declared_place(&one.specifiers, &one.declarator);
        let specifiers = self.specifiers(scope, types, &one.specifiers)?;
        let declarator = self.declared(scope, types, Naming::Parameter, at, &one.declarator)?;
        let derived = derived_by_declared(&one.declarator);
        let named = typedef_place(&one.specifiers);
        made_parameter(
            scope, types, void, at, derived, named, specifiers, declarator,
        )
    }

    /// Parameters, one after another.
    #[tactic(auto, using(c_tree::proofs::PushLaws::pushes, crate::proofs::StayLaws::none_judged))]
    fn parameters(
        &self,
        scope: &mut Scope,
        types: &mut Types,
        void: bool,
        list: &[Parameter],
    ) -> Result<Items<TypedParameter>, Fault>
        requires nests { Nests (suc (parameters_height (added NoParameter
            (map parameter_view list.now)))) (E.pre self.now.judge_expr)
            (E.post self.now.judge_expr) (S.pre self.now.judge_specifiers)
            (S.post self.now.judge_specifiers) (D.pre self.now.judge_form)
            (D.post self.now.judge_form) }
        ensures answers { Answers (λ found. added no_typed_parameter
            (map typed_parameter_view found)) (walks.judge_parameters void
            (added NoParameter (map parameter_view list.now)) (known types.old scope.old)) result
            (known types.new scope.new) }
        ensures grows { GrowsAny (known types.old scope.old) (known types.new scope.new) }
    {
        let mut found = Items::new(scope.alloc());
        for one in list {
            found.push(self.parameter(scope, types, void, one)?)?;
        }
        Ok(found)
    }

    /// Parameters in the scope that is open for them; where they stop, it is left.
    fn parameters_inside(
        &self,
        scope: &mut Scope,
        types: &mut Types,
        void: bool,
        list: &[Parameter],
    ) -> Result<Items<TypedParameter>, Fault>
        requires nests { Nests (suc (parameters_height (added NoParameter
            (map parameter_view list.now)))) (E.pre self.now.judge_expr)
            (E.post self.now.judge_expr) (S.pre self.now.judge_specifiers)
            (S.post self.now.judge_specifiers) (D.pre self.now.judge_form)
            (D.post self.now.judge_form) }
        ensures answers { Answers (λ found. added no_typed_parameter
            (map typed_parameter_view found)) (declaring.stopping_outside
            (walks.judge_parameters void (added NoParameter (map parameter_view list.now)))
            (known types.old scope.old)) result (known types.new scope.new) }
        ensures judged { IfOk result (λ found. walks.judge_parameters void
            (added NoParameter (map parameter_view list.now)) (known types.old scope.old)
            ≡ Gives (added no_typed_parameter (map typed_parameter_view found))
            (known types.new scope.new)) }
        ensures grows { GrowsOrLeaves result (known types.old scope.old)
            (known types.new scope.new) }
    {
        match self.parameters(scope, types, void, list) {
            Ok(found) => Ok(found),
            Err(fault) => {
                leave_innermost(scope);
                Err(fault)
            }
        }
    }

    /// Parameters in a scope of their own, with that scope as they leave it.
    #[tactic(auto, unfolding(c_typing::specs::Walks::judge_prototype, c_typing::specs::Declaring::entered, c_typing::specs::Declaring::left))]
    pub(crate) fn prototype_left(
        &self,
        scope: &mut Scope,
        types: &mut Types,
        at: Place,
        list: &[Parameter],
    ) -> Result<(Items<TypedParameter>, Level), Fault>
        requires nests { Nests (suc (parameters_height (added NoParameter
            (map parameter_view list.now)))) (E.pre self.now.judge_expr)
            (E.post self.now.judge_expr) (S.pre self.now.judge_specifiers)
            (S.post self.now.judge_specifiers) (D.pre self.now.judge_form)
            (D.post self.now.judge_form) }
        ensures level { IfOk result (λ made. EndsIn made.1
            (next (declaring.entered (known types.old scope.old))
            (λ _. walks.judge_parameters
            (is_void_alone (added NoParameter (map parameter_view list.now)))
            (added NoParameter (map parameter_view list.now))))) }
        ensures answers { Answers (λ made. added no_typed_parameter
            (map typed_parameter_view made.0)) (walks.judge_prototype at
            (added NoParameter (map parameter_view list.now)) (known types.old scope.old)) result
            (known types.new scope.new) }
        ensures grows { Grows (known types.old scope.old) (known types.new scope.new) }
    {
        let _open = scope.depth();
        scope.enter()?;
        let found = self.parameters_inside(scope, types, is_void_alone(list), list)?;
        if scope.depth() <= 1 {
            return Err(no_room(at));
        }
        match scope.take_innermost() {
            Some(level) => Ok((found, level)),
            None => Err(no_room(at)),
        }
    }
}

/// Whether the specifiers are `void` by itself.
#[tactic(auto, using(c_tree::proofs::ViewLaws::expr_views, c_tree::proofs::PushLaws::pushes))]
fn is_void_word(list: &[Specifier]) -> bool
    ensures { result ≡ is_void_alone (AndParameter NoParameter
        (specifiers_of (map specifier_view list.now)) NotDeclared) }
{
    let Some((last, before)) = list.split_last() else {
        return false;
    };
    if before.split_last().is_some() {
        return false;
    }
    match last {
        Specifier::Keyword(word) => word.keyword == Keyword::Void,
        _ => false,
    }
}

/// Whether a parameter that stands alone is `void`.
#[tactic(auto, using(c_tree::proofs::ViewLaws::expr_views))]
fn is_void_itself(one: &Parameter) -> bool
    ensures { result ≡ is_void_alone (parameter_view one.now NoParameter) }
{
    one.declarator.is_none() && is_void_word(one.specifiers.list.as_slice())
}

/// Of two parameters none is `void`.
#[tactic(auto, using(c_tree::proofs::ViewLaws::expr_views))]
fn is_void_behind(last: &Parameter, other: &Parameter) -> bool
    ensures { (all : Parameters) → result ≡ is_void_alone
        (parameter_view last.now (parameter_view other.now all)) }
{
    let (_last, _other) = (&last.declarator, &other.declarator);
    false
}

/// Whether the parameters are `(void)`.
#[tactic(auto, using(c_tree::proofs::PushLaws::pushes))]
fn is_void_alone(parameters: &[Parameter]) -> bool
    ensures { result ≡ is_void_alone (added NoParameter (map parameter_view parameters.now)) }
{
    let Some((last, before)) = parameters.split_last() else {
        return false;
    };
    match before.split_last() {
        Some((other, _)) => is_void_behind(last, other),
        None => is_void_itself(last),
    }
}
