//! Enumerators (C99 6.7.2.2).
#![tactic(auto)]

ghost use Rattle.std.specs.Prelude.{◌≡◌, ◌≢◌, ◌++◌, ◌||◌, IfOk, IfErr, map, Some, None, suc};
ghost use Rattle.cc_base.specs.declared.fault.Fault.TheVariants.{NoMemory as no_memory};
ghost use Rattle.c_types.specs.Table.{Table};
ghost use Rattle.c_tree.specs.Depth.{enumerators_height};
ghost use Rattle.c_tree.specs.Tree.{Enumerators, NoEnumerator};
ghost use Rattle.c_tree.specs.TypedTree.{TypedEnumerators, AndValued, NoEnumerator as none_typed};
ghost use Rattle.c_tree.specs.TypedViews.{typed_enumerator_view};
ghost use Rattle.c_tree.specs.Views.{added, enumerator_view};
ghost use Rattle.integers.specs.Arithmetic.{int, converted};
ghost use Rattle.c_typing.specs.declared.declared.Declared.TheVariants as declared;
ghost use Rattle.c_typing.specs.Growing.{Grows};
ghost use Rattle.c_typing.specs.Scopes.{declaring, here, with_scopes};
ghost use Rattle.c_typing.specs.Judging.{Answers, Gives, State, Stops, known};
ghost use Rattle.c_check_walk.specs.Nests.{Nests};
ghost use Rattle.c_typing.specs.OperandViews.{value_view};
ghost use Rattle.c_typing.specs.Specifying as specifying;
ghost use Rattle.c_typing.specs.Tests as tests;
ghost use Rattle.c_typing.specs.Tests.{first_broken, AsValue};
ghost use Rattle.c_typing.specs.Typing.{next_value, last_value};
ghost use Rattle.c_typing.specs.Walks as walks;

use crate::walker::Walker;
use c_check_operators::names::runtime_of;
use c_tree::{
    Declarator, Enumerator, Expr, Identifier, Items, Specifiers, TypedEnumerator, TypedForm,
    TypedSpecifiers,
};
use c_types::Types;
use c_typing::constant::constant_value;
use c_typing::copies::copied_name;
use c_typing::declared::Declared;
use c_typing::kind::Kind;
use c_typing::naming::Naming;
use c_typing::operand::{Operand, Value};
use c_typing::scope::Scope;
use c_typing::stops::{no_room, refusal};
use c_typing::value::{converted, sum};
use cc_base::{Fault, NoMemory, Place, Rule};

/// `int`.
const INT: Kind = Kind {
    bytes: 4,
    signed: true,
};

/// The value after one; the next one of the greatest int wraps.
fn next_value(last: Option<i128>) -> i128
    ensures { result ≡ next_value last }
{
    match last {
        None => 0,
        Some(z) => sum(INT, z, 1),
    }
}

/// Whether a name is one of a runtime function, where the innermost scope is the file's.
fn is_reserved(scope: &Scope, name: &Identifier) -> bool
    ensures { result ≡ tests.is_reserved scope.now.scopes name.now.bytes }
{
    scope.depth() == 1 && runtime_of(name.bytes.as_slice()).is_some()
}

/// Whether no enumerator of the name can be declared in the innermost scope.
fn is_taken(scope: &Scope, name: &Identifier) -> bool
    ensures { result ≡ (tests.has_some (here scope.now.scopes.levels name.now.bytes) ||
        tests.is_reserved scope.now.scopes name.now.bytes) }
{
    scope.here(name.bytes.as_slice()).is_some() || is_reserved(scope, name)
}

/// An enumerator without a value, after one of this value.
#[tactic(auto, using(c_tree::proofs::TypedViewLaws::typed_views), unfolding(c_typing::specs::Specifying::enumerator))]
fn plain(
    scope: &mut Scope,
    last: Option<i128>,
    name: &Identifier,
) -> Result<(TypedEnumerator, i128), Fault>
    ensures answers { (all : TypedEnumerators) (table : Table) → last_value all ≡ last
        → Answers (λ r. typed_enumerator_view r.0 all)
        (specifying.enumerator all name.now (known table scope.old)) result
        (known table scope.new) }
    ensures value { IfOk result (λ r. (all : TypedEnumerators)
        → last_value (typed_enumerator_view r.0 all) ≡ Some r.1) }
    ensures grows { (table : Table) → Grows (known table scope.old) (known table scope.new) }
{
    if is_taken(scope, name) {
        return Err(refusal(name.place, Rule::Redeclared));
    }
    let value = next_value(last);
    scope.declare(name.bytes.as_slice(), Declared::Enumerator(value))?;
    let name = copied_name(scope.alloc(), name)?;
    Ok((TypedEnumerator::Plain(name, value), value))
}

/// The rules of an enumerator whose value is judged.
fn value_fault(scope: &Scope, types: &Types, name: &Identifier, v: &Value) -> Option<Fault>
    ensures { result ≡ first_broken (tests.enumerator_tests scope.now.scopes name.now.bytes
        name.now.place ++ tests.constant_tests types.now v.now.place
        (AsValue (value_view v.now).expr)) }
{
    if is_taken(scope, name) {
        return Some(refusal(name.place, Rule::Redeclared));
    }
    match constant_value(types, v.expr.get()) {
        Some(_) => None,
        None => Some(refusal(v.place, Rule::NotConstant)),
    }
}

/// The constant that gives an enumerator its value.
#[tactic(auto, unfolding(c_typing::specs::Specifying::valued_enumerator, c_typing::specs::Specifying::enumerator_with))]
fn constant_of(scope: &Scope, types: &Types, name: &Identifier, v: &Value) -> Result<i128, Fault>
    ensures fresh { IfOk result (λ z. here scope.now.scopes.levels name.now.bytes ≡ None) }
    ensures ok { IfOk result (λ z. (all : TypedEnumerators) (at : Place)
        → specifying.valued_enumerator all name.now at (value_view v.now)
        (known types.now scope.now) ≡ Gives (AndValued all name.now at (value_view v.now).expr
        (converted int z)) (known types.now (with_scopes scope.now
        (declaring name.now.bytes (declared.Enumerator (converted int z)) scope.now.scopes)))) }
    ensures err { IfErr result (λ fault. fault ≢ no_memory → (all : TypedEnumerators) (at : Place)
        → specifying.valued_enumerator all name.now at (value_view v.now)
        (known types.now scope.now) ≡ Stops fault (known types.now scope.now)) }
{
    if let Some(fault) = value_fault(scope, types, name, v) {
        return Err(fault);
    }
    match constant_value(types, v.expr.get()) {
        Some(z) => Ok(z),
        None => Err(no_room(name.place)),
    }
}

/// A name is declared as an enumerator with the value that a constant has as an `int`.
fn declared_constant(
    scope: &mut Scope,
    name: &Identifier,
    z: i128,
) -> Result<(Identifier, i128), NoMemory>
    requires { here scope.old.scopes.levels name.now.bytes ≡ None }
    ensures answers { IfOk result (λ r. (r.0 ≡ name.now) × (r.1 ≡ converted int z)
        × (scope.new ≡ with_scopes scope.old (declaring name.now.bytes
        (declared.Enumerator (converted int z)) scope.old.scopes))) }
    ensures grows { (table : Table) → Grows (known table scope.old) (known table scope.new) }
{
    let value = converted(INT, z);
    scope.declare(name.bytes.as_slice(), Declared::Enumerator(value))?;
    Ok((copied_name(scope.alloc(), name)?, value))
}

/// An enumerator with a value.
#[tactic(auto, using(c_tree::proofs::TypedViewLaws::typed_views))]
fn valued(
    scope: &mut Scope,
    types: &Types,
    name: &Identifier,
    at: Place,
    v: Value,
) -> Result<(TypedEnumerator, i128), Fault>
    ensures answers { (all : TypedEnumerators) → Answers (λ r. typed_enumerator_view r.0 all)
        (specifying.valued_enumerator all name.now at (value_view v) (known types.now scope.old))
        result (known types.now scope.new) }
    ensures value { IfOk result (λ r. (all : TypedEnumerators)
        → last_value (typed_enumerator_view r.0 all) ≡ Some r.1) }
    ensures grows { Grows (known types.now scope.old) (known types.now scope.new) }
{
    let z = constant_of(scope, types, name, &v)?;
    let (name, value) = declared_constant(scope, name, z)?;
    Ok((
        TypedEnumerator::Valued(name, at, v.expr.into_inner(), value),
        value,
    ))
}

impl<
    E: Fn(&mut Scope, &mut Types, bool, &Expr) -> Result<Operand, Fault>,
    S: Fn(&mut Scope, &mut Types, &Specifiers) -> Result<TypedSpecifiers, Fault>,
    D: Fn(&mut Scope, &mut Types, Naming, Place, &Declarator) -> Result<TypedForm, Fault>,
> Walker<E, S, D> {
    /// An enumerator after those that are judged, of which the last has this value.
    #[tactic(auto, using(crate::proofs::NestLaws::nests, c_tree::proofs::ViewLaws::expr_views), unfolding(c_typing::specs::Walks::judge_enumerators, c_typing::specs::Walks::judge_value))]
    fn enumerator(
        &self,
        scope: &mut Scope,
        types: &mut Types,
        last: Option<i128>,
        e: &Enumerator,
    ) -> Result<(TypedEnumerator, i128), Fault>
        requires nests { Nests (suc (enumerators_height (enumerator_view e.now NoEnumerator)))
            (E.pre self.now.judge_expr) (E.post self.now.judge_expr)
            (S.pre self.now.judge_specifiers) (S.post self.now.judge_specifiers)
            (D.pre self.now.judge_form) (D.post self.now.judge_form) }
        ensures answers { (start : State) (before : Enumerators) (done : TypedEnumerators)
            → last_value done ≡ last → walks.judge_enumerators before start
            ≡ Gives done (known types.old scope.old) → Answers (λ r. typed_enumerator_view r.0 done)
            (walks.judge_enumerators (enumerator_view e.now before) start) result
            (known types.new scope.new) }
        ensures value { IfOk result (λ r. (done : TypedEnumerators)
            → last_value (typed_enumerator_view r.0 done) ≡ Some r.1) }
        ensures grows { Grows (known types.old scope.old) (known types.new scope.new) }
    {
        match e {
            Enumerator::Plain(name) => plain(scope, last, name),
            Enumerator::Valued(name, at, value) => {
                let v = self.value(scope, types, value)?;
                valued(scope, types, name, *at, v)
            }
        }
    }

    /// Enumerators, one after another.
    #[tactic(auto, using(c_tree::proofs::PushLaws::pushes, crate::proofs::StayLaws::none_judged))]
    pub(crate) fn enumerators(
        &self,
        scope: &mut Scope,
        types: &mut Types,
        list: &[Enumerator],
    ) -> Result<Items<TypedEnumerator>, Fault>
        requires nests { Nests (suc (enumerators_height (added NoEnumerator
            (map enumerator_view list.now)))) (E.pre self.now.judge_expr)
            (E.post self.now.judge_expr) (S.pre self.now.judge_specifiers)
            (S.post self.now.judge_specifiers) (D.pre self.now.judge_form)
            (D.post self.now.judge_form) }
        ensures answers { Answers (λ r. added none_typed (map typed_enumerator_view r))
            (walks.judge_enumerators (added NoEnumerator (map enumerator_view list.now))
            (known types.old scope.old)) result (known types.new scope.new) }
        ensures grows { Grows (known types.old scope.old) (known types.new scope.new) }
    {
        let mut found = Items::new(scope.alloc());
        let mut last = None;
        for e in list {
            let (one, value) = self.enumerator(scope, types, last, e)?;
            found.push(one)?;
            last = Some(value);
        }
        Ok(found)
    }
}
