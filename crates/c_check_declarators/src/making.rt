//! The types that declarators give (C99 6.7.5).
#![tactic(auto)]

ghost use Rattle.std.specs.Prelude.{◌≡◌, true, not, ◌++◌, ◌∷◌, [], map, option_map, option_copied, IfOk};
ghost use Rattle.c_tree.specs.TypedParts.{is_void_word, is_void_list};
ghost use Rattle.c_tree.specs.TypedTree.{TypedParameters, TypedParts, NoPart, NoParameter};
ghost use Rattle.c_tree.specs.TypedViews.{typed_core_view, typed_form_view, typed_parameter_view, typed_part_view, typed_specifier_view, typed_specifiers_of, typed_declared_of};
ghost use Rattle.c_tree.specs.Views.{added};
ghost use Rattle.c_typing.specs.Declarators.{Outermost, Written, is_no_part, is_pointed, parameter_types, taken_types, nearest, is_derived, is_derived_core};
ghost use Rattle.c_typing.specs.Growing.{Grows};
ghost use Rattle.c_typing.specs.Judging.{Answers, State, known, next};
ghost use Rattle.c_typing.specs.Declaring as declaring;
ghost use Rattle.c_check_declarators.specs.MakingViews.{nearest_view};
ghost use Rattle.c_typing.specs.Tests as tests;
ghost use Rattle.c_typing.specs.Tests.{first_broken};

use c_lexer::Keyword;
use c_tree::{TypedCore, TypedForm, TypedParameter, TypedPart, TypedSpecifier, TypedStar, Word};
use c_types::{TypeList, TypeShape, Types};
use c_typing::scope::Scope;
use c_typing::shapes::{is_complete_at, shape_at};
use c_typing::stops::{no_room, refusal};
use c_typing::typing::{pointer_type, type_with};
use cc_base::{Fault, Limit, NoMemory, NodeId, Place, Rule, TypeId};

/// The most parameters of one function.
const MOST_PARAMETERS: usize = 127;

/// What the part that stands nearest to the name is.
#[derive(Clone, Copy)]
pub enum Nearest {
    /// An array or function as it is written.
    Written,
    /// An array whose missing size is known.
    Counts(u64),
    /// In a parameter, a pointer with this node in place of an array or a function.
    Points(NodeId),
}

/// An array of elements of a complete type.
#[tactic(auto, unfolding(c_typing::specs::Declaring::array_type))]
fn array_type(
    scope: &Scope,
    types: &mut Types,
    at: Place,
    element: TypeId,
    count: u64,
) -> Result<TypeId, Fault>
    ensures answers { Answers (λ t. t) (declaring.array_type at element count
        (known types.old scope.now)) result (known types.new scope.now) }
    ensures grows { Grows (known types.old scope.now) (known types.new scope.now) }
{
    if element.0 >= types.count() || !types.is_complete(element) || count == 0 {
        return Err(no_room(at));
    }
    type_with(scope, types, at, TypeShape::Array(element, count))
}

/// What an array part makes of its elements' type.
#[tactic(auto, unfolding(c_typing::specs::Declaring::array_of))]
fn array_of(
    scope: &Scope,
    types: &mut Types,
    at: Place,
    nearest: Nearest,
    count: Option<u64>,
    element: TypeId,
) -> Result<TypeId, Fault>
    ensures answers { Answers (λ t. t) (declaring.array_of at (nearest_view nearest) count element
        (known types.old scope.now)) result (known types.new scope.now) }
    ensures grows { Grows (known types.old scope.now) (known types.new scope.now) }
{
    match nearest {
        Nearest::Points(node) => pointer_type(scope, types, at, node, element),
        Nearest::Counts(given) => match count {
            Some(count) => array_type(scope, types, at, element, count),
            None => array_type(scope, types, at, element, given),
        },
        Nearest::Written => match count {
            Some(count) => array_type(scope, types, at, element, count),
            None => Err(no_room(at)),
        },
    }
}

fn is_pointed(nearest: Nearest) -> bool
    ensures { result ≡ is_pointed (nearest_view nearest) }
{
    matches!(nearest, Nearest::Points(_))
}

/// An array part with no size, that neither an initialiser nor a parameter gives one.
fn lacks_size(nearest: Nearest, sized: bool) -> bool
    ensures { result ≡ tests.lacks_size (nearest_view nearest) sized }
{
    matches!(nearest, Nearest::Written) && !sized
}

/// The rules of an array part with the `[` at a place.
fn array_fault(
    scope: &Scope,
    types: &Types,
    nearest: Nearest,
    sized: bool,
    bracket: Place,
    words: &[Word],
    element: TypeId,
    at: Place,
) -> Option<Fault>
    ensures { result ≡ first_broken (tests.array_tests types.now scope.now.scopes
        (nearest_view nearest) sized bracket words.now element at) }
{
    if lacks_size(nearest, sized) {
        return Some(refusal(bracket, Rule::Incomplete));
    }
    if !is_complete_at(scope, types, element) {
        return Some(refusal(at, Rule::Incomplete));
    }
    match words.first() {
        Some(word) if !is_pointed(nearest) => Some(refusal(word.place, Rule::Mismatch)),
        _ => None,
    }
}

/// What an array part with the `[` at a place makes of its elements' type.
#[tactic(auto, unfolding(c_typing::specs::Declaring::array_makes))]
fn array_makes(
    scope: &Scope,
    types: &mut Types,
    at: Place,
    nearest: Nearest,
    bracket: Place,
    words: &[Word],
    count: Option<u64>,
    element: TypeId,
) -> Result<TypeId, Fault>
    ensures answers { Answers (λ t. t) (declaring.array_makes at
        (nearest_view nearest) bracket words.now count element (known types.old scope.now)) result
        (known types.new scope.now) }
    ensures grows { Grows (known types.old scope.now) (known types.new scope.now) }
{
    if let Some(fault) = array_fault(
        scope,
        types,
        nearest,
        count.is_some(),
        bracket,
        words,
        element,
        at,
    ) {
        return Err(fault);
    }
    array_of(scope, types, at, nearest, count, element)
}

/// A function gives no array, no function, and no struct or union (C99 6.7.5.3).
fn function_fault(types: &Types, gives: TypeId, at: Place) -> Option<Fault>
    ensures { result ≡ first_broken (tests.function_tests types.now gives at) }
{
    match shape_at(types, gives) {
        None | Some(TypeShape::Void | TypeShape::Integer { .. } | TypeShape::Pointer(_, _)) => None,
        Some(_) => Some(refusal(at, Rule::Mismatch)),
    }
}

/// Whether all of them are in the table.
fn are_types(types: &Types, all: &[TypeId]) -> bool
    ensures { result ≡ declaring.are_types types.now all.now }
{
    let count = types.count();
    all.iter().all(|t| t.0 < count)
}

/// A function type. No function has more than 127 parameters.
#[tactic(auto, unfolding(c_typing::specs::Declaring::function_type, c_typing::specs::Declaring::counting_parameters))]
fn function_type(
    scope: &Scope,
    types: &mut Types,
    at: Place,
    parameters: Vec<TypeId>,
    gives: TypeId,
) -> Result<TypeId, Fault>
    ensures answers { Answers (λ t. t) (declaring.function_type at parameters.items gives
        (known types.old scope.now)) result (known types.new scope.now) }
    ensures grows { Grows (known types.old scope.now) (known types.new scope.now) }
{
    if gives.0 >= types.count() || !are_types(types, &parameters) {
        return Err(no_room(at));
    }
    let too_many = parameters.len() > MOST_PARAMETERS;
    let t = type_with(
        scope,
        types,
        at,
        TypeShape::Function(TypeList::of(parameters), gives),
    )?;
    if too_many {
        return Err(Fault::TooLarge {
            place: at,
            limit: Limit::Params,
        });
    }
    Ok(t)
}

/// Whether specifiers are the word `void` by itself.
#[tactic(auto, using(c_tree::proofs::TypedViewLaws::typed_views, c_tree::proofs::TypedPushLaws::typed_pushes))]
fn is_void_word(specifiers: &[TypedSpecifier]) -> bool
    ensures { result ≡ is_void_word (typed_specifiers_of
        (map typed_specifier_view specifiers.now)) }
{
    let Some((last, before)) = specifiers.split_last() else {
        return false;
    };
    if before.split_last().is_some() {
        return false;
    }
    match last {
        TypedSpecifier::Keyword(word) => word.keyword == Keyword::Void,
        _ => false,
    }
}

/// Whether a parameter that stands alone is `void`.
#[tactic(auto, using(c_tree::proofs::TypedViewLaws::typed_views))]
fn is_void_itself(one: &TypedParameter) -> bool
    ensures { result ≡ is_void_list (typed_parameter_view one.now NoParameter) }
{
    one.declarator.is_none() && is_void_word(one.specifiers.list.as_slice())
}

/// Of two parameters none is `void`.
#[tactic(auto, using(c_tree::proofs::TypedViewLaws::typed_views))]
fn is_void_behind(last: &TypedParameter, other: &TypedParameter) -> bool
    ensures { (all : TypedParameters) → result ≡ is_void_list
        (typed_parameter_view last.now (typed_parameter_view other.now all)) }
{
    let (_last, _other) = (last.ty, other.ty);
    false
}

/// Whether the parameters are `(void)`.
#[tactic(auto, using(c_tree::proofs::PushLaws::pushes))]
fn is_void_alone(parameters: &[TypedParameter]) -> bool
    ensures { result ≡ is_void_list (added NoParameter (map typed_parameter_view parameters.now)) }
{
    let Some((last, before)) = parameters.split_last() else {
        return false;
    };
    match before.split_last() {
        Some((other, _)) => is_void_behind(last, other),
        None => is_void_itself(last),
    }
}

/// The type of a parameter, as its function takes it.
#[tactic(auto, using(c_tree::proofs::TypedViewLaws::typed_views))]
fn taken_type(one: &TypedParameter) -> TypeId
    ensures { (all : TypedParameters) → parameter_types (typed_parameter_view one.now all)
        ≡ parameter_types all ++ result ∷ [] }
{
    one.ty
}

/// The types that a function takes.
#[tactic(auto, using(c_tree::proofs::PushLaws::pushes))]
fn taken_types(scope: &Scope, parameters: &[TypedParameter]) -> Result<Vec<TypeId>, NoMemory>
    ensures { IfOk result (λ types. types.items ≡ taken_types
        (added NoParameter (map typed_parameter_view parameters.now))) }
{
    let mut types = Vec::new(scope.alloc());
    if is_void_alone(parameters) {
        return Ok(types);
    }
    for one in parameters {
        types.push(taken_type(one))?;
    }
    Ok(types)
}

/// What a function part makes of the type that it gives.
#[tactic(auto, unfolding(c_typing::specs::Declaring::function_makes, c_typing::specs::Declaring::function_as))]
fn function_makes(
    scope: &Scope,
    types: &mut Types,
    at: Place,
    nearest: Nearest,
    parameters: &[TypedParameter],
    gives: TypeId,
) -> Result<TypeId, Fault>
    ensures answers { Answers (λ t. t) (declaring.function_makes at (nearest_view nearest)
        (added NoParameter (map typed_parameter_view parameters.now)) gives
        (known types.old scope.now)) result (known types.new scope.now) }
    ensures grows { Grows (known types.old scope.now) (known types.new scope.now) }
{
    if let Some(fault) = function_fault(types, gives, at) {
        return Err(fault);
    }
    let taken = taken_types(scope, parameters)?;
    let t = function_type(scope, types, at, taken, gives)?;
    match nearest {
        Nearest::Points(node) => pointer_type(scope, types, at, node, t),
        _ => Ok(t),
    }
}

/// What a part makes of the type that it stands behind, where it is the last of the parts, and what it is is known.
#[tactic(auto, using(c_tree::proofs::TypedViewLaws::typed_views), unfolding(c_typing::specs::Declaring::last_makes))]
fn part_makes(
    scope: &Scope,
    types: &mut Types,
    at: Place,
    nearest: Nearest,
    part: &TypedPart,
    base: TypeId,
) -> Result<TypeId, Fault>
    ensures answers { (all : TypedParts) → Answers (λ t. t) (declaring.last_makes at
        (nearest_view nearest) (typed_part_view part.now all) base (known types.old scope.now))
        result (known types.new scope.now) }
    ensures grows { Grows (known types.old scope.now) (known types.new scope.now) }
{
    match part {
        TypedPart::Array(bracket, words) => array_makes(
            scope,
            types,
            at,
            nearest,
            *bracket,
            words.as_slice(),
            None,
            base,
        ),
        TypedPart::SizedArray(bracket, words, _, size) => array_makes(
            scope,
            types,
            at,
            nearest,
            *bracket,
            words.as_slice(),
            Some(*size),
            base,
        ),
        TypedPart::Function(_, parameters) => {
            function_makes(scope, types, at, nearest, parameters.as_slice(), base)
        }
    }
}

/// Whether it is a part, as each is; the parts behind it are not the nearest to the name.
#[tactic(auto, using(c_tree::proofs::TypedViewLaws::typed_views), unfolding(c_typing::specs::Declaring::parts_make))]
fn is_some_part(part: &TypedPart) -> bool
    ensures part { (all : TypedParts) → is_no_part (typed_part_view part.now all) ≡ not result }
    ensures nearest { (all : TypedParts) (outermost : Outermost) → result ≡ true
        → nearest (typed_part_view part.now all) outermost ≡ Written }
    ensures last_first { (all : TypedParts) (at : Place) (outermost : Outermost) (base : TypeId)
        (s : State) → declaring.parts_make at outermost (typed_part_view part.now all) base s
        ≡ next (declaring.last_makes at (nearest all outermost)
        (typed_part_view part.now all) base s) (declaring.parts_make at outermost all) }
{
    match part {
        TypedPart::Array(_, _) => true,
        TypedPart::SizedArray(_, _, _, _) => true,
        TypedPart::Function(_, _) => true,
    }
}

/// What a part is that stands behind these others.
#[tactic(auto, using(c_tree::proofs::PushLaws::pushes))]
fn nearest_of(before: &[TypedPart], own: Nearest) -> Nearest
    ensures { nearest_view result ≡ nearest (added NoPart (map typed_part_view before.now))
        (nearest_view own) }
{
    let Some((part, _)) = before.split_last() else {
        return own;
    };
    if is_some_part(part) {
        Nearest::Written
    } else {
        own
    }
}

/// What the parts make, the last first.
#[tactic(auto, using(c_tree::proofs::PushLaws::pushes))]
fn parts_make(
    scope: &Scope,
    types: &mut Types,
    at: Place,
    nearest: Nearest,
    parts: &[TypedPart],
    base: TypeId,
) -> Result<TypeId, Fault>
    ensures answers { Answers (λ t. t) (declaring.parts_make at (nearest_view nearest)
        (added NoPart (map typed_part_view parts.now)) base (known types.old scope.now)) result
        (known types.new scope.now) }
    ensures grows { Grows (known types.old scope.now) (known types.new scope.now) }
{
    let mut rest = parts;
    let mut t = base;
    'inwards: while let Some((part, before)) = rest.split_last() {
        let _some = is_some_part(part);
        t = part_makes(scope, types, at, nearest_of(before, nearest), part, t)?;
        rest = before;
    }
    Ok(t)
}

/// What the stars make, the first first.
#[tactic(auto, unfolding(c_typing::specs::Declaring::stars_make))]
fn stars_make(
    scope: &Scope,
    types: &mut Types,
    at: Place,
    stars: &[TypedStar],
    base: TypeId,
) -> Result<TypeId, Fault>
    ensures answers { Answers (λ t. t) (declaring.stars_make at stars.now base
        (known types.old scope.now)) result (known types.new scope.now) }
    ensures grows { Grows (known types.old scope.now) (known types.new scope.now) }
{
    let mut rest = stars;
    let mut t = base;
    'outwards: while let Some((star, after)) = rest.split_first() {
        t = pointer_type(scope, types, at, star.node, t)?;
        rest = after;
    }
    Ok(t)
}

/// Whether stars or parts stand round the name.
#[tactic(auto, using(c_tree::proofs::TypedViewLaws::typed_views, c_tree::proofs::PushLaws::pushes))]
pub fn is_derived(form: &TypedForm) -> bool
    ensures { result ≡ is_derived (typed_form_view form.now) }
{
    if let Some((_star, _)) = form.stars.as_slice().split_first() {
        return true;
    }
    if let Some((part, _)) = form.parts.as_slice().split_last() {
        if is_some_part(part) {
            return true;
        }
    }
    match &form.core {
        TypedCore::Nested(_, inner) => is_derived(inner.get()),
        _ => false,
    }
}

/// Whether stars or parts stand in the parentheses round the name.
#[tactic(auto, using(c_tree::proofs::TypedViewLaws::typed_views))]
fn is_derived_core(core: &TypedCore) -> bool
    ensures { result ≡ is_derived_core (typed_core_view core.now) }
{
    match core {
        TypedCore::Nested(_, inner) => is_derived(inner.get()),
        _ => false,
    }
}

/// What a form makes of a type: its stars first, then its parts, then what stands in its parentheses.
#[tactic(auto, using(c_tree::proofs::TypedViewLaws::typed_views), unfolding(c_typing::specs::Declaring::form_makes, c_typing::specs::Declaring::core_makes))]
pub fn form_makes(
    scope: &Scope,
    types: &mut Types,
    at: Place,
    nearest: Nearest,
    form: &TypedForm,
    base: TypeId,
) -> Result<TypeId, Fault>
    ensures answers { Answers (λ t. t) (declaring.form_makes at (nearest_view nearest)
        (typed_form_view form.now) base (known types.old scope.now)) result
        (known types.new scope.now) }
    ensures grows { Grows (known types.old scope.now) (known types.new scope.now) }
{
    let t = stars_make(scope, types, at, form.stars.as_slice(), base)?;
    let own = if is_derived_core(&form.core) {
        Nearest::Written
    } else {
        nearest
    };
    let t = parts_make(scope, types, at, own, form.parts.as_slice(), t)?;
    match &form.core {
        TypedCore::Nested(_, inner) => form_makes(scope, types, at, nearest, inner.get(), t),
        _ => Ok(t),
    }
}

/// What a declarator that may be left out makes of a type.
#[tactic(auto, using(c_tree::proofs::TypedViewLaws::typed_views), unfolding(c_typing::specs::Declaring::declared_makes))]
pub fn declared_makes(
    scope: &Scope,
    types: &mut Types,
    at: Place,
    nearest: Nearest,
    declared: Option<&TypedForm>,
    base: TypeId,
) -> Result<TypeId, Fault>
    ensures answers { Answers (λ t. t) (declaring.declared_makes at (nearest_view nearest)
        (typed_declared_of (option_map typed_form_view (option_copied declared.entry))) base
        (known types.old scope.now)) result (known types.new scope.now) }
    ensures grows { Grows (known types.old scope.now) (known types.new scope.now) }
{
    match declared {
        Some(form) => form_makes(scope, types, at, nearest, form, base),
        None => Ok(base),
    }
}
