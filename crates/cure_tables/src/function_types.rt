//! The signatures of function types.
#![tactic(auto)]

ghost use Rattle.std.specs.Prelude.{◌≡◌, ◌*◌, ◌≤◌, ◌<◌, IfOk, OnOk, IfSome, IfNone, true, length, slice_index, sum_by};
ghost use Rattle.std.specs.List.{All};
ghost use Rattle.cc_base.specs.Kinds.{kind_at};
ghost use Rattle.c_types.specs.Table.{IsType, AreNodesOf, is_function};
ghost use Rattle.c_types.specs.Sound.{IsWellFormed};
ghost use Rattle.cured_code.specs.Ranges.{IsSigInRange};
ghost use Rattle.cure_rules.specs.Functions.{words_at, signature_of, AreSignatures};
ghost use Rattle.rtti_nodes.specs.Numbering.{TellClasses};
ghost use Rattle.cure_tables.specs.Signed.{IsAlikeAt, IsNoneAlike, IsPassed, AreSigned};

use crate::words::words_in;
use c_types::{TypeShape, Types};
use cc_base::{Kinds, NoMemory, TypeId};
use cured_code::Sig;
use phys_types::Known;
use rtti_nodes::{ClassNumbers, class_numbers, is_of_one_class};
use std::alloc::Global;

/// How many words values of these types take together.
fn sum_of_words(types: &Types, kinds: &Kinds, ts: &[TypeId]) -> u32
    requires few { length ts.now ≤ 127 }
    requires typed { All (IsType types.now) ts.now }
    requires nodes { All (λ e. AreNodesOf (length kinds.now) e.shape) types.now }
    ensures sum { result ≡ sum_by (words_at types.now (kind_at kinds.now)) ts.now }
    ensures most { result ≤ 381 }
{
    let mut sum = 0;
    'types: for t in ts {
        sum += words_in(types, kinds, *t);
    }
    sum
}

/// What functions of a type take and give; of a type with more parameters than a defined function may have nothing is said.
fn signature_of(types: &Types, kinds: &Kinds, t: TypeId) -> Sig
    requires typed { IsType types.now t }
    requires nodes { All (λ e. AreNodesOf (length kinds.now) e.shape) types.now }
    ensures sig { result ≡ signature_of types.now (kind_at kinds.now) t }
    ensures kept { IsSigInRange result }
{
    let _count = types.count();
    match types.shape(t) {
        TypeShape::Function(parameters, result) if parameters.ids().len() <= 127 => Sig {
            params: sum_of_words(types, kinds, parameters.ids()),
            results: words_in(types, kinds, *result),
        },
        _ => Sig {
            params: 0,
            results: 0,
        },
    }
}

/// The place of the first of the types that is of the class of a type.
fn place_of(
    known: &Known,
    kinds: &Kinds,
    told: &ClassNumbers,
    firsts: &[TypeId],
    t: TypeId,
) -> Result<Option<usize>, NoMemory>
    requires formed { IsWellFormed known.now }
    requires types { All (IsType known.now) firsts.now }
    requires typed { IsType known.now t }
    requires nodes { All (λ e. AreNodesOf (length kinds.now) e.shape) known.now }
    requires told { TellClasses known.now (kind_at kinds.now) told.now }
    ensures found { IfOk result
        (λ place. IfSome place (IsAlikeAt known.now (kind_at kinds.now) firsts.now t)) }
    ensures none { IfOk result
        (λ place. IfNone place (IsNoneAlike known.now (kind_at kinds.now) firsts.now t)) }
{
    'firsts: for i in 0..firsts.len() {
        if is_of_one_class(known, kinds, told, t, firsts[i])? {
            return Ok(Some(i));
        }
    }
    Ok(None)
}

/// Signatures in the making: the first type of each class, its signature, and of each function type the number of its signature.
#[derive(Drop)]
pub(crate) struct Signing {
    pub(crate) firsts: Vec<TypeId>,
    pub(crate) sigs: Vec<Sig>,
    pub(crate) numbers: Vec<u32>,
}

/// Whether a type is a function type.
fn is_function(types: &Types, t: TypeId) -> bool
    requires { IsType types.now t }
    ensures { result ≡ is_function types.now t }
{
    matches!(types.shape(t), TypeShape::Function(_, _))
}

/// Gives a function type the signature of its class, or a new one; any other type is passed.
fn sign(
    known: &Known,
    types: &Types,
    kinds: &Kinds,
    told: &ClassNumbers,
    state: &mut Signing,
    t: TypeId,
) -> Result<(), NoMemory>
    requires table { known.now ≡ types.now }
    requires first { All (IsType known.now) state.old.firsts.items }
    requires typed { IsType known.now t }
    requires nodes { All (λ e. AreNodesOf (length kinds.now) e.shape) known.now }
    requires few { length state.old.firsts.items < 4294967295 }
    requires fits { t.0 < length state.old.numbers.items }
    requires told { TellClasses known.now (kind_at kinds.now) told.now }
    ensures { OnOk result (IsPassed known.now (kind_at kinds.now) t state.old state.new) }
{
    let _count = types.count();
    if !is_function(types, t) {
        return Ok(());
    }
    if let Some(place) = place_of(known, kinds, told, &state.firsts, t)? {
        state.numbers[t.0 as usize] = place as u32 + 1;
        return Ok(());
    }
    state.firsts.push(t)?;
    state.sigs.push(signature_of(types, kinds, t))?;
    state.numbers[t.0 as usize] = state.firsts.len() as u32;
    Ok(())
}

/// The signatures of a program, that of function 0 first, and of each function type the number of its signature.
#[derive(Drop)]
pub struct Signatures {
    pub sigs: Vec<Sig>,
    pub numbers: Vec<u32>,
}

/// The signatures that were made.
fn finished(state: Signing) -> Signatures
    ensures sigs { result.sigs.items ≡ state.sigs.items }
    ensures numbers { result.numbers.items ≡ state.numbers.items }
{
    let Signing {
        firsts: _firsts,
        sigs,
        numbers,
    } = state;
    Signatures { sigs, numbers }
}

/// The signatures of all function types: types have one where they are of one class.
pub fn signatures_of(
    alloc: Global,
    known: &Known,
    types: &Types,
    kinds: &Kinds,
) -> Result<Signatures, NoMemory>
    requires table { known.now ≡ types.now }
    requires nodes { All (λ e. AreNodesOf (length kinds.now) e.shape) known.now }
    ensures signed { IfOk result (λ s. AreSignatures types.now (kind_at kinds.now)
        (λ t. slice_index s.numbers.items t.0) s.sigs.items) }
    ensures kept { IfOk result (λ s. All IsSigInRange s.sigs.items) }
    ensures few { IfOk result (λ s. length s.sigs.items ≤ 65536) }
{
    let count = types.count();
    let told = class_numbers(alloc, known, types, kinds)?;
    let mut state = Signing {
        firsts: Vec::new(alloc),
        sigs: vec![in alloc; Sig {
            params: 0,
            results: 0
        }; 1]?,
        numbers: vec![in alloc; 0; count as usize]?,
    };
    'types: for t in 0..count {
        sign(known, types, kinds, &told, &mut state, TypeId(t))?;
    }
    Ok(finished(state))
}
