//! The code of functions.
ghost use Rattle.std.specs.Prelude.{◌≡◌, [], map, IfOk};
ghost use Rattle.cil_form.specs.Machine.{plan};
ghost use Rattle.lower_rules.specs.Units.{IsCodeOfFunction, outermost};
ghost use Rattle.lower_rules.specs.Statements.{IsCodeOfBlock};
ghost use Rattle.c_tree.specs.TypedStatementViews.{typed_block_view};
ghost use Rattle.c_tree.specs.TypedParts.{made_by_block_items};
ghost use Rattle.lower_exprs.specs.Drafts.{context_of};
ghost use Rattle.unit_parts.specs.Collecting.{locals_from};
ghost use Rattle.lower_statements.specs.Ready.{HasCodeOfBlock};
ghost use Rattle.lower_units.specs.Heads.{function_seen};
ghost use Rattle.lower_units.specs.Ready.{HasCodeOfFunction};

use crate::collecting::nothing;
use crate::drafts::finished;
use crate::homes::variable_homes;
use crate::parameters::parameters_of;
use crate::statics::declared_type;
use c_tree::{TypedBlockItem, TypedFunction};
use c_types::Types;
use cc_base::{NoMemory, NodeId};
use cil_form::{Code, Function, Locals};
use indexmap::IndexSet;
use lower_exprs::{Scope, start};
use lower_statements::{Nesting, block};
use std::alloc::Global;
use unit_contents::block as parts_of_block;

/// What the code of a unit's functions depends on beside their trees: the types, and the homes of the static objects.
#[derive(Drop)]
pub(crate) struct Unit<'a> {
    pub(crate) alloc: Global,
    pub(crate) types: &'a Types,
    pub(crate) statics: &'a IndexSet<NodeId>,
}

/// The local variables of a body, in the order of the text.
#[tactic(auto, using(crate::proofs::HeadLaws::locals_found))]
fn locals_of(k: &Unit<'_>, body: &[TypedBlockItem]) -> Result<Locals, NoMemory>
    ensures { IfOk result (λ locals. map plan locals
        ≡ locals_from (made_by_block_items (typed_block_view body.now))) }
{
    let scope = unit_parts::Scope {
        alloc: k.alloc,
        types: k.types,
    };
    let mut out = nothing(k.alloc);
    parts_of_block(&mut out, &scope, body);
    let unit_parts::Scope { alloc: _, types: _ } = scope;
    if out.fine {
        Ok(Locals(out.locals))
    } else {
        Err(NoMemory)
    }
}

/// The code of a body in its function.
fn body_of(scope: &Scope<'_>, body: &[TypedBlockItem]) -> Result<Code, NoMemory>
    requires { HasCodeOfBlock (typed_block_view body.now) (context_of scope.now) outermost }
    ensures { IfOk result (λ code. IsCodeOfBlock (typed_block_view body.now)
        (context_of scope.now) outermost code.0.items) }
{
    let mut out = start(scope);
    let nesting = Nesting {
        breaks: 0,
        continues: 0,
        switches: 0,
    };
    block(&mut out, scope, nesting, body);
    finished(out)
}

/// The code of a function.
pub(crate) fn function(k: &Unit<'_>, f: &TypedFunction) -> Result<Function, NoMemory>
    requires { HasCodeOfFunction k.now.types.now k.now.statics.now.keys (function_seen f.now) }
    ensures { IfOk result (λ made. IsCodeOfFunction k.now.types.now k.now.statics.now.keys
        (function_seen f.now) made) }
{
    let body = f.body.as_slice();
    let parameters = parameters_of(k.alloc, &f.declarator)?;
    let locals = locals_of(k, body)?;
    let variables = variable_homes(k.alloc, parameters.0.as_slice(), locals.0.as_slice())?;
    let scope = Scope {
        alloc: k.alloc,
        types: k.types,
        statics: k.statics,
        variables: &variables,
    };
    let code = body_of(&scope, body);
    let Scope {
        alloc: _,
        types: _,
        statics: _,
        variables: _,
    } = scope;
    let body = code?;
    Ok(Function {
        ty: declared_type(&f.declarator),
        parameters,
        locals,
        body,
    })
}
