//! The globals of a program: the areas of its static objects, what they begin with, and their addresses.
#![tactic(auto)]

ghost use Rattle.std.specs.Prelude.{◌≡◌, ◌*◌, ◌≤◌, IfOk, Some, length, map};
ghost use Rattle.std.specs.List.{All};
ghost use Rattle.cc_base.specs.Kinds.{kind_at};
ghost use Rattle.cured_code.specs.FlatMachine.{global_areas, placed};
ghost use Rattle.cure_rules.specs.Programs.{IsFirstOf, AreGlobals};
ghost use Rattle.cure_tables.specs.Objects.{IsObject, IsGlobalOf};

use crate::areas::area_of;
use cc_base::{Kinds, NoMemory};
use cil_form::Static;
use cured_code::{Bytes, GlobalLine};
use fat_layouts::Layouts;
use flat_mem::{Area, area_size};
use std::alloc::Global;

/// A text without the zeros at its end.
fn without_zeros(text: &[u8]) -> &[u8]
    ensures { IsFirstOf (Some text.now) result.now }
{
    let mut count = text.len();
    'zeros: while count > 0 && text[count - 1] == 0 {
        count -= 1;
    }
    &text[..count]
}

/// What a static object begins with: a string literal with its bytes, without the zeros at its end; another one with zeros.
fn first_bytes(alloc: Global, object: &Static) -> Result<Vec<u8>, NoMemory>
    ensures { IfOk result (λ first. IsFirstOf object.now.text first.items) }
{
    match &object.text {
        Some(text) => Ok(Vec::from_slice(alloc, without_zeros(&text.0))?),
        None => Ok(Vec::new(alloc)),
    }
}

/// The global of a static object.
fn global_of(
    alloc: Global,
    layouts: &Layouts,
    kinds: &Kinds,
    object: &Static,
) -> Result<GlobalLine, NoMemory>
    requires object { IsObject layouts.now.table (length kinds.now) object.now.planned }
    requires kinds { layouts.now.kinds ≡ kinds.now }
    ensures { IfOk result (IsGlobalOf layouts.now.table (kind_at kinds.now) object.now) }
{
    let first = first_bytes(alloc, object)?;
    Ok(GlobalLine {
        area: area_of(layouts, kinds, object.planned),
        first: Bytes(first),
    })
}

/// The globals of the static objects of a program, in order.
pub fn globals_of(
    alloc: Global,
    layouts: &Layouts,
    kinds: &Kinds,
    statics: &[Static],
) -> Result<Vec<GlobalLine>, NoMemory>
    requires objects { All (λ s. IsObject layouts.now.table (length kinds.now) s.planned)
        statics.now }
    requires kinds { layouts.now.kinds ≡ kinds.now }
    ensures { IfOk result (λ all. AreGlobals layouts.now.table
        (kind_at kinds.now) statics.now all.items) }
{
    let mut all = Vec::with_capacity(alloc, statics.len())?;
    'statics: for object in statics {
        all.push(global_of(alloc, layouts, kinds, object)?)?;
    }
    Ok(all)
}

/// The addresses of globals, whose areas lie one after another behind the words of so many functions.
pub fn addresses(
    alloc: Global,
    functions: u32,
    globals: &[GlobalLine],
) -> Result<Vec<u64>, NoMemory>
    requires functions { functions ≤ 65536 }
    requires few { length globals.now ≤ 1048576 }
    requires small { All (λ g. g.area.bytes ≤ 3145728) globals.now }
    ensures { IfOk result (λ all.
        all.items ≡ map (λ a. a.address) (placed (global_areas globals.now) (8 * functions))) }
{
    let mut all = Vec::with_capacity(alloc, globals.len())?;
    let mut start = 8 * u64::from(functions);
    'globals: for global in globals {
        all.push(start + 8)?;
        start += area_size(Area {
            tagged: global.area.tagged,
            bytes: global.area.bytes,
        });
    }
    Ok(all)
}
