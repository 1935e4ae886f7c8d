//! The areas of objects.
#![tactic(auto)]

ghost use Rattle.std.specs.Prelude.{◌≡◌, IfOk, length, map};
ghost use Rattle.std.specs.List.{All};
ghost use Rattle.cc_base.specs.Kinds.{kind_at};
ghost use Rattle.cil_form.specs.Machine.{plan};
ghost use Rattle.cured_code.specs.Tables.{area_of as line_area, areas_of as line_areas};
ghost use Rattle.cure_rules.specs.Calling.{is_tagged_kind};
ghost use Rattle.cure_rules.specs.Functions.{area_for, areas_for};
ghost use Rattle.cure_tables.specs.Objects.{IsObject};

use cc_base::{Kind, Kinds, NoMemory};
use cil_form::Planned;
use cured_code::AreaLine;
use fat_layouts::Layouts;
use std::alloc::Global;

/// Whether the area of an object with a home of this kind has tags.
fn is_tagged(kind: Kind) -> bool
    ensures { result ≡ is_tagged_kind kind }
{
    matches!(kind, Kind::Wild)
}

/// The area of an object: with tags where its home is WILD, else with as many bytes as it takes once cured. Takes no memory.
pub fn area_of(layouts: &Layouts, kinds: &Kinds, object: Planned) -> AreaLine
    requires object { IsObject layouts.now.table (length kinds.now) object }
    requires kinds { layouts.now.kinds ≡ kinds.now }
    ensures { line_area result ≡ area_for layouts.now.table (kind_at kinds.now) (plan object) }
{
    if is_tagged(kinds.kind_of(object.home)) {
        AreaLine {
            tagged: true,
            bytes: layouts.types().size_of(object.ty),
        }
    } else {
        AreaLine {
            tagged: false,
            bytes: layouts.cured_size(object.ty),
        }
    }
}

/// The areas of objects, one by one.
pub fn areas_of(
    alloc: Global,
    layouts: &Layouts,
    kinds: &Kinds,
    objects: &[Planned],
) -> Result<Vec<AreaLine>, NoMemory>
    requires objects { All (IsObject layouts.now.table (length kinds.now)) objects.now }
    requires kinds { layouts.now.kinds ≡ kinds.now }
    ensures { IfOk result (λ areas.
        line_areas areas.items ≡ areas_for layouts.now.table (kind_at kinds.now)
        (map plan objects.now)) }
{
    let mut areas = Vec::with_capacity(alloc, objects.len())?;
    'objects: for object in objects {
        areas.push(area_of(layouts, kinds, *object))?;
    }
    Ok(areas)
}
