//! Writing the code of a unit.
ghost use Rattle.std.specs.Prelude.{◌≤◌, length};

use crate::lowering::code::put_code;
use crate::lowering::pen::Pen;
use crate::lowering::row::Row;
use c_front::typed;
use cc_base::{Fault, NoMemory};
use cil_form::{Cil, Function, Parameter, Program, Static};
use cil_lower::lower;
use std::alloc::Global;

/// The three-address code of a unit in C.
fn code_of(alloc: Global, text: &[u8]) -> Result<Cil, Fault>
    requires { length text.now ≤ 1048576 }
{
    match typed(alloc, text) {
        Ok(typed) => match lower(alloc, &typed) {
            Ok(code) => Ok(code),
            Err(NoMemory) => Err(Fault::NoMemory),
        },
        Err(fault) => Err(fault),
    }
}

fn put_static(pen: &mut Pen<'_>, one: &Static) {
    pen.ty(": ", one.planned.ty);
    pen.node(", home ", one.planned.home);
    if let Some(text) = &one.text {
        pen.text(", bytes");
        for byte in text.0.as_slice() {
            pen.text(" ");
            pen.number(i128::from(*byte))
        }
    }
}

fn put_parameter(pen: &mut Pen<'_>, one: &Parameter) {
    pen.text("\nparameter");
    match one.home {
        Some(home) => {
            pen.ty(" ", one.ty);
            pen.node(", home ", home)
        }
        None => pen.ty(" without a name ", one.ty),
    }
}

fn put_function(pen: &mut Pen<'_>, one: &Function) {
    pen.ty(": ", one.ty);
    for parameter in one.parameters.0.as_slice() {
        put_parameter(pen, parameter)
    }
    for local in one.locals.0.as_slice() {
        pen.ty("\nlocal ", local.ty);
        pen.node(", home ", local.home)
    }
    put_code(pen, 1, &one.body)
}

fn put_program(pen: &mut Pen<'_>, program: &Program) {
    for (i, one) in program.statics.0.iter().enumerate() {
        pen.text("static ");
        pen.number(i as i128);
        put_static(pen, one);
        pen.text("\n")
    }
    if !program.initialisers.0.is_empty() {
        pen.text("initialisers");
        put_code(pen, 1, &program.initialisers);
        pen.text("\n")
    }
    for (i, one) in program.functions.0.iter().enumerate() {
        pen.text("function ");
        pen.number(i as i128);
        put_function(pen, one);
        pen.text("\n")
    }
}

/// The code of a program as text.
fn text_of(alloc: Global, program: &Program, has_nodes: bool) -> anyhow::Result<String> {
    let mut pen = Pen::new(alloc, &program.types, has_nodes);
    put_program(&mut pen, program);
    pen.done()
}

/// The code of a row as text.
pub(crate) fn written(alloc: Global, row: &Row) -> anyhow::Result<String> {
    let text = row.text.as_bytes();
    if text.len() > 1_048_576 {
        return Ok(String::from_str(alloc, "too long")?);
    }
    match code_of(alloc, text) {
        Ok(code) => text_of(alloc, code.program(), row.has_nodes()),
        Err(fault) => Ok(format!(in alloc; "{fault}")?),
    }
}
