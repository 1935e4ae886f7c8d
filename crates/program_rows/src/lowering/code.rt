//! Writing instructions, one a line, and those that they hold one level deeper.
use crate::lowering::pen::Pen;
use cil_form::{
    Access, Allocate, Calculate, Call, Code, Convert, Direction, Instr, Point, RuntimeCall, Set,
    Temp,
};

fn put_set(pen: &mut Pen<'_>, one: Set) {
    match one {
        Set::Integer { into, value, ty } => {
            pen.set(into, "Integer ");
            pen.number(value);
            pen.ty(", ", ty)
        }
        Set::Null { into, ty } => {
            pen.set(into, "Null");
            pen.ty(" ", ty)
        }
        Set::Function { into, function, ty } => {
            pen.set(into, "Function ");
            pen.number(i128::from(function.0));
            pen.ty(", ", ty)
        }
        Set::Object {
            into,
            object,
            home,
            ty,
        } => {
            pen.set(into, "Object ");
            pen.object(object);
            pen.node(", home ", home);
            pen.ty(", ", ty)
        }
        Set::Copy { into, from } => {
            pen.set(into, "");
            pen.temp(from)
        }
    }
}

fn put_calculation(pen: &mut Pen<'_>, one: Calculate) {
    match one {
        Calculate::Negate { into, operand, ty } => {
            pen.set_by(into, "Negate", operand);
            pen.ty(", ", ty)
        }
        Calculate::Complement { into, operand, ty } => {
            pen.set_by(into, "Complement", operand);
            pen.ty(", ", ty)
        }
        Calculate::Binary {
            into,
            operator,
            left,
            right,
            ty,
            place,
        } => {
            pen.set(into, "Binary");
            pen.operator(operator);
            pen.at_temp(" ", left);
            pen.at_temp(" ", right);
            pen.ty(", ", ty);
            pen.place(" at ", place)
        }
        Calculate::Truth { into, operand } => pen.set_by(into, "Truth", operand),
        Calculate::Not { into, operand } => pen.set_by(into, "Not", operand),
    }
}

/// Pointers that move, and those that are compared.
fn put_point(pen: &mut Pen<'_>, one: Point) {
    match one {
        Point::Move {
            into,
            pointer,
            amount,
            direction,
            ty,
            place,
        } => {
            pen.set_by(into, "Move", pointer);
            match direction {
                Direction::Forward => pen.at_temp(" forward ", amount),
                Direction::Backward => pen.at_temp(" backward ", amount),
            }
            pen.ty(", ", ty);
            pen.place(" at ", place)
        }
        Point::Difference {
            into,
            left,
            left_ty,
            right,
            right_ty,
            place,
        } => {
            pen.set_by(into, "Difference", left);
            pen.at_temp(" ", right);
            pen.ty(", ", left_ty);
            pen.ty(", ", right_ty);
            pen.place(" at ", place)
        }
        Point::Compare {
            into,
            comparison,
            left,
            left_ty,
            right,
            right_ty,
            place,
        } => {
            pen.set(into, "Compare");
            pen.comparison(comparison);
            pen.at_temp(" ", left);
            pen.at_temp(" ", right);
            pen.ty(", ", left_ty);
            pen.ty(", ", right_ty);
            pen.place(" at ", place)
        }
        Point::IsNull {
            into,
            pointer,
            ty,
            different,
        } => {
            pen.set_by(
                into,
                if different { "IsNull !=" } else { "IsNull ==" },
                pointer,
            );
            pen.ty(", ", ty)
        }
        other => put_part(pen, other),
    }
}

/// Addresses of parts.
fn put_part(pen: &mut Pen<'_>, one: Point) {
    match one {
        Point::Member {
            into,
            from,
            outer,
            ty,
            member,
            inner,
            member_ty,
            place,
        } => {
            pen.set(into, "Member ");
            pen.number(i128::from(member));
            pen.at_temp(" of ", from);
            pen.node(", node ", outer);
            pen.ty(", ", ty);
            pen.node(", node ", inner);
            pen.ty(", ", member_ty);
            pen.place(" at ", place)
        }
        Point::Decay {
            into,
            from,
            outer,
            array,
            checked,
            inner,
            element,
            place,
        } => {
            pen.set_by(into, if checked { "Decay checked" } else { "Decay" }, from);
            pen.node(", node ", outer);
            pen.ty(", ", array);
            pen.node(", node ", inner);
            pen.ty(", ", element);
            pen.place(" at ", place)
        }
        Point::Address {
            into,
            from,
            outer,
            inner,
            ty,
        } => {
            pen.set_by(into, "Address", from);
            pen.node(", node ", outer);
            pen.node(", node ", inner);
            pen.ty(", ", ty)
        }
        _ => {}
    }
}

fn put_conversion(pen: &mut Pen<'_>, one: Convert) {
    match one {
        Convert::Integer { into, from, ty } => {
            pen.set_by(into, "Convert", from);
            pen.ty(", ", ty)
        }
        Convert::ToPointer {
            into,
            from,
            ty,
            place,
        } => {
            pen.set_by(into, "ToPointer", from);
            pen.ty(", ", ty);
            pen.place(" at ", place)
        }
        Convert::FromPointer {
            into,
            from,
            from_ty,
            ty,
        } => {
            pen.set_by(into, "FromPointer", from);
            pen.ty(", ", from_ty);
            pen.ty(", ", ty)
        }
        Convert::Pointer {
            into,
            from,
            from_ty,
            ty,
            place,
        } => {
            pen.set_by(into, "Convert", from);
            pen.ty(", ", from_ty);
            pen.ty(", ", ty);
            pen.place(" at ", place)
        }
    }
}

fn put_access(pen: &mut Pen<'_>, one: Access) {
    match one {
        Access::Load {
            into,
            from,
            node,
            ty,
            place,
        } => {
            pen.set_by(into, "Load", from);
            pen.node(", node ", node);
            pen.ty(", ", ty);
            pen.place(" at ", place)
        }
        Access::Store {
            target,
            value,
            ty,
            place,
            assignment,
        } => {
            pen.at_temp("Store ", value);
            pen.target(target);
            pen.ty(", ", ty);
            pen.place(" at ", place);
            pen.place(", assignment ", assignment)
        }
        Access::Clear { object } => {
            pen.text("Clear ");
            pen.object(object)
        }
        Access::Copy {
            target,
            target_place,
            from,
            from_node,
            from_place,
            ty,
            assignment,
        } => {
            pen.at_temp("Copy ", from);
            pen.node(", node ", from_node);
            pen.place(" at ", from_place);
            pen.target(target);
            pen.place(" at ", target_place);
            pen.ty(", ", ty);
            pen.place(", assignment ", assignment)
        }
    }
}

fn put_allocation(pen: &mut Pen<'_>, one: Allocate) {
    match one {
        Allocate::Malloc {
            into,
            size,
            node,
            ty,
            place,
        } => {
            pen.set_by(into, "Malloc", size);
            pen.node(", node ", node);
            pen.ty(", ", ty);
            pen.place(" at ", place)
        }
        Allocate::Calloc {
            into,
            count,
            size,
            node,
            ty,
            place,
        } => {
            pen.set_by(into, "Calloc", count);
            pen.at_temp(" ", size);
            pen.node(", node ", node);
            pen.ty(", ", ty);
            pen.place(" at ", place)
        }
    }
}

fn put_call(pen: &mut Pen<'_>, one: Call) {
    pen.set_by(one.into, "Call", one.callee);
    pen.ty(", ", one.ty);
    pen.text(", ");
    pen.number(i128::from(one.count));
    pen.at_temp(" from ", Temp::Value(one.first));
    pen.place(" at ", one.place)
}

fn put_runtime(pen: &mut Pen<'_>, one: RuntimeCall) {
    match one {
        RuntimeCall::Free { into, pointer } => pen.set_by(into, "Free", pointer),
        RuntimeCall::Getchar { into } => pen.set(into, "Getchar"),
        RuntimeCall::Putchar { into, value } => pen.set_by(into, "Putchar", value),
        RuntimeCall::Exit { into, status } => pen.set_by(into, "Exit", status),
    }
}

#[cycle(code)]
fn put_instr(pen: &mut Pen<'_>, depth: u32, one: &Instr) {
    pen.line(depth);
    match one {
        Instr::Set(one) => put_set(pen, *one),
        Instr::Calculate(one) => put_calculation(pen, *one),
        Instr::Point(one) => put_point(pen, *one),
        Instr::Convert(one) => put_conversion(pen, *one),
        Instr::Access(one) => put_access(pen, *one),
        Instr::Allocate(one) => put_allocation(pen, *one),
        Instr::Call(one) => put_call(pen, *one),
        Instr::Runtime(one) => put_runtime(pen, *one),
        Instr::If {
            condition,
            then,
            otherwise,
        } => {
            pen.at_temp("If ", *condition);
            put_code(pen, depth.saturating_add(1), then);
            if !otherwise.0.is_empty() {
                pen.line(depth);
                pen.text("else");
                put_code(pen, depth.saturating_add(1), otherwise)
            }
        }
        Instr::Block(code) => {
            pen.text("Block");
            put_code(pen, depth.saturating_add(1), code)
        }
        Instr::Loop(code) => {
            pen.text("Loop");
            put_code(pen, depth.saturating_add(1), code)
        }
        Instr::Break(k) => {
            pen.text("Break ");
            pen.number(i128::from(*k))
        }
        Instr::Return => pen.text("Return"),
        Instr::ReturnValue { value, ty, place } => {
            pen.at_temp("ReturnValue ", *value);
            pen.ty(", ", *ty);
            pen.place(" at ", *place)
        }
    }
}

/// Writes instructions this deep.
#[cycle(code)]
pub(crate) fn put_code(pen: &mut Pen<'_>, depth: u32, code: &Code) {
    for one in code.0.as_slice() {
        put_instr(pen, depth, one)
    }
}
