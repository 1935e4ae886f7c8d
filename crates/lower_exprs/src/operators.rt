//! Instructions of constants, operators and conversions, over values that are there.
ghost use Rattle.std.specs.Prelude.{◌≡◌, ◌<◌, suc, pos, IfSome, IfNone, Some, None, [], ◌∷◌, true, IsTrue, ◌↔◌};
ghost use Rattle.c_types.specs.Table.{shape_at};
ghost use Rattle.c_typing.specs.KindViews.{kind_view};
ghost use Rattle.c_tree.specs.Arithmetic.{operator_of};
ghost use Rattle.c_tree.specs.TypedParts.{is_null, type_of};
ghost use Rattle.c_tree.specs.TypedViews.{typed_expr_view};
ghost use Rattle.cil_form.specs.declared.instr.Instr.TheVariants as instr;
ghost use Rattle.cil_form.specs.declared.instr.Set.TheVariants as set;
ghost use Rattle.cil_form.specs.declared.instr.Calculate.TheVariants as calculate;
ghost use Rattle.cil_form.specs.declared.instr.Point.TheVariants as point;
ghost use Rattle.src_machine.specs.Expressions.{is_or, is_different, is_subtract, operator_of_step, operator_of_assignment};
ghost use Rattle.src_mem.specs.Operations.{integer_of_shape};
ghost use Rattle.lower_rules.specs.Pieces.{Line};
ghost use Rattle.lower_rules.specs.Words.{value, constant, lowered, lowered_assignment, lowered_step, direction_of, comparison_of, ComparesBy, Constant, Truth, Prefixes, Calculates, Moves, Compares, Converts, Objects};
ghost use Rattle.lower_exprs.specs.Drafts.{context_of, Grows};
ghost use Rattle.lower_exprs.specs.Ready.{IsConstant, IsPrefix, IsComparison, HasObject};

use crate::draft::{Draft, Scope};
use crate::pieces::{keep, push, put, refuse};
use crate::places::object_in;
use c_tree::{Assignment, Binary, Conversion, Side, Step, TypedExpr, Unary};
use c_types::TypeShape;
use c_typing::kind::Kind;
use c_typing::value::converted;
use cc_base::{NodeId, Place, TypeId};
use cil_form::{
    Calculate, Comparison, Convert, Direction, FunctionNumber, Instr, Operator, Point, Set, Temp,
};

/// `int`.
pub(crate) const INT: TypeId = TypeId(5);

/// The instruction that sets value t to an integer.
pub(crate) fn set_integer(into: Temp, value: i128, ty: TypeId) -> Instr
    ensures { result ≡ instr.Set (set.Integer into value ty) }
{
    Instr::Set(Set::Integer { into, value, ty })
}

/// A truth value.
pub(crate) fn put_truth(out: &mut Draft, t: u8, n: u8)
    ensures { Grows (Line (instr.Set (set.Integer (value t) (pos n) (record { 0 = 5 })) ∷ []))
        (Unit {0}) out.old out.new }
{
    put(out, set_integer(Temp::Value(t), i128::from(n), INT))
}

/// A constant of the type, converted to it.
#[tactic(auto, using(crate::proofs::Rules::failed_rules), unfolding(lower_rules::specs::Words::Constant))]
pub fn put_constant(out: &mut Draft, k: &Scope<'_>, t: u8, ty: TypeId, z: i128)
    ensures { Grows (Constant (context_of k.now) t ty z)
        (IsConstant (context_of k.now) ty) out.old out.new }
{
    let kind = constant_kind(k, ty);
    if kind.bytes == 1 || kind.bytes == 2 || kind.bytes == 4 || kind.bytes == 8 {
        put(out, set_integer(Temp::Value(t), converted(kind, z), ty))
    } else {
        refuse(out)
    }
}

/// A constant of 64 bits without a sign.
pub(crate) fn put_unsigned(out: &mut Draft, k: &Scope<'_>, t: u8, ty: TypeId, n: &u64)
    ensures { Grows (Constant (context_of k.now) t ty (pos n.now))
        (IsConstant (context_of k.now) ty) out.old out.new }
{
    put_constant(out, k, t, ty, i128::from(*n))
}

/// A character constant.
pub(crate) fn put_character(out: &mut Draft, k: &Scope<'_>, t: u8, ty: TypeId, z: &i32)
    ensures { Grows (Constant (context_of k.now) t ty z.now)
        (IsConstant (context_of k.now) ty) out.old out.new }
{
    put_constant(out, k, t, ty, i128::from(*z))
}

/// An enumeration constant.
pub(crate) fn put_enumerator(out: &mut Draft, k: &Scope<'_>, t: u8, ty: TypeId, z: &i128)
    ensures { Grows (Constant (context_of k.now) t ty z.now)
        (IsConstant (context_of k.now) ty) out.old out.new }
{
    put_constant(out, k, t, ty, *z)
}

/// The integer type of constants of the type.
fn constant_kind(k: &Scope<'_>, t: TypeId) -> Kind
    ensures { kind_view result ≡ integer_of_shape (shape_at k.now.types.now t) }
{
    let int = Kind {
        bytes: 4,
        signed: true,
    };
    if t.0 < k.types.count() {
        match k.types.shape(t) {
            TypeShape::Integer { bytes, signed } => Kind {
                bytes: *bytes,
                signed: *signed,
            },
            _ => int,
        }
    } else {
        int
    }
}

/// The address of a function, which is of the pointer type.
pub(crate) fn put_function(out: &mut Draft, t: u8, number: u32, ty: TypeId)
    ensures { Grows (Line (instr.Set (set.Function (value t) (record { 0 = number }) ty) ∷ []))
        (Unit {0}) out.old out.new }
{
    put(
        out,
        Instr::Set(Set::Function {
            into: Temp::Value(t),
            function: FunctionNumber(number),
            ty,
        }),
    )
}

/// The address of an object.
#[tactic(auto, using(crate::proofs::Rules::object_rules))]
pub(crate) fn put_object(out: &mut Draft, k: &Scope<'_>, t: u8, home: NodeId, ty: TypeId)
    ensures { Grows (Objects (context_of k.now) t home ty)
        (HasObject (context_of k.now) home) out.old out.new }
{
    match object_in(k, home) {
        Some(object) => push(
            out,
            Instr::Set(Set::Object {
                into: Temp::Value(t),
                object,
                home,
                ty,
            }),
        ),
        None => refuse(out),
    }
}

/// `+`, `-`, `~` and `!`.
#[tactic(auto, using(crate::proofs::Rules::failed_rules), unfolding(lower_rules::specs::Words::Prefixes))]
pub(crate) fn put_prefix(out: &mut Draft, op: Unary, t: u8, ty: TypeId)
    ensures { Grows (Prefixes op t ty) (IsPrefix op) out.old out.new }
{
    let into = Temp::Value(t);
    let operand = into;
    match op {
        Unary::Plus => keep(out),
        Unary::Minus => put(
            out,
            Instr::Calculate(Calculate::Negate { into, operand, ty }),
        ),
        Unary::Complement => put(
            out,
            Instr::Calculate(Calculate::Complement { into, operand, ty }),
        ),
        Unary::Not => put(out, Instr::Calculate(Calculate::Not { into, operand })),
        _ => refuse(out),
    }
}

/// The truth value of value t.
pub(crate) fn put_test(out: &mut Draft, t: u8)
    ensures { Grows (Line (instr.Calculate (calculate.Truth (value t) (value t)) ∷ []))
        (Unit {0}) out.old out.new }
{
    put(
        out,
        Instr::Calculate(Calculate::Truth {
            into: Temp::Value(t),
            operand: Temp::Value(t),
        }),
    )
}

#[tactic(auto, unfolding(lower_rules::specs::Words::lowered))]
pub(crate) fn lowered(op: Binary) -> Operator
    ensures { result ≡ lowered op }
{
    match op {
        Binary::Multiply => Operator::Multiply,
        Binary::Divide => Operator::Divide,
        Binary::Remainder => Operator::Remainder,
        Binary::Add => Operator::Add,
        Binary::Subtract => Operator::Subtract,
        Binary::ShiftLeft => Operator::ShiftLeft,
        Binary::ShiftRight => Operator::ShiftRight,
        Binary::Less => Operator::Compare(Comparison::Less),
        Binary::Greater => Operator::Compare(Comparison::Greater),
        Binary::LessEqual => Operator::Compare(Comparison::LessOrEqual),
        Binary::GreaterEqual => Operator::Compare(Comparison::GreaterOrEqual),
        Binary::Equal => Operator::Compare(Comparison::Equal),
        Binary::NotEqual => Operator::Compare(Comparison::Different),
        Binary::BitAnd | Binary::LogicalAnd => Operator::And,
        Binary::BitXor => Operator::ExclusiveOr,
        Binary::BitOr | Binary::LogicalOr => Operator::Or,
    }
}

#[tactic(auto, unfolding(lower_rules::specs::Words::lowered_assignment))]
pub(crate) fn lowered_assignment(op: Assignment) -> Operator
    ensures { result ≡ lowered_assignment op }
{
    match op {
        Assignment::Multiply => Operator::Multiply,
        Assignment::Divide => Operator::Divide,
        Assignment::Remainder => Operator::Remainder,
        Assignment::Add | Assignment::Assign => Operator::Add,
        Assignment::Subtract => Operator::Subtract,
        Assignment::ShiftLeft => Operator::ShiftLeft,
        Assignment::ShiftRight => Operator::ShiftRight,
        Assignment::BitAnd => Operator::And,
        Assignment::BitXor => Operator::ExclusiveOr,
        Assignment::BitOr => Operator::Or,
    }
}

#[tactic(auto, unfolding(lower_rules::specs::Words::lowered_step))]
pub(crate) fn lowered_step(which: Step) -> Operator
    ensures { result ≡ lowered_step which }
{
    match which {
        Step::Increment => Operator::Add,
        Step::Decrement => Operator::Subtract,
    }
}

/// Which way a pointer moves.
#[tactic(auto, unfolding(lower_rules::specs::Words::direction_of))]
pub(crate) fn direction_of(backwards: bool) -> Direction
    ensures { result ≡ direction_of backwards }
{
    if backwards {
        Direction::Backward
    } else {
        Direction::Forward
    }
}

pub(crate) fn is_subtraction(op: Binary) -> bool
    ensures { result ≡ is_subtract (operator_of op) }
{
    matches!(op, Binary::Subtract)
}

pub(crate) fn subtracts(op: Assignment) -> bool
    ensures { result ≡ is_subtract (operator_of_assignment op) }
{
    matches!(op, Assignment::Subtract)
}

pub(crate) fn goes_backwards(which: Step) -> bool
    ensures { result ≡ is_subtract (operator_of_step which) }
{
    matches!(which, Step::Decrement)
}

pub(crate) fn is_or(op: Binary) -> bool
    ensures { result ≡ is_or op }
{
    matches!(op, Binary::LogicalOr)
}

fn is_different(op: Binary) -> bool
    ensures { result ≡ is_different op }
{
    matches!(op, Binary::NotEqual)
}

/// Whether an operand of a comparison is a null constant.
#[tactic(auto, using(c_tree::proofs::TypedViewLaws::typed_views))]
pub(crate) fn is_null(e: &TypedExpr) -> bool
    ensures { result ≡ is_null (typed_expr_view e.now) }
{
    match e {
        TypedExpr::Convert(which, _, _, _) => matches!(which, Conversion::NullToPointer),
        _ => false,
    }
}

#[tactic(auto, unfolding(lower_rules::specs::Words::comparison_of))]
fn comparison_of(op: Binary) -> Option<Comparison>
    ensures { result ≡ comparison_of op }
{
    match op {
        Binary::Less => Some(Comparison::Less),
        Binary::Greater => Some(Comparison::Greater),
        Binary::LessEqual => Some(Comparison::LessOrEqual),
        Binary::GreaterEqual => Some(Comparison::GreaterOrEqual),
        Binary::Equal => Some(Comparison::Equal),
        Binary::NotEqual => Some(Comparison::Different),
        _ => None,
    }
}

/// An operator on the integers in values t and t + 1, the first of the type.
#[tactic(auto, using(crate::proofs::Rules::failed_rules))]
pub(crate) fn put_binary(out: &mut Draft, t: u8, operator: Operator, ty: TypeId, place: Place)
    ensures { Grows (Calculates operator t ty place) (suc t < 256) out.old out.new }
{
    if t < 255 {
        put(
            out,
            Instr::Calculate(Calculate::Binary {
                into: Temp::Value(t),
                operator,
                left: Temp::Value(t),
                right: Temp::Value(t + 1),
                ty,
                place,
            }),
        )
    } else {
        refuse(out)
    }
}

/// Two operands, in values t and t + 1, and their types.
#[derive(Clone, Copy)]
pub(crate) struct Operands {
    pub(crate) first: u8,
    pub(crate) left: TypeId,
    pub(crate) right: TypeId,
    pub(crate) place: Place,
}

/// The operands of an operator, in values t and t + 1.
pub(crate) fn operands_of(t: u8, a: &TypedExpr, b: &TypedExpr, place: Place) -> Operands
    ensures { result ≡ record {
      first = t;
      left = type_of (typed_expr_view a.now);
      right = type_of
          (typed_expr_view b.now);
      place = place;
    } }
{
    Operands {
        first: t,
        left: a.ty(),
        right: b.ty(),
        place,
    }
}

/// A pointer plus or minus an integer.
#[tactic(auto, using(crate::proofs::Rules::failed_rules), unfolding(lower_rules::specs::Words::Moves))]
pub(crate) fn put_move(out: &mut Draft, which: Side, backwards: bool, two: Operands)
    ensures { Grows (Moves which backwards two.first two.left two.right two.place)
        (suc two.first < 256) out.old out.new }
{
    let t = two.first;
    if t < 255 {
        let direction = direction_of(backwards);
        let place = two.place;
        match which {
            Side::Left => put(
                out,
                Instr::Point(Point::Move {
                    into: Temp::Value(t),
                    pointer: Temp::Value(t),
                    amount: Temp::Value(t + 1),
                    direction,
                    ty: two.left,
                    place,
                }),
            ),
            Side::Right => put(
                out,
                Instr::Point(Point::Move {
                    into: Temp::Value(t),
                    pointer: Temp::Value(t + 1),
                    amount: Temp::Value(t),
                    direction,
                    ty: two.right,
                    place,
                }),
            ),
        }
    } else {
        refuse(out)
    }
}

/// The difference of two pointers.
#[tactic(auto, using(crate::proofs::Rules::failed_rules))]
pub(crate) fn put_difference(out: &mut Draft, two: Operands)
    ensures { Grows (Line (instr.Point (point.Difference (value two.first)
        (value two.first) two.left (value (suc two.first)) two.right two.place) ∷ []))
        (suc two.first < 256) out.old out.new }
{
    let t = two.first;
    if t < 255 {
        put(
            out,
            Instr::Point(Point::Difference {
                into: Temp::Value(t),
                left: Temp::Value(t),
                left_ty: two.left,
                right: Temp::Value(t + 1),
                right_ty: two.right,
                place: two.place,
            }),
        )
    } else {
        refuse(out)
    }
}

/// A pointer, in value `from`, compared with a null constant.
fn put_is_null(out: &mut Draft, t: u8, from: u8, ty: TypeId, different: bool)
    ensures { Grows (Line (instr.Point (point.IsNull (value t) (value from) ty different) ∷ []))
        (Unit {0}) out.old out.new }
{
    put(
        out,
        Instr::Point(Point::IsNull {
            into: Temp::Value(t),
            pointer: Temp::Value(from),
            ty,
            different,
        }),
    )
}

/// A comparison of two pointers, by whether the one or the other is a null constant.
#[tactic(auto, using(crate::proofs::Rules::compared_rules), unfolding(lower_rules::specs::Words::Compares))]
pub(crate) fn put_compare(
    out: &mut Draft,
    left_null: bool,
    right_null: bool,
    op: Binary,
    two: Operands,
)
    ensures { Grows (Compares left_null right_null op two.first two.left two.right two.place)
        ((suc two.first < 256) × IsComparison op) out.old out.new }
{
    let t = two.first;
    let different = is_different(op);
    if t < 255 {
        if left_null {
            put_is_null(out, t, t + 1, two.right, different)
        } else if right_null {
            put_is_null(out, t, t, two.left, different)
        } else {
            put_comparison(out, op, two)
        }
    } else {
        refuse(out)
    }
}

/// A comparison of two pointers, none of which is a null constant.
#[tactic(auto, using(crate::proofs::Rules::compared_rules), unfolding(lower_rules::specs::Words::ComparesBy))]
fn put_comparison(out: &mut Draft, op: Binary, two: Operands)
    requires { two.first < 255 }
    ensures { Grows (ComparesBy (comparison_of op) two.first two.left two.right two.place)
        (IsComparison op) out.old out.new }
{
    match comparison_of(op) {
        Some(comparison) => put(
            out,
            Instr::Point(Point::Compare {
                into: Temp::Value(two.first),
                comparison,
                left: Temp::Value(two.first),
                left_ty: two.left,
                right: Temp::Value(two.first + 1),
                right_ty: two.right,
                place: two.place,
            }),
        ),
        None => refuse(out),
    }
}

/// The conversion of value t from a type to another.
#[tactic(auto, using(crate::proofs::Rules::nothing_rules), unfolding(lower_rules::specs::Words::Converts))]
pub(crate) fn put_conversion(
    out: &mut Draft,
    which: Conversion,
    t: u8,
    place: Place,
    from_ty: TypeId,
    ty: TypeId,
)
    ensures { Grows (Converts which t place from_ty ty) (Unit {0}) out.old out.new }
{
    let into = Temp::Value(t);
    let from = into;
    match which {
        Conversion::IntegerToInteger => put(
            out,
            Instr::Convert(Convert::Integer { into, from, ty }),
        ),
        Conversion::IntegerToPointer => put(
            out,
            Instr::Convert(Convert::ToPointer {
                into,
                from,
                ty,
                place,
            }),
        ),
        Conversion::PointerToInteger => put(
            out,
            Instr::Convert(Convert::FromPointer {
                into,
                from,
                from_ty,
                ty,
            }),
        ),
        Conversion::PointerToPointer => put(
            out,
            Instr::Convert(Convert::Pointer {
                into,
                from,
                from_ty,
                ty,
                place,
            }),
        ),
        Conversion::NullToPointer => put(out, Instr::Set(Set::Null { into, ty })),
        Conversion::AllocationToPointer | Conversion::ToVoid => keep(out),
    }
}
