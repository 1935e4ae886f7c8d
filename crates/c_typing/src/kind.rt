//! Integer types and the conversions between them (C99 6.3.1).
#![tactic(auto)]

ghost use Rattle.std.specs.Prelude.{◌≡◌};
ghost use Rattle.c_typing.specs.Integers as integers;
ghost use Rattle.c_typing.specs.Judging.{integer_type};
ghost use Rattle.c_typing.specs.KindViews.{kind_view};

use c_lexer::IntegerType;
use c_tree::{Assignment, Binary};
use cc_base::TypeId;

/// An integer type, by its size in bytes and its sign.
#[derive(Clone, Copy, Debug, PartialEq, Eq)]
pub struct Kind {
    pub bytes: u64,
    pub signed: bool,
}

impl Kind {
    /// Its number in the table.
    pub fn ty(self) -> TypeId
        ensures { result ≡ integer_type (kind_view self) }
    {
        let number = match self.bytes {
            1 => 1,
            2 => 3,
            4 => 5,
            _ => 7,
        };
        if self.signed {
            TypeId(number)
        } else {
            TypeId(number + 1)
        }
    }

    /// Integer promotion (C99 6.3.1.1).
    pub fn promoted(self) -> Kind
        ensures { kind_view result ≡ integers.promoted (kind_view self) }
    {
        if self.bytes < 4 {
            Kind {
                bytes: 4,
                signed: true,
            }
        } else {
            self
        }
    }

    /// The wider of two promoted types; of two that are equally wide the unsigned one.
    fn wider(self, other: Kind) -> Kind
        ensures { kind_view result ≡ integers.wider (kind_view self) (kind_view other) }
    {
        if self.bytes < other.bytes {
            return other;
        }
        if other.bytes < self.bytes {
            return self;
        }
        Kind {
            bytes: self.bytes,
            signed: self.signed && other.signed,
        }
    }

    /// The usual arithmetic conversions (C99 6.3.1.8).
    pub fn common(self, other: Kind) -> Kind
        ensures { kind_view result ≡ integers.common (kind_view self) (kind_view other) }
    {
        self.promoted().wider(other.promoted())
    }
}

/// The type of an integer constant.
pub fn constant_kind(of: IntegerType) -> Kind
    ensures { kind_view result ≡ integers.constant_type of }
{
    let (bytes, signed) = match of {
        IntegerType::Int => (4, true),
        IntegerType::Unsigned => (4, false),
        IntegerType::Long => (8, true),
        IntegerType::UnsignedLong => (8, false),
    };
    Kind { bytes, signed }
}

fn is_shift(operator: Binary) -> bool
    ensures { result ≡ integers.is_shift operator }
{
    matches!(operator, Binary::ShiftLeft | Binary::ShiftRight)
}

/// `&&` and `||`.
pub fn is_logical(operator: Binary) -> bool
    ensures { result ≡ integers.is_logical operator }
{
    matches!(operator, Binary::LogicalAnd | Binary::LogicalOr)
}

/// `<`, `>`, `<=` and `>=`.
pub fn is_order(operator: Binary) -> bool
    ensures { result ≡ integers.is_order operator }
{
    matches!(
        operator,
        Binary::Less | Binary::Greater | Binary::LessEqual | Binary::GreaterEqual
    )
}

/// `==` and `!=`.
pub fn is_equality(operator: Binary) -> bool
    ensures { result ≡ integers.is_equality operator }
{
    matches!(operator, Binary::Equal | Binary::NotEqual)
}

/// The type to which an operator converts its left operand (C99 6.5.5 to 6.5.12).
pub fn left_kind(operator: Binary, left: Kind, right: Kind) -> Kind
    ensures { kind_view result ≡ integers.left_type operator (kind_view left) (kind_view right) }
{
    if is_shift(operator) {
        left.promoted()
    } else {
        left.common(right)
    }
}

/// The type to which an operator converts its right operand.
pub fn right_kind(operator: Binary, left: Kind, right: Kind) -> Kind
    ensures { kind_view result ≡ integers.right_type operator (kind_view left) (kind_view right) }
{
    if is_shift(operator) {
        right.promoted()
    } else {
        left.common(right)
    }
}

/// The type of an operator's result.
pub fn result_kind(operator: Binary, left: Kind, right: Kind) -> Kind
    ensures { kind_view result ≡ integers.result_type operator (kind_view left) (kind_view right) }
{
    if is_order(operator) || is_equality(operator) {
        Kind {
            bytes: 4,
            signed: true,
        }
    } else {
        left_kind(operator, left, right)
    }
}

/// The operator of a compound assignment; `=` has none and is read as `+=`.
pub fn assigning(operator: Assignment) -> Binary
    ensures { result ≡ integers.assigning operator }
{
    match operator {
        Assignment::Assign => Binary::Add,
        Assignment::Multiply => Binary::Multiply,
        Assignment::Divide => Binary::Divide,
        Assignment::Remainder => Binary::Remainder,
        Assignment::Add => Binary::Add,
        Assignment::Subtract => Binary::Subtract,
        Assignment::ShiftLeft => Binary::ShiftLeft,
        Assignment::ShiftRight => Binary::ShiftRight,
        Assignment::BitAnd => Binary::BitAnd,
        Assignment::BitXor => Binary::BitXor,
        Assignment::BitOr => Binary::BitOr,
    }
}
