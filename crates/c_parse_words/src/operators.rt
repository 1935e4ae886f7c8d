//! Operators by their punctuators, and how tightly they bind (C99 6.5).
ghost use Rattle.std.specs.Prelude.{◌≡◌, ◌≤◌};
ghost use Rattle.c_tree.specs.Operators as spec;
ghost use Rattle.c_parse_words.specs.Tests as tests;

use c_lexer::Punctuator;
use c_tree::{Assignment, Binary, Unary};

/// The binary operator that the punctuator is.
pub fn binary_of(punctuator: Punctuator) -> Option<Binary>
    ensures { result ≡ tests.binary_of punctuator }
{
    match punctuator {
        Punctuator::Star => Some(Binary::Multiply),
        Punctuator::Slash => Some(Binary::Divide),
        Punctuator::Percent => Some(Binary::Remainder),
        Punctuator::Plus => Some(Binary::Add),
        Punctuator::Minus => Some(Binary::Subtract),
        Punctuator::ShiftLeft => Some(Binary::ShiftLeft),
        Punctuator::ShiftRight => Some(Binary::ShiftRight),
        Punctuator::Less => Some(Binary::Less),
        Punctuator::Greater => Some(Binary::Greater),
        Punctuator::LessEqual => Some(Binary::LessEqual),
        Punctuator::GreaterEqual => Some(Binary::GreaterEqual),
        Punctuator::EqualEqual => Some(Binary::Equal),
        Punctuator::NotEqual => Some(Binary::NotEqual),
        Punctuator::And => Some(Binary::BitAnd),
        Punctuator::Caret => Some(Binary::BitXor),
        Punctuator::Or => Some(Binary::BitOr),
        Punctuator::AndAnd => Some(Binary::LogicalAnd),
        Punctuator::OrOr => Some(Binary::LogicalOr),
        _ => None,
    }
}

/// The assignment operator that the punctuator is.
pub fn assignment_of(punctuator: Punctuator) -> Option<Assignment>
    ensures { result ≡ tests.assignment_of punctuator }
{
    match punctuator {
        Punctuator::Equal => Some(Assignment::Assign),
        Punctuator::StarEqual => Some(Assignment::Multiply),
        Punctuator::SlashEqual => Some(Assignment::Divide),
        Punctuator::PercentEqual => Some(Assignment::Remainder),
        Punctuator::PlusEqual => Some(Assignment::Add),
        Punctuator::MinusEqual => Some(Assignment::Subtract),
        Punctuator::ShiftLeftEqual => Some(Assignment::ShiftLeft),
        Punctuator::ShiftRightEqual => Some(Assignment::ShiftRight),
        Punctuator::AndEqual => Some(Assignment::BitAnd),
        Punctuator::CaretEqual => Some(Assignment::BitXor),
        Punctuator::OrEqual => Some(Assignment::BitOr),
        _ => None,
    }
}

/// The level of an expression with the operator.
pub fn precedence(op: Binary) -> u8
    ensures level { result ≡ spec.precedence op }
    ensures small { result ≤ 12 }
{
    match op {
        Binary::LogicalOr => 3,
        Binary::LogicalAnd => 4,
        Binary::BitOr => 5,
        Binary::BitXor => 6,
        Binary::BitAnd => 7,
        Binary::Equal | Binary::NotEqual => 8,
        Binary::Less | Binary::Greater | Binary::LessEqual | Binary::GreaterEqual => 9,
        Binary::ShiftLeft | Binary::ShiftRight => 10,
        Binary::Add | Binary::Subtract => 11,
        Binary::Multiply | Binary::Divide | Binary::Remainder => 12,
    }
}

/// The least level of what stands after the operator.
pub fn operand_level(op: Unary) -> u8
    ensures { result ≡ spec.operand_level op }
{
    match op {
        Unary::Increment | Unary::Decrement | Unary::SizeOf => 14,
        Unary::AddressOf
        | Unary::Dereference
        | Unary::Plus
        | Unary::Minus
        | Unary::Complement
        | Unary::Not => 13,
    }
}
