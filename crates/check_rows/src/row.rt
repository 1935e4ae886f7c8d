//! Rows as they are read.
use cc_base::{Kind, Place};
use check_forms::{
    Conversion, Direction, Distance, Factor, Fixed, Op, PointerSlots, Reach, WildNumbers,
};
use std::alloc::{AllocError, Global};

/// The word of a slot.
#[derive(Clone, Copy)]
pub(crate) enum Word {
    Number(u64),
    Own,
    Outer,
}

/// What is asked, through a pointer of this kind, on these words.
#[derive(Drop)]
pub(crate) struct Row {
    pub(crate) op: Op,
    pub(crate) kind: Kind,
    pub(crate) number: u64,
    pub(crate) words: Vec<Word>,
}

/// A number that the program of a row has in a slot.
pub(crate) fn fixed(slot: u32, value: u64) -> Fixed {
    Fixed { slot, value }
}

/// The greatest distances of a move, in slots 10 and 11.
pub(crate) fn reach(size: u64) -> Reach {
    let half = size.wrapping_mul(1 << 31);
    Reach {
        least: fixed(10, half),
        span: fixed(11, half.wrapping_mul(2).wrapping_add(size)),
    }
}

fn kind_of(word: &str) -> Option<Kind> {
    match word {
        "SAFE" => Some(Kind::Safe),
        "SEQ" => Some(Kind::Seq),
        "RTTI" => Some(Kind::Rtti),
        "WILD" => Some(Kind::Wild),
        _ => None,
    }
}

fn word_of(word: &str) -> Option<Word> {
    match word {
        "own" => Some(Word::Own),
        "outer" => Some(Word::Outer),
        _ => match word.strip_prefix('-') {
            Some(rest) => rest
                .parse()
                .ok()
                .map(|n: u64| Word::Number(n.wrapping_neg())),
            None => word.parse().ok().map(Word::Number),
        },
    }
}

const P: PointerSlots = PointerSlots {
    first: 0,
    second: 1,
    third: 2,
};

const Q: PointerSlots = PointerSlots {
    first: 3,
    second: 4,
    third: 5,
};

const NUMBERS: WildNumbers = WildNumbers {
    seven: 7,
    eight: 8,
    last: Fixed { slot: 9, value: 16 },
};

const ASSIGNMENT: Place = Place { line: 2, col: 1 };

const TARGET: Place = Place { line: 3, col: 1 };

/// A primitive on the pointers in slots 0 to 2 and 3 to 5.
fn op_of(name: &str, other: Kind, number: u64) -> Option<Op> {
    let size = fixed(6, number);
    let numbers = NUMBERS;
    match name {
        "read-integer" => Some(Op::ReadInteger { p: P, size }),
        "read-pointer" => Some(Op::ReadPointer {
            p: P,
            size,
            numbers,
        }),
        "write-integer" => Some(Op::WriteInteger { p: P, size }),
        "write-pointer" => Some(Op::WritePointer {
            p: P,
            size,
            numbers,
            home: 3,
            assignment: ASSIGNMENT,
        }),
        "copy-plain" => Some(Op::CopyPlain {
            source: P,
            target: Q,
            other,
            size,
            target_at: TARGET,
        }),
        "copy-pointers" => Some(Op::CopyPointers {
            source: P,
            target: Q,
            other,
            size,
            numbers,
            target_at: TARGET,
            assignment: ASSIGNMENT,
        }),
        _ => other_op(name, other, number),
    }
}

/// The primitives that neither read nor write.
fn other_op(name: &str, other: Kind, number: u64) -> Option<Op> {
    let size = fixed(6, number);
    let numbers = NUMBERS;
    let reach = reach(number);
    match name {
        "member" => Some(Op::Member {
            p: P,
            size,
            numbers,
            offset: 3,
            reach,
        }),
        "move" => Some(Op::Move {
            p: P,
            direction: Direction::Forward,
            n: 3,
            factor: Factor::Any,
            distance: Distance::Elements(3, size),
            numbers,
            reach,
        }),
        "move-back" => Some(Op::Move {
            p: P,
            direction: Direction::Backward,
            n: 3,
            factor: Factor::Any,
            distance: Distance::Elements(3, size),
            numbers,
            reach,
        }),
        "order" => Some(Op::Order {
            p: P,
            q: Q,
            other,
            numbers,
            apart: None,
        }),
        "difference" => Some(Op::Order {
            p: P,
            q: Q,
            other,
            numbers,
            apart: Some(size),
        }),
        "equate" => Some(Op::Equate { p: P, q: Q, other }),
        _ => last_op(name, number),
    }
}

/// Calls, conversions, allocations and divisions.
fn last_op(name: &str, number: u64) -> Option<Op> {
    let size = fixed(6, number);
    match name {
        "call" => Some(Op::Call {
            p: P,
            signature: size,
        }),
        "return" => Some(Op::ReturnPointer { home: 0 }),
        "downcast" => Some(Op::Convert {
            p: P,
            conversion: Conversion::Down { node: 2 },
        }),
        "convert" => Some(Op::Convert {
            p: P,
            conversion: Conversion::Shrink { size },
        }),
        "allocate" => Some(Op::Allocate {
            made: 0,
            size: 1,
            needed: size,
        }),
        "divide" => Some(Op::DivideSigned {
            a: 0,
            b: 1,
            least: fixed(12, 0xFFFF_FFFF_8000_0000),
            minus_one: fixed(13, u64::MAX),
        }),
        "divide-unsigned" => Some(Op::DivideUnsigned { a: 0, b: 1 }),
        "enter-main" => Some(Op::EnterMain { address: 0 }),
        _ => None,
    }
}

/// The row that a line is.
pub(crate) fn row_of(alloc: Global, line: &str) -> Result<Option<Row>, AllocError> {
    let mut parts = line.split(' ');
    let name = parts.next().unwrap_or("");
    let kind = parts.next().and_then(kind_of);
    let other = parts.next().and_then(kind_of);
    let number = parts.next().and_then(|word| word.parse().ok());
    let mut words = Vec::new(alloc);
    for part in parts {
        if let Some(word) = word_of(part) {
            words.push(word)?;
        }
    }
    Ok(match (kind, other, number) {
        (Some(kind), Some(other), Some(number)) => op_of(name, other, number).map(|op| Row {
            op,
            kind,
            number,
            words,
        }),
        _ => None,
    })
}
