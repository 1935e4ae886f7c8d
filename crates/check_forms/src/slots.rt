//! Slots of a function, as checks name them.

/// The slots of a pointer's words. A pointer of kind SAFE has one, RTTI and WILD two, SEQ three: where it has fewer, the
/// others are not read.
#[derive(Clone, Copy)]
pub struct PointerSlots {
    pub first: u32,
    pub second: u32,
    pub third: u32,
}

/// A number, and the slot that holds it.
#[derive(Clone, Copy)]
pub struct Fixed {
    pub slot: u32,
    pub value: u64,
}

/// How far a pointer is moved, in bytes: a slot's word, or that many elements of a size.
#[derive(Clone, Copy)]
pub enum Distance {
    Bytes(u32),
    Elements(u32, Fixed),
}

/// Where a pointer is moved: by `+`, or by `-`.
#[derive(Clone, Copy)]
pub enum Direction {
    Forward,
    Backward,
}

/// The working slots of checks, the slot of an address that is moved to, and a slot that holds 0.
#[derive(Clone, Copy)]
pub struct Work {
    pub x: u32,
    pub y: u32,
    pub z: u32,
    pub to: u32,
    pub none: u32,
}
