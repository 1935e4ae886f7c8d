//! The instructions of cured code.
use cc_base::{Check, Place};

/// The part of a word that a narrowing keeps: its low 8, 16 or 32 bits, with the sign copied or with zeros above.
#[derive(Clone, Copy, Debug, PartialEq, Eq)]
pub enum Narrow {
    S8,
    S16,
    S32,
    U8,
    U16,
    U32,
}

/// An instruction of cured code. Slots, areas of the frame, functions, signatures and type nodes are given by their
/// numbers. The slots that an instruction writes come before those that it reads, but where an address is stored to.
/// In the lines below V, A, B, C, D, W, N and S are slots where the meaning says no more; docs/flat-machine.md has the
/// whole meaning.
#[cycle(code)]
pub enum Instr {
    /// `const V N`: V becomes the number N.
    Const(u32, u64),
    /// `copy V A`: V becomes A.
    Copy(u32, u32),
    /// `ext V A F`: V becomes the part F of A.
    Ext(u32, u32, Narrow),
    /// `add V A B`: V becomes A + B, which wraps.
    Add(u32, u32, u32),
    /// `sub V A B`: V becomes A - B, which wraps.
    Sub(u32, u32, u32),
    /// `mul V A B`: V becomes A * B, which wraps.
    Mul(u32, u32, u32),
    /// `and V A B`: bitwise.
    And(u32, u32, u32),
    /// `or V A B`: bitwise.
    Or(u32, u32, u32),
    /// `xor V A B`: bitwise.
    Xor(u32, u32, u32),
    /// `shl V A B`: A shifted left by B modulo 64.
    Shl(u32, u32, u32),
    /// `shr V A B`: A shifted right by B modulo 64, zeros moving in.
    Shr(u32, u32, u32),
    /// `sar V A B`: A shifted right by B modulo 64, copies of its sign moving in.
    Sar(u32, u32, u32),
    /// `divu V A B`: the quotient, unsigned.
    Divu(u32, u32, u32),
    /// `divs V A B`: the quotient, signed, rounded towards zero.
    Divs(u32, u32, u32),
    /// `remu V A B`: the remainder, unsigned.
    Remu(u32, u32, u32),
    /// `rems V A B`: the remainder, signed, with A's sign.
    Rems(u32, u32, u32),
    /// `eq V A B`: V becomes 1 where A and B are equal, else 0.
    Eq(u32, u32, u32),
    /// `ne V A B`: V becomes 1 where A and B differ, else 0.
    Ne(u32, u32, u32),
    /// `ltu V A B`: V becomes 1 where A is below B, unsigned, else 0.
    Ltu(u32, u32, u32),
    /// `lts V A B`: V becomes 1 where A is below B, signed, else 0.
    Lts(u32, u32, u32),
    /// `ld N V A`: V becomes the N bytes at the address A, little-endian.
    Ld(u64, u32, u32),
    /// `st N A V`: the N low bytes of V are written at the address A, little-endian.
    St(u64, u32, u32),
    /// `ldw K V A`: V and the K - 1 slots after it become the K words at the address A.
    Ldw(u32, u32, u32),
    /// `stw K A V`: the words of V and the K - 1 slots after it are written at the address A.
    Stw(u32, u32, u32),
    /// `move A B N`: N bytes are copied from the address B to the address A. N is a number.
    Move(u32, u32, u64),
    /// `zero A N`: N bytes at the address A become zero. N is a number.
    Zero(u32, u64),
    /// `len V B`: V becomes the word before the address B, which is the length of a tagged area at B.
    Len(u32, u32),
    /// `plain V A B N`: V becomes 1 where no data word that the N bytes at A touch is tagged in the area at B, else 0.
    /// N is a number.
    Plain(u32, u32, u32, u64),
    /// `untag A B N`: each tagged data word that the N bytes at A touch becomes zero and untagged, in the area at B. N
    /// is a number.
    Untag(u32, u32, u64),
    /// `tagged V A B`: V becomes the tag of the data word at A in the area at B.
    Tagged(u32, u32, u32),
    /// `base V A B`: V becomes the base word of the data word at A in the area at B.
    Base(u32, u32, u32),
    /// `mark A B W`: the data word at A in the area at B is tagged, and its base word becomes W.
    Mark(u32, u32, u32),
    /// `tmove A B C D N`: the data words, base words and tags of the N bytes at C in the area at D are copied to A in
    /// the area at B. N is a number.
    Tmove(u32, u32, u32, u32, u64),
    /// `tzero A B N`: N bytes at A become zero, and the data words that they touch untagged, in the area at B. N is a
    /// number.
    Tzero(u32, u32, u64),
    /// `tdepth V A B N`: V becomes the greatest depth of the base words of the tagged data words that the N bytes at A
    /// touch, in the area at B. N is a number.
    Tdepth(u32, u32, u32, u64),
    /// `frame V K`: V becomes the address of area K of the frame.
    Frame(u32, u32),
    /// `depth V A`: V becomes the depth of the address A.
    Depth(u32, u32),
    /// `below V A N`: V becomes 1 where A is the type node N or has it as an ancestor, else 0. N is a node.
    Below(u32, u32, u32),
    /// `sigof V A`: V becomes 1 plus the signature of the function at the address A, or 0.
    Sigof(u32, u32),
    /// `room V A`: V becomes 1 where a function is at the address A and its frame fits, else 0.
    Room(u32, u32),
    /// `new K V N S`: V becomes the address of a new block of N bytes, charged S plus 16, or 0 where none can be made.
    /// The block is tagged where the first field is true.
    New(bool, u32, u32, u32),
    /// `call F A V`: function F is called with the words from A on, and what it gives is put into V and the slots after.
    Call(u32, u32, u32),
    /// `icall G W A V`: the same for the function at the address W, whose signature is G.
    Icall(u32, u32, u32, u32),
    /// `get V`: V becomes the next byte of the input, or the greatest word at its end.
    Get(u32),
    /// `put A`: the low byte of A is written to the output.
    Put(u32),
    /// `exit A`: the run ends with the low byte of A as its status.
    Exit(u32),
    /// `check NAME L C A`: the run stops with the check at line L, column C, where A is 0.
    Check(Check, Place, u32),
    /// `if A`: the first part runs where A isn't 0, else the second.
    If(u32, Code, Code),
    /// `block`: its part runs once.
    Block(Code),
    /// `loop`: takes a turn, runs its part, and again.
    Loop(Code),
    /// `break K`: leaves the K-th enclosing block or loop, counted from 0 outwards.
    Break(u32),
    /// `return A`: the function gives the words from A on.
    Return(u32),
}

impl Drop for Instr {
    fn drop(self) {
        match self {
            Self::Const(_, _)
            | Self::Copy(_, _)
            | Self::Ext(_, _, _)
            | Self::Add(_, _, _)
            | Self::Sub(_, _, _)
            | Self::Mul(_, _, _)
            | Self::And(_, _, _)
            | Self::Or(_, _, _)
            | Self::Xor(_, _, _)
            | Self::Shl(_, _, _)
            | Self::Shr(_, _, _)
            | Self::Sar(_, _, _)
            | Self::Divu(_, _, _)
            | Self::Divs(_, _, _)
            | Self::Remu(_, _, _)
            | Self::Rems(_, _, _)
            | Self::Eq(_, _, _)
            | Self::Ne(_, _, _)
            | Self::Ltu(_, _, _)
            | Self::Lts(_, _, _)
            | Self::Ld(_, _, _)
            | Self::St(_, _, _)
            | Self::Ldw(_, _, _)
            | Self::Stw(_, _, _)
            | Self::Move(_, _, _)
            | Self::Zero(_, _)
            | Self::Len(_, _)
            | Self::Plain(_, _, _, _)
            | Self::Untag(_, _, _)
            | Self::Tagged(_, _, _)
            | Self::Base(_, _, _)
            | Self::Mark(_, _, _)
            | Self::Tmove(_, _, _, _, _)
            | Self::Tzero(_, _, _)
            | Self::Tdepth(_, _, _, _)
            | Self::Frame(_, _)
            | Self::Depth(_, _)
            | Self::Below(_, _, _)
            | Self::Sigof(_, _)
            | Self::Room(_, _)
            | Self::New(_, _, _, _)
            | Self::Call(_, _, _)
            | Self::Icall(_, _, _, _)
            | Self::Get(_)
            | Self::Put(_)
            | Self::Exit(_)
            | Self::Check(_, _, _)
            | Self::If(_, _, _)
            | Self::Block(_)
            | Self::Loop(_)
            | Self::Break(_)
            | Self::Return(_) => {}
        }
    }
}

/// Instructions, in order: those of a body, or of a part of an instruction. A plain list, since instructions hold such
/// lists themselves: contracts see its items through the field.
#[derive(Drop)]
#[cycle(code)]
pub struct Code(pub Vec<Instr>);
