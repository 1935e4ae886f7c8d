//! String literals (C99 6.4.5).
ghost use Rattle.std.specs.Prelude.{◌≡◌, IfOk};
ghost use Rattle.c_lexer.specs.Literals.{literal_bytes};
ghost use Rattle.c_tree.specs.Literals.{pieces_bytes};

use crate::items::Items;
use crate::leaf::StringPiece;
use c_lexer::literal_bytes;
use cc_base::NoMemory;
use std::alloc::Global;

/// The bytes of one piece. What has no quotes holds none.
#[tactic(auto, using(crate::proofs::LiteralLaws::no_quotes))]
fn piece_bytes(alloc: Global, literal: &[u8]) -> Result<Vec<u8>, NoMemory>
    ensures { IfOk result (λ bytes. bytes.items ≡ literal_bytes literal.now) }
{
    if literal.len() < 2 {
        return Ok(Vec::new(alloc));
    }
    Ok(literal_bytes(alloc, literal)?)
}

/// The bytes of adjacent string literals, which are one literal, without the zero byte after them.
#[tactic(auto, using(crate::proofs::LiteralLaws::next_piece))]
pub fn pieces_bytes(alloc: Global, pieces: &[StringPiece]) -> Result<Vec<u8>, NoMemory>
    ensures { IfOk result (λ bytes. bytes.items ≡ pieces_bytes pieces.now) }
{
    let mut bytes = Vec::new(alloc);
    let mut rest = pieces;
    'pieces: while let Some((piece, later)) = rest.split_first() {
        let some = piece_bytes(alloc, piece.bytes.as_slice())?;
        bytes.extend_from_slice(&some)?;
        rest = later;
    }
    Ok(bytes)
}

fn copied_piece(alloc: Global, piece: &StringPiece) -> Result<StringPiece, NoMemory>
    ensures { IfOk result (λ copy. copy ≡ piece.now) }
{
    let bytes = Items::from_slice(alloc, piece.bytes.as_slice())?;
    Ok(StringPiece {
        bytes,
        place: piece.place,
    })
}

/// A copy of adjacent string literals.
#[tactic(auto, using(crate::proofs::LiteralLaws::next_copy))]
pub fn copied_pieces(alloc: Global, pieces: &[StringPiece]) -> Result<Items<StringPiece>, NoMemory>
    ensures { IfOk result (λ copy. copy ≡ pieces.now) }
{
    let mut copy = Items::new(alloc);
    let mut rest = pieces;
    'pieces: while let Some((piece, later)) = rest.split_first() {
        let one = copied_piece(alloc, piece)?;
        copy.push(one)?;
        rest = later;
    }
    Ok(copy)
}
