//! String literals and declared objects.
ghost use Rattle.std.specs.Prelude.{◌≡◌, [], ◌∷◌, ◌++◌, length, IfOk, OnOk};
ghost use Rattle.c_tree.specs.TypedParts as parts;
ghost use Rattle.c_tree.specs.declared.typed_word.Home.TheVariants as homes;
ghost use Rattle.src_machine.specs.Machine.{text_of};
ghost use Rattle.unit_parts.specs.Collecting.{AreBytes, Collects, Forgets};

use crate::collected::{Collected, Scope};
use c_tree::{Home, Identifier, StringPiece, pieces_bytes};
use cc_base::{NoMemory, NodeId, TypeId};
use cil_form::{Bytes, Planned, Static};

/// Appends nothing.
#[tactic(auto, using(crate::proofs::Rules::made_rules))]
pub fn keep(out: &mut Collected, k: &Scope<'_>)
    ensures { Collects k.now.types.now [] [] out.old out.new }
{
    let _ = out;
    let _ = k;
}

/// How many sites there are.
pub(crate) fn count(out: &Collected) -> usize
    ensures { result ≡ length out.now.sites.items }
{
    out.sites.as_slice().len()
}

/// Keeps the first so many sites alone.
#[tactic(auto, unfolding(crate::specs::Collecting::Forgets))]
pub(crate) fn forget(out: &mut Collected, kept: usize)
    ensures { Forgets kept out.old out.new }
{
    out.sites.truncate(kept)
}

/// Appends a name that a declarator declares.
#[tactic(auto, using(crate::proofs::Rules::made_rules))]
pub(crate) fn put_name(
    out: &mut Collected,
    k: &Scope<'_>,
    name: &Identifier,
    home: Home,
    ty: TypeId,
)
    ensures { Collects k.now.types.now (parts.Name name.now home ty ∷ []) [] out.old out.new }
{
    match home {
        Home::None => keep(out, k),
        Home::Static(node) => put_static(out, k, name, node, ty),
        Home::Local(node) => put_local(out, k, name, node, ty),
        Home::Parameter(_) => keep(out, k),
        Home::Known(_) => keep(out, k),
    }
}

/// Appends an object that lives as long as the program.
#[tactic(auto, using(crate::proofs::Rules::made_rules))]
fn put_static(out: &mut Collected, k: &Scope<'_>, name: &Identifier, home: NodeId, ty: TypeId)
    ensures { Collects k.now.types.now (parts.Name name.now (homes.Static home) ty ∷ []) [] out.old
        out.new }
{
    let _ = k;
    let _ = name;
    let one = Static {
        planned: Planned { home, ty },
        text: None,
    };
    if out.statics.push(one).is_err() {
        out.fine = false;
    }
}

/// Appends an object that lives as long as a call.
#[tactic(auto, using(crate::proofs::Rules::made_rules))]
fn put_local(out: &mut Collected, k: &Scope<'_>, name: &Identifier, home: NodeId, ty: TypeId)
    ensures { Collects k.now.types.now (parts.Name name.now (homes.Local home) ty ∷ []) [] out.old
        out.new }
{
    let _ = k;
    let _ = name;
    if out.locals.push(Planned { home, ty }).is_err() {
        out.fine = false;
    }
}

/// Appends the object that a string literal is.
#[tactic(auto, using(crate::proofs::Rules::made_rules))]
pub(crate) fn put_literal(
    out: &mut Collected,
    k: &Scope<'_>,
    pieces: &[StringPiece],
    home: NodeId,
    ty: TypeId,
)
    ensures { Collects k.now.types.now (parts.Literal pieces.now home ty ∷ []) [] out.old out.new }
{
    match text_of(k, pieces) {
        Ok(text) => {
            let one = Static {
                planned: Planned { home, ty },
                text: Some(text),
            };
            if out.statics.push(one).is_err() {
                out.fine = false;
            }
        }
        Err(_) => out.fine = false,
    }
}

/// The bytes of adjacent string literals, and a zero byte (C99 6.4.5).
fn text_of(k: &Scope<'_>, pieces: &[StringPiece]) -> Result<Bytes, NoMemory>
    ensures text { IfOk result (λ t. t ≡ text_of pieces.now) }
    ensures bytes { IfOk result (λ t. AreBytes t) }
{
    let bytes = pieces_bytes(k.alloc, pieces)?;
    let mut text = Vec::new(k.alloc);
    append(&mut text, bytes.as_slice())?;
    push_byte(&mut text, 0)?;
    Ok(Bytes(text))
}

/// Appends bytes.
fn append(text: &mut Vec<u8>, bytes: &[u8]) -> Result<(), NoMemory>
    ensures text { OnOk result (text.new.items ≡ text.old.items ++ bytes.now) }
    ensures bytes { OnOk result (AreBytes text.old.items → AreBytes text.new.items) }
{
    for byte in bytes {
        push_byte(text, *byte)?;
    }
    Ok(())
}

/// Appends a byte.
#[tactic(auto, using(crate::proofs::Laws::more_bytes))]
fn push_byte(text: &mut Vec<u8>, byte: u8) -> Result<(), NoMemory>
    ensures text { OnOk result (text.new.items ≡ text.old.items ++ byte ∷ []) }
    ensures bytes { OnOk result (AreBytes text.old.items → AreBytes text.new.items) }
{
    text.push(byte)?;
    Ok(())
}
