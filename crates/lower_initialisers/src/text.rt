//! String literals that initialise arrays of char (C99 6.7.8p14).
ghost use Rattle.std.specs.Prelude.{◌≡◌, ◌+◌, ◌<◌, ◌^◌, length};
ghost use Rattle.c_types.specs.Table.{shape_at};
ghost use Rattle.src_machine.specs.Statements.{element_of_shape};
ghost use Rattle.lower_rules.specs.Pieces.{Line};
ghost use Rattle.lower_rules.specs.Initialisers.{text_code};
ghost use Rattle.lower_exprs.specs.Drafts.{context_of, Grows};
ghost use Rattle.lower_exprs.specs.Ready.{IsConstant};
ghost use Rattle.lower_initialisers.specs.Ready.{HasCodeOfText, initialised_of};
ghost use Rattle.lower_initialisers.specs.Texts.{Byte};

use crate::filling::Portion;
use c_types::TypeShape;
use cc_base::TypeId;
use cil_form::{Access, Instr, Target, Temp};
use lower_exprs::{Draft, Scope, put, put_constant, refuse};

/// The element type of an array.
fn element_of(k: &Scope<'_>, t: TypeId) -> TypeId
    ensures { result ≡ element_of_shape (shape_at k.now.types.now t) }
{
    if t.0 < k.types.count() {
        match k.types.shape(t) {
            TypeShape::Array(element, _) => *element,
            _ => TypeId(0),
        }
    } else {
        TypeId(0)
    }
}

/// Appends the code that stores the bytes of a literal, from the first on.
pub(crate) fn put_literal(out: &mut Draft, k: &Scope<'_>, p: Portion, bytes: &[u8])
    ensures { Grows (Line (text_code (context_of k.now).table (initialised_of p.whole)
        (element_of_shape (shape_at k.now.types.now p.ty)) p.at p.base bytes.now))
        (HasCodeOfText (context_of k.now) p.ty p.base (length bytes.now)) out.old out.new }
{
    if (bytes.len() as u64) <= u64::MAX - p.base {
        put_text(out, k, p, element_of(k, p.ty), bytes)
    } else {
        refuse(out)
    }
}

/// The same, of an array of elements of a type, whose bytes have offsets.
#[tactic(auto, using(crate::proofs::Rules::nothing_rules))]
fn put_text(out: &mut Draft, k: &Scope<'_>, p: Portion, element: TypeId, bytes: &[u8])
    requires { p.base + length bytes.now < 2 ^ 64 }
    ensures { Grows (Line (text_code (context_of k.now).table
        (initialised_of p.whole) element p.at p.base bytes.now))
        (IsConstant (context_of k.now) element) out.old out.new }
{
    let mut i = 0;
    for b in bytes {
        put_byte(out, k, p, element, p.base + i, *b);
        i += 1;
    }
}

/// Appends the code that stores one byte at this offset.
#[tactic(auto, using(crate::proofs::Rules::byte_rules))]
fn put_byte(out: &mut Draft, k: &Scope<'_>, p: Portion, element: TypeId, offset: u64, b: u8)
    ensures { Grows (Byte (context_of k.now) (initialised_of p.whole) element p.at offset b)
        (IsConstant (context_of k.now) element × Unit {0}) out.old out.new }
{
    put_constant(out, k, 0, element, i128::from(b));
    put(
        out,
        Instr::Access(Access::Store {
            target: Target::Part {
                object: p.whole.object,
                home: p.whole.home,
                ty: p.whole.ty,
                offset,
            },
            value: Temp::Value(0),
            ty: element,
            place: p.at,
            assignment: p.at,
        }),
    )
}
