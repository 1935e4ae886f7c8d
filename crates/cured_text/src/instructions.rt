//! Writing the lines of instructions.
ghost use Rattle.std.specs.Prelude.{◌≡◌, ◌++◌, ◌∷◌, [], OnOk, codes, flat_map};
ghost use Rattle.cured_spelling.specs.Lines.{line, line_text, tag_text};
ghost use Rattle.cured_code.specs.declared.instr.Instr.TheVariants as instr;
ghost use Rattle.cured_spelling.specs.Spelling.{line_of, lines_of, code_lines};

use crate::lines::{put_access, put_front, put_line, put_long_line, put_word};
use cc_base::{Check, NoMemory, Place};
use cured_code::{Instr, Narrow};
use cured_spelling::{form_name, tag_letter};

/// Adds the line of an `ext`.
fn put_extension(out: &mut Vec<u8>, v: u32, a: u32, form: Narrow) -> Result<(), NoMemory>
    ensures { OnOk result (out.new.items ≡ out.old.items ++ line_text
        (line_of (instr.Ext v a form))) }
{
    put_front(out, b"ext", &[v, a])?;
    put_word(out, form_name(form))?;
    out.push(b'\n')?;
    Ok(())
}

/// Adds the line of a `new`.
fn put_block_line(out: &mut Vec<u8>, tagged: bool, slots: [u32; 3]) -> Result<(), NoMemory>
    ensures { OnOk result (out.new.items ≡ out.old.items ++
        (codes "new" ++ (32 ∷ (tag_text tagged ++ line_text (line [] slots))))) }
{
    out.extend_from_slice(b"new")?;
    put_word(out, tag_letter(tagged))?;
    put_line(out, b"", &slots)
}

/// Adds the line of a `check`.
fn put_check(out: &mut Vec<u8>, check: Check, place: Place, a: u32) -> Result<(), NoMemory>
    ensures { OnOk result (out.new.items ≡ out.old.items ++ line_text
        (line_of (instr.Check check place a))) }
{
    out.extend_from_slice(b"check")?;
    put_word(out, check.name().as_bytes())?;
    put_line(out, b"", &[place.line, place.col, a])
}

/// Adds the lines of an instruction, with those that it holds.
#[cycle(writing)]
fn put_instr(out: &mut Vec<u8>, instr: &Instr) -> Result<(), NoMemory>
    ensures { OnOk result (out.new.items ≡ out.old.items ++ flat_map line_text
        (lines_of instr.now)) }
{
    match instr {
        Instr::Const(v, n) => put_long_line(out, b"const", &[*v], *n),
        Instr::Copy(v, a) => put_line(out, b"copy", &[*v, *a]),
        Instr::Ext(v, a, form) => put_extension(out, *v, *a, *form),
        Instr::Add(v, a, b) => put_line(out, b"add", &[*v, *a, *b]),
        Instr::Sub(v, a, b) => put_line(out, b"sub", &[*v, *a, *b]),
        Instr::Mul(v, a, b) => put_line(out, b"mul", &[*v, *a, *b]),
        Instr::And(v, a, b) => put_line(out, b"and", &[*v, *a, *b]),
        Instr::Or(v, a, b) => put_line(out, b"or", &[*v, *a, *b]),
        Instr::Xor(v, a, b) => put_line(out, b"xor", &[*v, *a, *b]),
        Instr::Shl(v, a, b) => put_line(out, b"shl", &[*v, *a, *b]),
        Instr::Shr(v, a, b) => put_line(out, b"shr", &[*v, *a, *b]),
        Instr::Sar(v, a, b) => put_line(out, b"sar", &[*v, *a, *b]),
        Instr::Divu(v, a, b) => put_line(out, b"divu", &[*v, *a, *b]),
        Instr::Divs(v, a, b) => put_line(out, b"divs", &[*v, *a, *b]),
        Instr::Remu(v, a, b) => put_line(out, b"remu", &[*v, *a, *b]),
        Instr::Rems(v, a, b) => put_line(out, b"rems", &[*v, *a, *b]),
        Instr::Eq(v, a, b) => put_line(out, b"eq", &[*v, *a, *b]),
        Instr::Ne(v, a, b) => put_line(out, b"ne", &[*v, *a, *b]),
        Instr::Ltu(v, a, b) => put_line(out, b"ltu", &[*v, *a, *b]),
        Instr::Lts(v, a, b) => put_line(out, b"lts", &[*v, *a, *b]),
        Instr::Ld(n, v, a) => put_access(out, b"ld", *n, [*v, *a]),
        Instr::St(n, a, v) => put_access(out, b"st", *n, [*a, *v]),
        Instr::Ldw(k, v, a) => put_line(out, b"ldw", &[*k, *v, *a]),
        Instr::Stw(k, a, v) => put_line(out, b"stw", &[*k, *a, *v]),
        Instr::Move(a, b, n) => put_long_line(out, b"move", &[*a, *b], *n),
        Instr::Zero(a, n) => put_long_line(out, b"zero", &[*a], *n),
        Instr::Plain(v, a, b, n) => put_long_line(out, b"plain", &[*v, *a, *b], *n),
        Instr::Untag(a, b, n) => put_long_line(out, b"untag", &[*a, *b], *n),
        Instr::Tmove(a, b, c, d, n) => put_long_line(out, b"tmove", &[*a, *b, *c, *d], *n),
        Instr::Tzero(a, b, n) => put_long_line(out, b"tzero", &[*a, *b], *n),
        Instr::Tdepth(v, a, b, n) => put_long_line(out, b"tdepth", &[*v, *a, *b], *n),
        Instr::Len(v, b) => put_line(out, b"len", &[*v, *b]),
        Instr::Tagged(v, a, b) => put_line(out, b"tagged", &[*v, *a, *b]),
        Instr::Base(v, a, b) => put_line(out, b"base", &[*v, *a, *b]),
        Instr::Mark(a, b, w) => put_line(out, b"mark", &[*a, *b, *w]),
        Instr::Frame(v, k) => put_line(out, b"frame", &[*v, *k]),
        Instr::Depth(v, a) => put_line(out, b"depth", &[*v, *a]),
        Instr::Below(v, a, n) => put_line(out, b"below", &[*v, *a, *n]),
        Instr::Sigof(v, a) => put_line(out, b"sigof", &[*v, *a]),
        Instr::Room(v, a) => put_line(out, b"room", &[*v, *a]),
        Instr::Call(f, a, v) => put_line(out, b"call", &[*f, *a, *v]),
        Instr::Icall(g, w, a, v) => put_line(out, b"icall", &[*g, *w, *a, *v]),
        Instr::Get(v) => put_line(out, b"get", &[*v]),
        Instr::Put(a) => put_line(out, b"put", &[*a]),
        Instr::Exit(a) => put_line(out, b"exit", &[*a]),
        Instr::Break(k) => put_line(out, b"break", &[*k]),
        Instr::Return(a) => put_line(out, b"return", &[*a]),
        Instr::New(tagged, v, n, s) => put_block_line(out, *tagged, [*v, *n, *s]),
        Instr::Check(check, place, a) => put_check(out, *check, *place, *a),
        Instr::If(a, x, y) => {
            put_line(out, b"if", &[*a])?;
            put_code(out, &x.0)?;
            put_line(out, b"else", &[])?;
            put_code(out, &y.0)?;
            put_line(out, b"end", &[])
        }
        Instr::Block(x) => {
            put_line(out, b"block", &[])?;
            put_code(out, &x.0)?;
            put_line(out, b"end", &[])
        }
        Instr::Loop(x) => {
            put_line(out, b"loop", &[])?;
            put_code(out, &x.0)?;
            put_line(out, b"end", &[])
        }
    }
}

/// Adds the lines of instructions.
#[cycle(writing)]
pub(crate) fn put_code(out: &mut Vec<u8>, instrs: &[Instr]) -> Result<(), NoMemory>
    ensures { OnOk result (out.new.items ≡ out.old.items ++ flat_map line_text
        (code_lines instrs.now)) }
{
    for instr in instrs {
        put_instr(out, instr)?;
    }
    Ok(())
}
