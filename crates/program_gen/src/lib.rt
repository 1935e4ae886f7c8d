//! Programs in C of any size, made by a rule: for tries with large inputs.
#![tactic(auto)]

ghost use Rattle.std.specs.Prelude.{◌≡◌, ◌≤◌, ◌<◌, ◌++◌, OnOk, IfOk, flat_map};
ghost use Rattle.program_gen.specs.Generated.{definition, call, generated};

use cc_base::NoMemory;
use itoa::Buffer;
use std::alloc::Global;

#[cfg(test)]
mod tests;

/// The generated program of `n` functions, one a line, each of which `main` calls once. It writes one digit, the last of
/// the sum of what they gave, and a line feed.
pub fn make(alloc: Global, n: u32) -> Result<Vec<u8>, NoMemory>
    requires { n ≤ 1000 }
    ensures { IfOk result (λ text. text.items ≡ generated n) }
{
    let mut text = Vec::new(alloc);
    for i in 0..n {
        put_definition(&mut text, i + 1)?;
    }
    text.extend_from_slice(b"int main(void){int a[4];int s=0;\n")?;
    for j in 0..n {
        put_call(&mut text, j + 1)?;
    }
    text.extend_from_slice(b"putchar(48+s%10);putchar(10);return 0;}\n")?;
    Ok(text)
}

/// Adds the definition of function `i`.
fn put_definition(text: &mut Vec<u8>, i: u32) -> Result<(), NoMemory>
    ensures { OnOk result (text.new.items ≡ text.old.items ++ definition i) }
{
    let mut buffer = Buffer::new();
    let number = buffer.format(i).as_bytes();
    put_pieces(
        text,
        &[
            b"int f",
            number,
            b"(int *p,int k){p[k]=p[k]+",
            number,
            b";return p[(k+1)%4];}\n",
        ],
    )
}

/// Adds the call of function `i`.
fn put_call(text: &mut Vec<u8>, i: u32) -> Result<(), NoMemory>
    ensures { OnOk result (text.new.items ≡ text.old.items ++ call i) }
{
    let mut number = Buffer::new();
    let mut place = Buffer::new();
    let number = number.format(i).as_bytes();
    let place = place.format(i % 4).as_bytes();
    put_pieces(text, &[b"s=s+f", number, b"(a,", place, b");\n"])
}

/// Adds the pieces, one after another.
fn put_pieces(text: &mut Vec<u8>, pieces: &[&[u8]]) -> Result<(), NoMemory>
    ensures { OnOk result (text.new.items ≡ text.old.items ++ flat_map
        (λ piece. piece.now) pieces.now) }
{
    for piece in pieces {
        text.extend_from_slice(piece)?;
    }
    Ok(())
}
