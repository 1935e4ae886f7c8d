//! Writing the lines of cured text.
ghost use Rattle.std.specs.Prelude.{◌≡◌, ◌<◌, ◌++◌, ◌∷◌, [], OnOk, map};
ghost use Rattle.std.specs.Fmt.{decimal};
ghost use Rattle.cured_spelling.specs.Lines.{line, line_text, Number, fields_text};

use cc_base::NoMemory;
use itoa::Buffer;

/// Adds a space and a number.
pub(crate) fn put_number(out: &mut Vec<u8>, n: u64) -> Result<(), NoMemory>
    ensures { OnOk result (out.new.items ≡ out.old.items ++ (32 ∷ decimal n)) }
{
    let mut digits = Buffer::new();
    out.push(b' ')?;
    out.extend_from_slice(digits.format(n).as_bytes())?;
    Ok(())
}

/// Adds a space and a word.
pub(crate) fn put_word(out: &mut Vec<u8>, word: &[u8]) -> Result<(), NoMemory>
    ensures { OnOk result (out.new.items ≡ out.old.items ++ (32 ∷ word.now)) }
{
    out.push(b' ')?;
    out.extend_from_slice(word)?;
    Ok(())
}

/// Adds a name and numbers, without the line feed.
pub(crate) fn put_front(out: &mut Vec<u8>, name: &[u8], numbers: &[u32]) -> Result<(), NoMemory>
    ensures { OnOk result (out.new.items ≡ out.old.items ++
        (name.now ++ fields_text (map Number numbers.now))) }
{
    out.extend_from_slice(name)?;
    for n in numbers {
        put_number(out, u64::from(*n))?;
    }
    Ok(())
}

/// Adds the line of a name and numbers.
pub(crate) fn put_line(out: &mut Vec<u8>, name: &[u8], numbers: &[u32]) -> Result<(), NoMemory>
    ensures { OnOk result (out.new.items ≡ out.old.items ++ line_text (line name.now numbers.now)) }
{
    put_front(out, name, numbers)?;
    out.push(b'\n')?;
    Ok(())
}

/// Adds the line of a name, numbers, and one more.
pub(crate) fn put_long_line(
    out: &mut Vec<u8>,
    name: &[u8],
    numbers: &[u32],
    last: u64,
) -> Result<(), NoMemory>
    ensures { OnOk result (out.new.items ≡ out.old.items ++ line_text
        (line name.now (numbers.now ++ (last ∷ [])))) }
{
    put_front(out, name, numbers)?;
    put_number(out, last)?;
    out.push(b'\n')?;
    Ok(())
}

/// Adds the line of a name, a number, and two more.
pub(crate) fn put_access(
    out: &mut Vec<u8>,
    name: &[u8],
    bytes: u64,
    slots: [u32; 2],
) -> Result<(), NoMemory>
    ensures { OnOk result (out.new.items ≡ out.old.items ++ line_text
        (line name.now (bytes ∷ slots))) }
{
    out.extend_from_slice(name)?;
    put_number(out, bytes)?;
    put_line(out, b"", &slots)
}
