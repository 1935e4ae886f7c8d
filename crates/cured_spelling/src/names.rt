//! Words of fields.
ghost use Rattle.std.specs.Prelude.{◌≡◌};
ghost use Rattle.cured_spelling.specs.Lines.{form_text, tag_text};

use cured_code::Narrow;

/// The name of a part of a word.
pub fn form_name(form: Narrow) -> &'static [u8]
    ensures { result.now ≡ form_text form }
{
    match form {
        Narrow::S8 => b"s8",
        Narrow::S16 => b"s16",
        Narrow::S32 => b"s32",
        Narrow::U8 => b"u8",
        Narrow::U16 => b"u16",
        Narrow::U32 => b"u32",
    }
}

/// The letter of a tagged or of a typed area.
pub fn tag_letter(tagged: bool) -> &'static [u8]
    ensures { result.now ≡ tag_text tagged }
{
    if tagged { b"W" } else { b"T" }
}
