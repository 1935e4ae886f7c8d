//! A text that is put together line by line. `|TEXT` adds a line, `~TEXT` text without a line feed, `byte N` one byte, and
//! `times N TEXT` the text N times, or a blank without TEXT. In it `@` stands for the letters of the turn's number, from 0 on, and `$` for
//! those of the next one.
use std::alloc::AllocError;

/// Adds four letters for a number: `AAAA` for 0, `AAAB` for 1.
fn add_letters(text: &mut Vec<u8>, number: u32) -> Result<(), AllocError> {
    for place in [17_576, 676, 26, 1] {
        text.push(b'A' + (number / place % 26) as u8)?;
    }
    Ok(())
}

/// Adds a piece, with the letters of this number.
fn add_piece(text: &mut Vec<u8>, piece: &str, number: u32) -> Result<(), AllocError> {
    for byte in piece.as_bytes() {
        match *byte {
            b'@' => add_letters(text, number)?,
            b'$' => add_letters(text, number.saturating_add(1))?,
            other => text.push(other)?,
        }
    }
    Ok(())
}

/// Adds a piece as often as is said.
fn add_times(text: &mut Vec<u8>, times: &str, piece: &str) -> Result<(), AllocError> {
    for number in 0..times.parse::<u32>().unwrap_or(0) {
        add_piece(text, piece, number)?;
    }
    Ok(())
}

/// Adds what a line says, and tells whether it says something to add.
pub(crate) fn add_line(text: &mut Vec<u8>, line: &str) -> Result<bool, AllocError> {
    if let Some(rest) = line.strip_prefix("|") {
        text.extend_from_slice(rest.as_bytes())?;
        text.push(b'\n')?;
    } else if let Some(rest) = line.strip_prefix("~") {
        text.extend_from_slice(rest.as_bytes())?;
    } else if let Some(byte) = line.strip_prefix("byte ") {
        text.push(byte.parse::<u8>().unwrap_or(0))?;
    } else if let Some(rest) = line.strip_prefix("times ") {
        let (times, piece) = rest.split_once(' ').unwrap_or((rest, " "));
        add_times(text, times, piece)?;
    } else {
        return Ok(false);
    }
    Ok(true)
}
