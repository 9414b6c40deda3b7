// Texts with parts that are written short.
use crate::stop::Stop;
use std::alloc::Global;

/// Writes a text behind some bytes. What stands between two `@` is written short: `n` is the number of the line, `xFF` the
/// byte of two hexadecimal digits, and `9*text` the text nine times.
pub(crate) fn expand(
    alloc: Global,
    bytes: &mut Vec<u8>,
    text: &str,
    number: u64,
) -> Result<(), Stop> {
    for (place, part) in text.split("@").enumerate() {
        if place % 2 == 0 {
            bytes.extend_from_slice(part.as_bytes())?;
        } else {
            expand_part(alloc, bytes, part, number)?;
        }
    }
    Ok(())
}

// Writes what stands between two `@`.
fn expand_part(alloc: Global, bytes: &mut Vec<u8>, part: &str, number: u64) -> Result<(), Stop> {
    if part == "n" {
        bytes.extend_from_slice(number.to_string(alloc)?.as_bytes())?;
        return Ok(());
    }
    if let Some(digits) = part.strip_prefix("x") {
        bytes.push(byte(digits)?)?;
        return Ok(());
    }
    let Some((count, text)) = part.split_once("*") else {
        return Err(Stop::Script);
    };
    repeat(bytes, text.as_bytes(), read_number(count)?)
}

// Writes a text so many times; one of a single byte at once, since long lines are of one.
fn repeat(bytes: &mut Vec<u8>, text: &[u8], count: u64) -> Result<(), Stop> {
    if let [byte] = text {
        let length = bytes.len().saturating_add(count as usize);
        bytes.resize(length, *byte)?;
        return Ok(());
    }
    for _time in 0..count {
        bytes.extend_from_slice(text)?;
    }
    Ok(())
}

// The byte of two hexadecimal digits.
fn byte(digits: &str) -> Result<u8, Stop> {
    match u8::from_str_radix(digits, 16) {
        Ok(byte) => Ok(byte),
        Err(_) => Err(Stop::Script),
    }
}

/// A decimal number.
pub(crate) fn read_number(digits: &str) -> Result<u64, Stop> {
    match digits.parse::<u64>() {
        Ok(number) => Ok(number),
        Err(_) => Err(Stop::Script),
    }
}
