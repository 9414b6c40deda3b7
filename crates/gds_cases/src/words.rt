// The words of a row.
use crate::stop::Stop;
use graph_model::{Name, Tag};
use std::alloc::Global;

/// The word of this place, counted from 0.
pub(crate) fn word(words: &str, place: usize) -> Result<&str, Stop> {
    for (at, word) in words.split_whitespace().enumerate() {
        if at == place {
            return Ok(word);
        }
    }
    Err(Stop::Row)
}

/// The number in the word of this place.
pub(crate) fn number(words: &str, place: usize) -> Result<u64, Stop> {
    match word(words, place)?.parse::<u64>() {
        Ok(number) => Ok(number),
        Err(_) => Err(Stop::Row),
    }
}

/// The number below 2 ^ 32 in the word of this place.
pub(crate) fn small(words: &str, place: usize) -> Result<u32, Stop> {
    match word(words, place)?.parse::<u32>() {
        Ok(number) => Ok(number),
        Err(_) => Err(Stop::Row),
    }
}

/// The value in the word of this place.
pub(crate) fn value(words: &str, place: usize) -> Result<i64, Stop> {
    match word(words, place)?.parse::<i64>() {
        Ok(value) => Ok(value),
        Err(_) => Err(Stop::Row),
    }
}

/// Whether the word of this place is `true` or `false`.
pub(crate) fn flag(words: &str, place: usize) -> Result<bool, Stop> {
    match word(words, place)? {
        "true" => Ok(true),
        "false" => Ok(false),
        _ => Err(Stop::Row),
    }
}

/// The tag that a text is.
pub(crate) fn tag(alloc: Global, text: &str) -> Result<Tag, Stop> {
    match Tag::parse(alloc, text.as_bytes()) {
        Ok(tag) => Ok(tag),
        Err(_) => Err(Stop::Row),
    }
}

/// The name that a text is.
pub(crate) fn name(alloc: Global, text: &str) -> Result<Name, Stop> {
    match Name::parse(alloc, text.as_bytes()) {
        Ok(name) => Ok(name),
        Err(_) => Err(Stop::Row),
    }
}
