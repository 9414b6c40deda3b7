// The first difference between what is wanted and what came.
use crate::outcome::Outcome;
use crate::stop::Stop;
use gds_session::End;
use std::alloc::Global;

/// Says how an outcome differs from the text and the end that are wanted, or nothing. Where no write and no flush failed,
/// all that was written is flushed.
pub(crate) fn difference(
    alloc: Global,
    wanted: &[u8],
    end: End,
    outcome: &Outcome,
) -> Result<Option<String>, Stop> {
    if outcome.text.as_slice() != wanted {
        let wanted = str::from_utf8(wanted).unwrap_or("");
        let text = str::from_utf8(outcome.text.as_slice()).unwrap_or("");
        return Ok(Some(different_answer(alloc, wanted, text)?));
    }
    if outcome.end != end {
        let text = format!(in alloc; "the end is {:?}, not {end:?}", outcome.end)?;
        return Ok(Some(text));
    }
    if end == End::WriteFault {
        return Ok(None);
    }
    flush_difference(alloc, outcome.text.len(), outcome)
}

/// Says how many bytes are flushed where it isn't so many, or nothing.
pub(crate) fn flush_difference(
    alloc: Global,
    flushed: usize,
    outcome: &Outcome,
) -> Result<Option<String>, Stop> {
    if outcome.flushed == flushed {
        return Ok(None);
    }
    let text = format!(in alloc; "{} bytes are flushed, not {flushed}", outcome.flushed)?;
    Ok(Some(text))
}

/// Says which desks weren't opened where others are wanted, or nothing.
pub(crate) fn opening_difference(
    alloc: Global,
    unopened: &[u64],
    outcome: &Outcome,
) -> Result<Option<String>, Stop> {
    let came = outcome.unopened.as_slice();
    if came == unopened {
        return Ok(None);
    }
    let text = format!(in alloc; "the desks {came:?} weren't opened, not {unopened:?}")?;
    Ok(Some(text))
}

// What is said of an answer that is another one, of one that is missing, and of one that is too many.
fn unlike(alloc: Global, number: u64, answer: &str, wanted: &str) -> Result<String, Stop> {
    Ok(format!(in alloc; "answer {number} is {answer}, not {wanted}")?)
}

fn missing(alloc: Global, number: u64, wanted: &str) -> Result<String, Stop> {
    Ok(format!(in alloc; "answer {number} is missing: {wanted}")?)
}

fn one_too_many(alloc: Global, answer: &str) -> Result<String, Stop> {
    Ok(format!(in alloc; "one answer too many: {answer}")?)
}

// Says which answer differs first.
fn different_answer(alloc: Global, wanted: &str, text: &str) -> Result<String, Stop> {
    let mut number: u64 = 0;
    let mut answers = text.lines();
    for line in wanted.lines() {
        number = number.saturating_add(1);
        match answers.next() {
            Some(answer) if answer == line => {}
            Some(answer) => return unlike(alloc, number, answer, line),
            None => return missing(alloc, number, line),
        }
    }
    match answers.next() {
        Some(answer) => one_too_many(alloc, answer),
        None => Ok(String::from_str(alloc, "an LF is missing or too many")?),
    }
}

/// The front of a text that has so many lines.
pub(crate) fn first_lines(text: &[u8], count: usize) -> &[u8] {
    let mut left = count;
    for (place, byte) in text.iter().enumerate() {
        if left == 0 {
            return &text[..place];
        }
        if *byte == b'\n' {
            left -= 1;
        }
    }
    text
}
