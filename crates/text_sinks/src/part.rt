// Parts of a text.
ghost use Rattle.std.specs.Prelude.{◌≡◌, map};
ghost use Rattle.std.specs.List.{concat};
ghost use Rattle.text_sinks.specs.Told.{Wrote};
ghost use Rattle.text_sinks.specs.Parts.{part_text, parts_text};

use crate::text_sink::TextSink;
use gds_causes::Failed;
use itoa::Buffer;

/// A part of a text.
#[derive(Clone, Copy, Debug)]
pub enum Part<'a> {
    /// Bytes as they are.
    Bytes(&'a [u8]),
    /// A number in decimal digits.
    Number(u64),
    /// A whole number in decimal digits, with `-` where it is below 0.
    Whole(i64),
    /// `true` or `false`.
    Flag(bool),
}

// Puts a part.
fn put_part<T: TextSink>(text: &mut T, part: &Part<'_>) -> Result<(), Failed>
    ensures wrote { Wrote result (T.told text.old) (T.told text.new) (part_text part.now) }
{
    match part {
        Part::Bytes(bytes) => text.put(bytes),
        Part::Number(number) => text.put(Buffer::new().format(*number).as_bytes()),
        Part::Whole(number) => text.put(Buffer::new().format(*number).as_bytes()),
        Part::Flag(true) => text.put(b"true"),
        Part::Flag(false) => text.put(b"false"),
    }
}

/// Puts parts one after another.
///
/// # Errors
/// `Failed` exactly where the count of faults of a sink behind rises. Then that one took a front of what was put.
pub fn put_parts<T: TextSink>(text: &mut T, parts: &[Part<'_>]) -> Result<(), Failed>
    ensures wrote { Wrote result (T.told text.old) (T.told text.new) (parts_text parts.now) }
{
    for part in parts {
        put_part(text, part)?;
    }
    Ok(())
}
