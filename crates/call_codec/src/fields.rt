// Fields of JSON. Names, tags and the words that are written here need no escapes.
ghost use Rattle.std.specs.Prelude.{◌≡◌};
ghost use Rattle.text_sinks.specs.Told.{Wrote};
ghost use Rattle.call_codec.specs.Answers.{first_field, first_text_field, flag_field, number_field, text_field, whole_field};

use gds_causes::Failed;
use text_sinks::{Part, TextSink, put_parts};

/// Puts the first field of an object, with a number.
#[tactic(auto, unfolding(crate::specs::Answers::first_field))]
pub(crate) fn put_first_field<T: TextSink>(
    text: &mut T,
    name: &str,
    number: u64,
) -> Result<(), Failed>
    ensures wrote { Wrote result (T.told text.old) (T.told text.new) (first_field name.now number) }
{
    put_parts(
        text,
        &[
            Part::Bytes(b"\""),
            Part::Bytes(name.as_bytes()),
            Part::Bytes(b"\":"),
            Part::Number(number),
        ],
    )
}

/// Puts a further field with a number.
#[tactic(auto, unfolding(crate::specs::Answers::field_name, crate::specs::Answers::number_field))]
pub(crate) fn put_number_field<T: TextSink>(
    text: &mut T,
    name: &str,
    number: u64,
) -> Result<(), Failed>
    ensures wrote { Wrote result (T.told text.old) (T.told text.new) (number_field name.now number) }
{
    put_parts(
        text,
        &[
            Part::Bytes(b",\""),
            Part::Bytes(name.as_bytes()),
            Part::Bytes(b"\":"),
            Part::Number(number),
        ],
    )
}

/// Puts a further field with a whole number.
#[tactic(auto, unfolding(crate::specs::Answers::field_name, crate::specs::Answers::whole_field))]
pub(crate) fn put_whole_field<T: TextSink>(
    text: &mut T,
    name: &str,
    number: i64,
) -> Result<(), Failed>
    ensures wrote { Wrote result (T.told text.old) (T.told text.new) (whole_field name.now number) }
{
    put_parts(
        text,
        &[
            Part::Bytes(b",\""),
            Part::Bytes(name.as_bytes()),
            Part::Bytes(b"\":"),
            Part::Whole(number),
        ],
    )
}

/// Puts a further field with a text.
#[tactic(auto, unfolding(crate::specs::Answers::field_name, crate::specs::Answers::text_field))]
pub(crate) fn put_text_field<'a, T: TextSink>(
    text: &mut T,
    name: &'a str,
    value: &'a [u8],
) -> Result<(), Failed>
    ensures wrote { Wrote result (T.told text.old) (T.told text.new) (text_field name.now value.now) }
{
    put_parts(
        text,
        &[
            Part::Bytes(b",\""),
            Part::Bytes(name.as_bytes()),
            Part::Bytes(b"\":\""),
            Part::Bytes(value),
            Part::Bytes(b"\""),
        ],
    )
}

/// Puts the first field of an object, with a text.
#[tactic(auto, unfolding(crate::specs::Answers::first_text_field))]
pub(crate) fn put_first_text_field<'a, T: TextSink>(
    text: &mut T,
    name: &'a str,
    value: &'a [u8],
) -> Result<(), Failed>
    ensures wrote { Wrote result (T.told text.old) (T.told text.new) (first_text_field name.now value.now) }
{
    put_parts(
        text,
        &[
            Part::Bytes(b"\""),
            Part::Bytes(name.as_bytes()),
            Part::Bytes(b"\":\""),
            Part::Bytes(value),
            Part::Bytes(b"\""),
        ],
    )
}

/// Puts a further field, true or false.
#[tactic(auto, unfolding(crate::specs::Answers::field_name, crate::specs::Answers::flag_field))]
pub(crate) fn put_flag_field<T: TextSink>(
    text: &mut T,
    name: &str,
    flag: bool,
) -> Result<(), Failed>
    ensures wrote { Wrote result (T.told text.old) (T.told text.new) (flag_field name.now flag) }
{
    put_parts(
        text,
        &[
            Part::Bytes(b",\""),
            Part::Bytes(name.as_bytes()),
            Part::Bytes(b"\":"),
            Part::Flag(flag),
        ],
    )
}
