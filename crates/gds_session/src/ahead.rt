// The quick way over a line `rel S T` that has the right form: its bytes are looked at once. What it takes is what the
// definition takes; a line that it doesn't take is read again by the definition's own steps.
ghost use Rattle.std.specs.Prelude.{◌≡◌, ◌<◌, ◌≤◌, ◌∷◌, ◌++◌, length, take, drop, IfSome, decimal, true};
ghost use Rattle.std.specs.Str.{all_ascii_digits};
ghost use Rattle.std.specs.Str.Parse.{digits_value};
ghost use Rattle.gds_session.specs.OnceText.{most_nodes};
ghost use Rattle.gds_session.specs.Reading.{IsArcLine};

use crate::once::strip_word;

// As many digits as are looked at: the value of so many fits u32.
const DIGITS: usize = 8;

// The number below a limit whose digits stand at the front of a text, and what stands after them.
fn take_number(limit: u32, text: &[u8]) -> Option<(u32, &[u8])>
    ensures text { IfSome result (λ taken. text.now ≡ decimal taken.0 ++ taken.1.now) }
    ensures below { IfSome result (λ taken. taken.0 < limit) }
{
    let (front, _) = text.split_at(text.len().min(DIGITS));
    let mut value = 0;
    for (place, b) in front.iter().enumerate() {
        if !b.is_ascii_digit() {
            return number_before(limit, text, place, value);
        }
        value = value * 10 + u32::from(*b - b'0');
    }
    number_before(limit, text, front.len(), value)
}

// The number that the digits before a place write, where it is below a limit and they begin with no 0 before another.
fn number_before(limit: u32, text: &[u8], place: usize, value: u32) -> Option<(u32, &[u8])>
    requires place { place ≤ length text.now }
    requires digits { all_ascii_digits (take place text.now) ≡ true }
    requires value { digits_value 10 (take place text.now) ≡ value }
    ensures text { IfSome result (λ taken. text.now ≡ decimal taken.0 ++ taken.1.now) }
    ensures below { IfSome result (λ taken. taken.0 < limit) }
{
    if place == 0 || value >= limit {
        return None;
    }
    if place > 1 && text[0] == b'0' {
        return None;
    }
    let (_, rest) = text.split_at(place);
    Some((value, rest))
}

// The arc that the first line of a text says, and what stands after that line.
pub(crate) fn arc_ahead(nodes: u32, text: &[u8]) -> Option<((u32, u32), &[u8])>
    requires { nodes ≤ most_nodes }
    ensures { IfSome result (λ taken. IsArcLine nodes text.now taken.0 taken.1.now) }
{
    let ends = strip_word(text, b"rel ")?;
    let (source, rest) = take_number(nodes, ends)?;
    let rest = strip_word(rest, b" ")?;
    let (target, rest) = take_number(nodes, rest)?;
    let Some((feed, after)) = rest.split_first() else {
        return Some(((source, target), rest));
    };
    if *feed != b'\n' {
        return None;
    }
    Some(((source, target), after))
}
