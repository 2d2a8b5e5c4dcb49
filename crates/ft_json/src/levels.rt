//! How many levels the text of a value has.

ghost use Rattle.std.specs.Prelude.{◌≡◌, ◌+◌, ◌<◌, ◌^◌};
ghost use Rattle.ft_json.specs.Levels.{closes, left_behind, next_place, opens, opens_at_most};

use crate::limits::MOST_LEVELS;

// Where a byte of the text stands.
#[derive(Clone, Copy)]
enum Place {
    // Outside of strings.
    Outside,
    // In a string.
    Inside,
    // In a string, behind a backslash that escapes it.
    Escaped,
}

/// Whether the text opens at most 100 arrays and objects, one in another.
pub(crate) fn opens_few(text: &[u8]) -> bool
    ensures { result ≡ opens_at_most 100 Place.Outside text.now }
{
    let mut left = MOST_LEVELS as u64;
    let mut place = Place::Outside;
    for byte in text {
        let Some(behind) = left_behind(left, place, *byte) else {
            return false;
        };
        left = behind;
        place = next_place(place, *byte);
    }
    true
}

// How many levels may be opened behind the byte: None where it opens one too many.
fn left_behind(left: u64, place: Place, byte: u8) -> Option<u64>
    requires { left + 1 < 2 ^ 64 }
    ensures { result ≡ left_behind left place byte }
{
    match place {
        Place::Outside if opens(byte) => left.checked_sub(1),
        Place::Outside if closes(byte) => Some(left + 1),
        Place::Outside | Place::Inside | Place::Escaped => Some(left),
    }
}

// Where the byte behind this one stands.
fn next_place(place: Place, byte: u8) -> Place
    ensures { result ≡ next_place place byte }
{
    match (place, byte) {
        (Place::Outside, b'"') | (Place::Escaped, _) => Place::Inside,
        (Place::Inside, b'"') => Place::Outside,
        (Place::Inside, b'\\') => Place::Escaped,
        (Place::Outside | Place::Inside, _) => place,
    }
}

// Whether it opens an array or an object.
fn opens(byte: u8) -> bool
    ensures { result ≡ opens byte }
{
    byte == b'[' || byte == b'{'
}

// Whether it closes one.
fn closes(byte: u8) -> bool
    ensures { result ≡ closes byte }
{
    byte == b']' || byte == b'}'
}
