//! How many elements segments have, and how a text is cut into chunks.

ghost use Rattle.std.specs.Prelude.{◌≡◌, ◌+◌, ◌^◌, ◌<◌, ◌≤◌, ◌∷◌, IsTrue, chars, length, take, drop};
ghost use Rattle.ft_op.specs.WellFormed.{is_count};
ghost use Rattle.ft_sumdoc.specs.Chunks.{chunks, place_behind};
ghost use Rattle.ft_sumdoc.specs.Segments.{body_length, text_length};

use crate::limits::CHUNK_LENGTH;
use crate::summary::{Seg, SegRec};

/// How many characters the text has.
pub(crate) fn char_count(text: &str) -> usize
    ensures { result ≡ length (chars text.now) }
{
    text.chars().count()
}

/// How many elements the segment has.
pub(crate) fn body_len(seg: &Seg) -> usize
    ensures { result ≡ body_length seg.now }
{
    match seg {
        Seg::Chars { text } => char_count(text.as_str()),
        Seg::Marker { .. } => 1,
    }
}

/// How many segments the first chunk of these has.
pub(crate) fn chunk_len(segs: &[SegRec]) -> usize
    requires some { 0 < length segs.now }
    requires elements { IsTrue (is_count (text_length segs.now)) }
    ensures some { 0 < result }
    ensures in_range { result ≤ length segs.now }
    ensures cut { chunks segs.now ≡ take result segs.now ∷ chunks (drop result segs.now) }
{
    let mut place = 0;
    for (i, seg) in segs.iter().enumerate() {
        place = place_behind(place, seg);
        if place == 0 {
            return i + 1;
        }
    }
    segs.len()
}

// The place in its chunk of the element behind the segment, which has this place in its chunk.
fn place_behind(place: usize, seg: &SegRec) -> usize
    requires { place + body_length seg.now.body < 2 ^ 53 }
    ensures { result ≡ place_behind place seg.now }
{
    let behind = place + body_len(&seg.body);
    if behind == CHUNK_LENGTH { 0 } else { behind }
}

/// How many elements the segments have.
pub(crate) fn text_len(segs: &[SegRec]) -> usize
    requires { IsTrue (is_count (text_length segs.now)) }
    ensures { result ≡ text_length segs.now }
{
    let mut elements = 0;
    for seg in segs {
        elements += body_len(&seg.body);
    }
    elements
}
