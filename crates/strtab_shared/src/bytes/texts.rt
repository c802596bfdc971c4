//! The text of which shared bytes are ranges, for who makes others of it. Nothing is stated of it:
//! nothing but the memory depends on it.

use crate::bytes::parts::StretchParts;
use crate::bytes::stretches::Stretch;

/// A range of the text: its first place, and the place after its last byte. One that does not end
/// after its first place is of no bytes.
#[derive(Clone, Copy)]
struct TextRange {
    from: u64,
    to: u64,
}

/// The range from the first byte of two up to the last one.
fn join_ranges(a: TextRange, b: TextRange) -> TextRange {
    if b.to <= b.from {
        return a;
    }
    TextRange {
        from: a.from.min(b.from),
        to: a.to.max(b.to),
    }
}

/// Where bytes from a place up to another one are in the text, of those of a range of it.
fn cut_range(from: u64, to: u64, begin: u64, place: u64, len: u64) -> TextRange {
    let first = from.saturating_sub(begin);
    let last = to.saturating_sub(begin).min(len);
    TextRange {
        from: place.saturating_add(first),
        to: place.saturating_add(last),
    }
}

/// Where bytes from a place up to another one are in the text, from the first up to the last.
fn range_under(parts: &StretchParts, from: u64, to: u64) -> TextRange {
    let mut found = TextRange {
        from: u64::MAX,
        to: 0,
    };
    for s in parts.stretches.as_slice() {
        let begin = s.end.saturating_sub(s.len);
        found = join_ranges(found, cut_range(from, to, begin, s.at, s.len));
    }
    let open = parts.text.len().saturating_sub(parts.tail);
    join_ranges(found, cut_range(from, to, parts.count, parts.tail, open))
}

/// The bytes of a range of a text, and none where it does not have them.
fn bytes_between(text: &[u8], range: TextRange) -> &[u8] {
    if range.to > text.len() as u64 {
        return &[];
    }
    if range.from > range.to {
        return &[];
    }
    &text[range.from as usize..range.to as usize]
}

/// The text in which so many bytes from a place on are, and its place.
pub(crate) fn text_of(parts: &StretchParts, at: u64, len: u64) -> (u64, &[u8]) {
    let range = range_under(parts, at, at.saturating_add(len));
    (range.from, bytes_between(parts.text.as_slice(), range))
}

/// The place in the text of the byte at a place that is in stretches.
fn place_within(stretches: &[Stretch], at: u64) -> u64 {
    let i = stretches.partition_point(|s| s.end <= at);
    match stretches.get(i) {
        Some(s) => {
            let begin = s.end.saturating_sub(s.len);
            s.at.saturating_add(at.saturating_sub(begin))
        }
        None => u64::MAX,
    }
}

/// The place in the text of the byte at a place.
pub(crate) fn text_place(parts: &StretchParts, at: u64) -> u64 {
    if at < parts.count {
        return place_within(parts.stretches.as_slice(), at);
    }
    parts.tail.saturating_add(at - parts.count)
}
