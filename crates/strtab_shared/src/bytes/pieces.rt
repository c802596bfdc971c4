//! Bytes that are together.

ghost use Rattle.std.specs.Prelude.{◌≡◌, ◌+◌, ◌<◌, length, drop};
ghost use Rattle.strtab_shared.specs.Bytes.Parts.{whole, AreKept};
ghost use Rattle.strtab_shared.specs.Bytes.Pieces.{IsPieceAt};

use crate::bytes::parts::StretchParts;
use crate::bytes::stretches::piece_of;

/// The bytes of a text from a place on.
fn bytes_from(text: &[u8], at: u64) -> &[u8]
    requires { at < length text.now }
    ensures { result.now ≡ drop at text.now }
{
    &text[at as usize..]
}

/// The bytes from a place on that are together in the text, at least one.
pub(crate) fn piece_at(parts: &StretchParts, at: u64) -> &[u8]
    requires kept { AreKept parts.now }
    requires below { at < length (whole parts.now) }
    ensures { IsPieceAt at (whole parts.now) result.now }
{
    let _held = parts.text.len();
    if at < parts.count {
        return piece_of(parts.text.as_slice(), parts.stretches.as_slice(), at);
    }
    let past = at - parts.count;
    let place = parts.tail + past;
    bytes_from(parts.text.as_slice(), place)
}
