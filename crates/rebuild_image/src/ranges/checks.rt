//! Whether an image can be written.

ghost use Rattle.std.specs.Prelude.{◌≡◌, ◌↔◌, ◌+◌, ◌≤◌, true, All, IsTrue};
ghost use Rattle.std.specs.Option.{SomeIff};
ghost use Rattle.rebuild_image.specs.Ranges.Images.{IsReadyImage, StandsBehind, ArePlanned};
ghost use Rattle.rebuild_image.specs.Ranges.Ranges.{IsInside, AreInside, bytes_of_source, kept_of_parts};

use crate::ranges::images::RangedImage;
use crate::ranges::parts::{RangedParts, base_len};
use crate::ranges::ranges::{ByteRange, range_len};
use elf_layout::PartAt;
use elf_outside::Source;

/// Whether a range ends within so many bytes.
fn ends_within(range: ByteRange, len: u64) -> bool
    ensures { IsTrue result ↔ (range.at + range.len ≤ len) }
{
    range.at <= len && range.len <= len - range.at
}

/// Whether a range lies in the bytes that it is one of.
fn is_inside<S: Source>(parts: &RangedParts<S>, range: ByteRange) -> bool
    ensures { IsTrue result
        ↔ IsInside parts.now.held (bytes_of_source S.Source parts.now.source) range }
{
    if range.held {
        return ends_within(range, parts.held.len());
    }
    ends_within(range, base_len(&parts.source))
}

/// Whether the ranges of the sections lie in the bytes that they are ranges of.
fn are_sections_inside<S: Source>(parts: &RangedParts<S>) -> bool
    ensures { IsTrue result
        ↔ All (IsInside parts.now.held (bytes_of_source S.Source parts.now.source))
        parts.now.ranges.sections }
{
    for range in parts.ranges.sections.as_slice() {
        if !is_inside(parts, *range) {
            return false;
        }
    }
    true
}

/// Whether the ranges of all parts lie in the bytes that they are ranges of.
fn are_inside<S: Source>(parts: &RangedParts<S>) -> bool
    ensures { IsTrue result ↔ AreInside (kept_of_parts S.Source parts.now) }
{
    let header = is_inside(parts, parts.ranges.header);
    let segments = is_inside(parts, parts.ranges.segments);
    let table = is_inside(parts, parts.ranges.table);
    if !header {
        return false;
    }
    if !segments {
        return false;
    }
    if !table {
        return false;
    }
    are_sections_inside(parts)
}

/// The end of a part that follows the end so far and is as long as its range; None of any other
/// one, and where its end is above 2^64 - 1.
fn end_behind<S: Source>(parts: &RangedParts<S>, part: PartAt, end: u64) -> Option<u64>
    requires { AreInside (kept_of_parts S.Source parts.now) }
    ensures { SomeIff result (StandsBehind (kept_of_parts S.Source parts.now) part end)
        (part.at + part.len) }
{
    let len = range_len(&parts.ranges, part.part);
    if len != part.len {
        return None;
    }
    if part.at < end {
        return None;
    }
    part.at.checked_add(part.len)
}

/// Whether the parts of a plan, each as long as its range, are one after the other before an end.
fn are_planned<S: Source>(parts: &RangedParts<S>, plan: &[PartAt], end: u64) -> bool
    requires { AreInside (kept_of_parts S.Source parts.now) }
    ensures { IsTrue result ↔ ArePlanned (kept_of_parts S.Source parts.now) plan.now end }
{
    let mut from = 0;
    for part in plan {
        match end_behind(parts, *part, from) {
            Some(after) => from = after,
            None => return false,
        }
    }
    from <= end
}

impl<S: Source> RangedImage<S> {
    /// Whether the image can be written: exactly where each range lies in the bytes that it is one
    /// of, and the parts of the plan, each as long as its range, are one after the other. It looks
    /// at each range and at each part once, reads nothing and takes no memory.
    pub fn is_ready(&self) -> bool
        ensures ready { result ≡ true → IsReadyImage (kept_of_parts S.Source self.now.parts)
            self.now.plan self.now.end }
        ensures exact { IsReadyImage (kept_of_parts S.Source self.now.parts) self.now.plan
            self.now.end → result ≡ true }
    {
        if !are_inside(&self.parts) {
            return false;
        }
        let len = base_len(&self.parts.source);
        if self.parts.kept > len {
            return false;
        }
        are_planned(&self.parts, self.plan.as_slice(), self.end)
    }
}
