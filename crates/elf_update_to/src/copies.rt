//! Bytes of the pieces of a descriptor's parts: those that are in memory, and those that are read.

ghost use Rattle.std.specs.Prelude.{◌≡◌, ◌<◌, ◌+◌, ◌^◌, ◌≤◌, None, IsTrue, length, take, drop, slice_index_or, IfSome, IfErr, OnOk};
ghost use Rattle.elf_update_plan.specs.law_object.Writing.Plan.{places_below};
ghost use Rattle.elf_update_to.specs.Origins.{absent_piece, origin_due, CopiesBy};
ghost use Rattle.elf_update_to.specs.declared.parts.Origin.TheVariants.{Piece};
ghost use Rattle.elf_update_to.specs.Descriptors.{HasStoredPlaces, kept_of_elf, faults_of, taken_of, stored_pieces, stored_due, HasToRead};

use crate::data::{copy_held, copy_home};
use crate::fronts::{HeaderRow, SectionRows, SegmentRows};
use crate::rows::copy_rows;
use elf_types::{DataId, ElfError, Part};
use elf_update_plan::prelude::{Elf, Source};

/// Copies bytes of a piece of a part, at least one, where they are in memory: those of the ELF
/// header and of the tables are, and those of a section's piece that is held. Else it returns the
/// piece, which must be read. It reads nothing and takes no memory.
pub fn copy_at_hand<S: Source>(
    elf: &Elf<S>,
    part: Part,
    p: u32,
    from: u64,
    buf: &mut [u8],
) -> Option<DataId>
    requires stored { HasStoredPlaces elf.now.o }
    requires some { 0 < length buf.old }
    requires there { from + length buf.old
        ≤ length (slice_index_or (stored_pieces elf.now.o part) p absent_piece).1 }
    requires small { from + length buf.old < 2 ^ 64 }
    ensures copied { result ≡ None → IsTrue elf.now.told → buf.new ≡ take (length buf.old)
        (drop from (slice_index_or (stored_pieces elf.now.o part) p absent_piece).1) }
    ensures unread { IfSome result (HasToRead elf.now part p) }
    ensures len { length buf.new ≡ length buf.old }
{
    match part {
        Part::Header => {
            copy_rows(&HeaderRow { elf }, from, buf);
            None
        }
        Part::Segments => {
            copy_rows(&SegmentRows { elf }, from, buf);
            None
        }
        Part::Table => {
            copy_rows(&SectionRows { elf }, from, buf);
            None
        }
        Part::Section(s) => {
            let d = DataId {
                section: s,
                piece: p,
            };
            if copy_held(elf, d, from, buf) {
                return None;
            }
            Some(d)
        }
        Part::Object => None,
        Part::Piece(_, _) => None,
    }
}

/// Copies bytes of a piece. It fails with `Read` alone and takes no memory.
pub(crate) fn copy_piece<S: Source>(
    elf: &mut Elf<S>,
    part: Part,
    p: u32,
    from: u64,
    buf: &mut [u8],
) -> Result<(), ElfError>
    requires stored { HasStoredPlaces elf.old.o }
    requires there { from + length buf.old
        ≤ length (slice_index_or (stored_pieces elf.old.o part) p absent_piece).1 }
    requires small { from + length buf.old < 2 ^ 64 }
    ensures bytes { IsTrue elf.old.told → OnOk result (buf.new ≡ take (length buf.old)
        (drop from (slice_index_or (stored_pieces elf.old.o part) p absent_piece).1)) }
    ensures copies { CopiesBy (kept_of_elf S.Source) (faults_of S.Source) (taken_of S.Source) result
        elf.old elf.new (places_below
        (origin_due (stored_due elf.old.o elf.old.loaded) 0 (Piece part p)) from
        (from + length buf.old)) }
    ensures err { IfErr result (λ e. e ≡ ElfError.Read) }
{
    if buf.is_empty() {
        return Ok(());
    }
    match copy_at_hand(elf, part, p, from, buf) {
        None => Ok(()),
        Some(d) => copy_home(elf, d, from, buf),
    }
}
