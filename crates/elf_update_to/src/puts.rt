//! Bytes that go through a buffer to a sink: a range of a piece or of the base, and the fill byte.

ghost use Rattle.std.specs.Prelude.{◌≡◌, ◌-◌, ◌≤◌, length, take, drop, IfErr};
ghost use Rattle.std.proofs.Math.ListN.{replicate};
ghost use Rattle.elf_types.specs.declared.errors.ElfError.TheVariants.{Write};
ghost use Rattle.elf_update_to.specs.Texts.{Flows};
ghost use Rattle.elf_update_to.specs.Origins.{ReadyFor};
ghost use Rattle.elf_update_to.specs.Emits.{origin_text, due_in, Emits};

use crate::pages::{PAGE_SIZE, Page};
use crate::parts::{ImageParts, Origin};
use elf_types::ElfError;
use elf_update_plan::prelude::{Sink, put_zeros};

/// Puts a byte so many times, buffer by buffer.
fn put_same<K: Sink>(page: &mut Page, sink: &mut K, byte: u8, count: u64) -> Result<(), ElfError>
    ensures flows { Flows K.Sink result sink.old sink.new page.old page.new
        (replicate count byte) }
    ensures err { IfErr result (λ e. e ≡ Write) }
{
    let mut left = count;
    while left > 0 {
        if let Err(e) = page.turn(sink) {
            return Err(e);
        }
        let some = left.min(page.room() as u64);
        page.push_same(byte, some as usize);
        left -= some;
    }
    Ok(())
}

/// Puts so many zero bytes after what waits, which is put first.
fn put_hole<K: Sink>(page: &mut Page, sink: &mut K, count: u64) -> Result<(), ElfError>
    ensures flows { Flows K.Sink result sink.old sink.new page.old page.new
        (replicate count 0) }
    ensures err { IfErr result (λ e. e ≡ Write) }
{
    if let Err(e) = page.flush(sink) {
        return Err(e);
    }
    put_zeros(sink, count)
}

/// Puts the fill byte so many times. More zeros than fill a buffer go to the sink as zeros, which
/// may keep a hole for them. It fails with `Write` alone and takes no memory.
pub fn put_fill<K: Sink>(
    page: &mut Page,
    sink: &mut K,
    byte: u8,
    count: u64,
) -> Result<(), ElfError>
    ensures flows { Flows K.Sink result sink.old sink.new page.old page.new
        (replicate count byte) }
    ensures err { IfErr result (λ e. e ≡ Write) }
{
    if byte == 0 && count > PAGE_SIZE as u64 {
        return put_hole(page, sink, count);
    }
    put_same(page, sink, byte, count)
}

/// Puts the bytes of a piece or of the base from one place on and before another. It fails with
/// `Read` and `Write` alone and takes no memory.
pub fn put_range<P: ImageParts, K: Sink>(
    parts: &mut P,
    page: &mut Page,
    sink: &mut K,
    of: Origin,
    from: u64,
    to: u64,
) -> Result<(), ElfError>
    requires ready { ReadyFor (P.ready (P.kept parts.old)) of }
    requires order { from ≤ to }
    requires there { to ≤ length (origin_text P.ImageParts parts.old of) }
    ensures { Emits P.ImageParts K.Sink result parts.old parts.new sink.old sink.new page.old
        page.new
        (take (to - from) (drop from (origin_text P.ImageParts parts.old of)))
        (due_in P.ImageParts parts.old of from to) }
{
    let mut at = from;
    while at < to {
        if let Err(e) = page.turn(sink) {
            return Err(e);
        }
        let some = (to - at).min(page.room() as u64);
        if let Err(e) = page.fill_by(parts, of, at, some as usize) {
            return Err(e);
        }
        at += some;
    }
    Ok(())
}
