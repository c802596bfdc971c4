//! The two outputs, and the one way in which text goes to them: it waits in a buffer, which is put
//! when it is full, when the other output has its turn, and at the end. So both outputs get few
//! large pieces, in the order of writing, and no more than a buffer and a line is held.

ghost use Rattle.std.specs.Prelude.{◌≡◌, ◌++◌, ◌+◌, ◌<◌, [], length, OnOk, OnErr, IfSome, IfNone};
ghost use Rattle.tool_output.specs.Marks.{said, Gained, GainedFront};
ghost use Rattle.tool_output.specs.Reports.{Reports, shown_report, found, noted, refusal_report};
ghost use Rattle.tool_output.specs.Stops.{stop_of};
ghost use Rattle.tool_output.specs.Steps.{Writes, Performs, LeavesSinks, SinkRose, LeavesOutputs, Waits, Ends, page_size};

use crate::lines::Line;
use crate::messages::Message;
use crate::stops::Stop;
use elf_outside::{Failed, Sink};
use elf_types::{ElfError, Octets};

/// How many bytes fill a buffer.
pub const OUTPUT_BUFFER_SIZE: u64 = 65536;

/// One of the two outputs.
#[derive(Clone, Copy, Debug, PartialEq, Eq)]
pub enum Side {
    /// Standard output.
    Out,
    /// Standard error.
    Error,
}

/// The two outputs of a tool, and the buffer in which its text waits. It must be ended: a value
/// that is dropped is rejected by the compiler.
pub struct Outputs<'a, O: Sink, E: Sink> {
    /// Standard output.
    pub(crate) out: &'a mut O,
    /// Standard error.
    pub(crate) err: &'a mut E,
    /// What waits.
    pub(crate) page: &'a mut Octets,
    /// The output for which it waits.
    pub(crate) side: Side,
}

/// Puts bytes to one of the outputs, and does nothing where there are none.
fn put_bytes<O: Sink, E: Sink>(
    out: &mut O,
    err: &mut E,
    side: Side,
    bytes: &[u8],
) -> Result<(), Failed>
    ensures ok { OnOk result (Gained (O.wrote out.old) (O.wrote out.new)
        (E.wrote err.old) (E.wrote err.new) (said side bytes.now)) }
    ensures front { OnErr result (GainedFront (O.wrote out.old) (O.wrote out.new)
        (E.wrote err.old) (E.wrote err.new) (said side bytes.now)) }
    ensures unput { bytes.now ≡ [] →
        (result ≡ Ok tt) × (out.new ≡ out.old) × (err.new ≡ err.old) }
    ensures leaves { LeavesSinks O.Sink E.Sink out.old out.new err.old err.new }
    ensures cause { OnErr result (SinkRose O.Sink E.Sink out.old out.new err.old err.new) }
{
    if bytes.is_empty() {
        return Ok(());
    }
    match side {
        Side::Out => out.put(bytes),
        Side::Error => err.put(bytes),
    }
}

impl<'a, O: Sink, E: Sink> Outputs<'a, O, E> {
    /// Two outputs for which nothing waits. The buffer is empty.
    pub fn new(out: &'a mut O, err: &'a mut E, page: &'a mut Octets) -> Outputs<'a, O, E>
        requires { page.old ≡ [] }
        ensures same { (result.out.ghost_name ≡ out.entry.ghost_name)
            × (result.err.ghost_name ≡ err.entry.ghost_name)
            × (result.page.ghost_name ≡ page.entry.ghost_name) }
        ensures values { (result.out.now ≡ out.old) × (result.err.now ≡ err.old)
            × (result.page.now ≡ page.old) }
        ensures side { result.side ≡ Side.Out }
    {
        Outputs {
            out,
            err,
            page,
            side: Side::Out,
        }
    }

    /// Puts what waits, if anything does; afterwards nothing waits. A command calls it before its
    /// first write to a file, so that a failed write of that file costs none of what was said
    /// before. It stops with `Write` alone.
    pub fn flush(&mut self) -> Result<(), Stop>
        ensures writes { Writes O.Sink E.Sink result self.old self.new [] }
        ensures empty { OnOk result (self.new.page.now ≡ []) }
        ensures side { self.new.side ≡ self.old.side }
        ensures unput { self.old.page.now ≡ [] → OnOk result (Waits self.old self.new []) }
        ensures leaves { LeavesOutputs O.Sink E.Sink ⊥ result self.old self.new }
    {
        match put_bytes(self.out, self.err, self.side, self.page.as_slice()) {
            Ok(()) => {
                self.page.truncate(0);
                Ok(())
            }
            Err(Failed) => Err(Stop::Write),
        }
    }

    /// Turns to one of the outputs: what waits for the other is put. It stops with `Write` alone.
    fn turn_to(&mut self, side: Side) -> Result<(), Stop>
        ensures writes { Writes O.Sink E.Sink result self.old self.new [] }
        ensures side { OnOk result (self.new.side ≡ side) }
        ensures waits { self.old.side ≡ side → Waits self.old self.new self.old.page.now }
        ensures leaves { LeavesOutputs O.Sink E.Sink ⊥ result self.old self.new }
    {
        if self.side == side {
            return Ok(());
        }
        self.flush()?;
        self.side = side;
        Ok(())
    }

    /// Puts the buffer where it is full. It stops with `Write` alone.
    fn turn(&mut self) -> Result<(), Stop>
        ensures writes { Writes O.Sink E.Sink result self.old self.new [] }
        ensures room { OnOk result (length self.new.page.now < page_size) }
        ensures side { self.new.side ≡ self.old.side }
        ensures waits { length self.old.page.now < page_size →
            Waits self.old self.new self.old.page.now }
        ensures leaves { LeavesOutputs O.Sink E.Sink ⊥ result self.old self.new }
    {
        if self.page.len() < OUTPUT_BUFFER_SIZE {
            return Ok(());
        }
        self.flush()
    }

    /// Writes a line on one of the outputs. What waits for the other is put first, and the buffer
    /// once the line fills it. It stops with `Write`, and with `Memory` where the line found none:
    /// the buffer is then as it was before the line.
    pub fn put<L: Line>(&mut self, side: Side, line: &L) -> Result<(), Stop>
        ensures writes { Writes O.Sink E.Sink result self.old self.new
            (said side (L.text line.now)) }
        ensures room { OnOk result (length self.new.page.now < page_size) }
        ensures turned { OnOk result (self.new.side ≡ side) }
        ensures waits { self.old.side ≡ side →
            length (self.old.page.now ++ L.text line.now) < page_size →
            OnOk result (Waits self.old self.new (self.old.page.now ++ L.text line.now)) }
        ensures leaves { LeavesOutputs O.Sink E.Sink ⊥ result self.old self.new }
    {
        self.turn_to(side)?;
        let kept = self.page.len();
        if let Err(e) = line.put(self.page) {
            self.page.truncate(kept);
            return Err(Stop::want_of(e));
        }
        self.turn()
    }

    /// Writes a line, and returns whether it rejects something.
    fn give<L: Line>(&mut self, side: Side, line: &L, refused: bool) -> Result<bool, Stop>
        ensures performs { Performs O.Sink E.Sink result self.old self.new
            (said side (L.text line.now)) refused }
        ensures leaves { LeavesOutputs O.Sink E.Sink ⊥ result self.old self.new }
    {
        self.put(side, line)?;
        Ok(refused)
    }

    /// Writes a line on standard output. Nothing is rejected.
    #[tactic(auto, unfolding(crate::specs::Reports::shown_report))]
    pub fn show<L: Line>(&mut self, line: &L) -> Result<bool, Stop>
        ensures reports { Reports O.Sink E.Sink result self.old self.new
            (shown_report (L.text line.now)) }
        ensures leaves { LeavesOutputs O.Sink E.Sink ⊥ result self.old self.new }
    {
        self.give(Side::Out, line, false)
    }

    /// Writes a finding on standard output, which counts as a refusal.
    #[tactic(auto, unfolding(crate::specs::Reports::found))]
    pub fn find<L: Line>(&mut self, line: &L) -> Result<bool, Stop>
        ensures reports { Reports O.Sink E.Sink result self.old self.new (found (L.text line.now)) }
        ensures leaves { LeavesOutputs O.Sink E.Sink ⊥ result self.old self.new }
    {
        self.give(Side::Out, line, true)
    }

    /// Writes a message that rejects nothing.
    #[tactic(auto, unfolding(crate::specs::Reports::noted))]
    pub fn note<T: Line>(&mut self, message: &Message<'_, T>) -> Result<bool, Stop>
        ensures reports { let m = message.now in Reports O.Sink E.Sink result self.old self.new
            (noted m.command.now m.name.now (T.text m.text)) }
        ensures leaves { LeavesOutputs O.Sink E.Sink ⊥ result self.old self.new }
    {
        self.give(Side::Error, message, false)
    }

    /// Rejects a file, by its message.
    #[tactic(auto, unfolding(crate::specs::Reports::refusal_report))]
    pub fn refuse<T: Line>(&mut self, message: &Message<'_, T>) -> Result<bool, Stop>
        ensures reports { let m = message.now in Reports O.Sink E.Sink result self.old self.new
            (refusal_report m.command.now m.name.now (T.text m.text)) }
        ensures leaves { LeavesOutputs O.Sink E.Sink ⊥ result self.old self.new }
    {
        self.give(Side::Error, message, true)
    }

    /// Rejects a file for an error of the library, by a message that tells it, or stops where the
    /// error is no refusal: then nothing is written.
    pub fn refuse_by<T: Line>(
        &mut self,
        message: &Message<'_, T>,
        e: ElfError,
    ) -> Result<bool, Stop>
        ensures reports { let m = message.now in IfNone (stop_of e)
            (Reports O.Sink E.Sink result self.old self.new
            (refusal_report m.command.now m.name.now (T.text m.text))) }
        ensures stops { IfSome (stop_of e)
            (λ stop. (result ≡ Err stop) × (self.new ≡ self.old)) }
        ensures leaves { IfNone (stop_of e)
            (LeavesOutputs O.Sink E.Sink ⊥ result self.old self.new) }
    {
        match Stop::of(&e) {
            Some(stop) => Err(stop),
            None => self.refuse(message),
        }
    }

    /// Ends the writing: puts what waits, but after a failed write, and returns what the last step
    /// returned, or `Write` where that put fails.
    pub fn end<T: Drop>(self, ended: Result<T, Stop>) -> Result<T, Stop>
        ensures { Ends O.Sink E.Sink ended result self.entry self.exit.0.now self.exit.1.0.now }
    {
        let Outputs {
            out,
            err,
            page,
            side,
        } = self;
        if let Err(Stop::Write) = ended {
            return ended;
        }
        match put_bytes(out, err, side, page.as_slice()) {
            Ok(()) => ended,
            Err(Failed) => Err(Stop::Write),
        }
    }
}
