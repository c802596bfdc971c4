//! What puts an image to a sink.

ghost use Rattle.std.specs.Prelude.{ℕ, List, Option, IfSome, IfErr, IsSome};
ghost use Rattle.tool_output.specs.elf_outside.Asks.{UsesSource};
ghost use Rattle.tool_output.specs.elf_outside.Puts.{UsesSink, Puts};
ghost use Rattle.tool_output.specs.Stops.{stop_of};

use elf_types::ElfError;
use tool_output::prelude::{Sink, Source};

/// An image that can be put to a sink.
///
/// - `ready` is what must hold before that: nothing of it is rejected.
/// - `bytes` is the image, where what it is read from tells its bytes.
/// - `source` is what it is read from; an object that was made has one with no bytes.
/// - `due` is how many bytes it asks that for at most.
pub trait Image {
    /// What the image is read from.
    type From: Source;

    ghost ready: { Self → Type 0 };

    ghost bytes: { Self → Option (List ℕ) };

    ghost source: { Self → Self.From };

    ghost due: { Self → ℕ };

    /// Puts the image. It fails with `Memory`, `Read`, which comes only where a read of the source
    /// failed, and `Write`, which comes only where a put failed; then a prefix of the image was
    /// put.
    fn put_to<K: Sink>(&mut self, sink: &mut K) -> Result<(), ElfError>
        requires { ready self.old }
        ensures puts { IfSome (bytes self.old) (Puts K.Sink result sink.old sink.new) }
        ensures sink { UsesSink K.Sink result sink.old sink.new }
        ensures source { UsesSource Self.From.Source result (source self.old) (source self.new)
            (due self.old) }
        ensures stops { IfErr result (λ e. IsSome (stop_of e)) };
}
