//! A device as a sink.

ghost use Rattle.std.specs.Prelude.{◌≡◌, ◌∷◌, []};

use crate::devices::Device;
use crate::sinks::Sink;
use crate::sources::Failed;

/// A device that is written at its end: what the sink wrote is what the device holds, and the puts
/// that failed are the device's writes that failed.
#[derive(Drop)]
pub struct DeviceSink<D> {
    device: D,
}

impl<D: Device> DeviceSink<D> {
    /// The device as a sink. It takes no memory.
    pub fn new(device: D) -> DeviceSink<D>
        ensures { result.device ≡ device }
    {
        DeviceSink { device }
    }

    /// The device. It takes no memory.
    pub fn into_inner(self) -> D
        ensures { result ≡ self.device }
    {
        self.device
    }
}

impl<D: Device> Sink for DeviceSink<D> {
    ghost wrote = { λ s. D.holds s.device };

    ghost faults = { λ s. D.write_faults s.device };

    ghost rest = { λ s. (D.taken s.device ∷ []) ∷ [] };

    fn put(&mut self, buf: &[u8]) -> Result<(), Failed> {
        self.device.append(buf)
    }

    fn put_zeros(&mut self, n: u64) -> Result<(), Failed> {
        self.device.append_zeros(n)
    }
}
