//! A device that does not tell its bytes.

ghost use Rattle.std.specs.Prelude.{◌≡◌, None};

use elf_outside::{Device, Failed, Source};

/// A device over another one, which may tell its bytes: this one tells none. Its counts are the
/// inner one's.
#[derive(Drop)]
pub struct Hidden<D> {
    device: D,
}

impl<D: Device> Hidden<D> {
    /// The device as one that tells nothing. It takes no memory.
    pub fn new(device: D) -> Hidden<D>
        ensures { result.device ≡ device }
    {
        Hidden { device }
    }

    /// The inner device. It takes no memory.
    pub fn into_inner(self) -> D
        ensures { result ≡ self.device }
    {
        self.device
    }
}

impl<D: Device> Source for Hidden<D> {
    ghost size = { λ h. D.size h.device };

    ghost holds = { λ _. None };

    ghost rest = { λ h. D.rest h.device };

    ghost faults = { λ h. D.faults h.device };

    ghost taken = { λ h. D.taken h.device };

    fn len(&self) -> u64 {
        self.device.len()
    }

    fn read_at(&mut self, at: u64, buf: &mut [u8]) -> Result<(), Failed> {
        self.device.read_at(at, buf)
    }

    ghost sized = { λ _. tt };
}

impl<D: Device> Device for Hidden<D> {
    ghost write_faults = { λ h. D.write_faults h.device };

    ghost given = { λ h. D.given h.device };

    ghost rest_after = { λ h. D.rest_after h.device };

    fn write_at(&mut self, at: u64, buf: &[u8]) -> Result<(), Failed> {
        self.device.write_at(at, buf)
    }

    fn set_len(&mut self, n: u64) -> Result<(), Failed> {
        self.device.set_len(n)
    }

    fn append(&mut self, buf: &[u8]) -> Result<(), Failed> {
        self.device.append(buf)
    }

    fn append_zeros(&mut self, n: u64) -> Result<(), Failed> {
        self.device.append_zeros(n)
    }

    ghost rest_begins = { λ h. D.rest_begins h.device };
}
