//! Shared bytes, compared with others.

ghost use Rattle.std.specs.Prelude.{◌≡◌, ◌+◌, ◌<◌, ◌≤◌, length, take, drop};
ghost use Rattle.std.specs.Str.{bytes_eq};
ghost use Rattle.strtab_shared.specs.Bytes.Pieces.{IsComparedTo};

use crate::bytes::bytes::SharedBytes;

impl SharedBytes {
    /// Compares some more of bytes, of which so many are those from a place on, and returns how
    /// many are then; None where one differs.
    fn compare_more(&self, at: u64, done: usize, bytes: &[u8]) -> Option<usize>
        requires inside { at + length bytes.now ≤ length self.now }
        requires more { done < length bytes.now }
        requires same { take done bytes.now ≡ take done (drop at self.now) }
        ensures { IsComparedTo self.now at bytes.now done result }
    {
        let _count = self.len();
        let left = bytes.len() - done;
        let piece = self.piece_at(at + done as u64);
        let n = piece.len().min(left);
        if &bytes[done..done + n] == &piece[..n] {
            return Some(done + n);
        }
        None
    }

    /// Whether the bytes from a place on are these, of which all are there. It takes no memory.
    pub fn has_at(&self, at: u64, bytes: &[u8]) -> bool
        requires { at + length bytes.now ≤ length self.now }
        ensures { result ≡ bytes_eq bytes.now (take (length bytes.now) (drop at self.now)) }
    {
        let mut done = 0;
        while done < bytes.len() {
            match self.compare_more(at, done, bytes) {
                Some(next) => done = next,
                None => return false,
            }
        }
        true
    }
}
