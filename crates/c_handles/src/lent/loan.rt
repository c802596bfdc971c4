//! Bytes that C lends.

ghost use Rattle.std.specs.Prelude.{◌≡◌, ◌<◌, ◌^◌, ℕ, Bool, true, List, length};
ghost use Rattle.c_handles.specs.Lent.Loans.{loan_owns, loan_shares, lent_owns};

use std::marker::Model;

/// Bytes as they cross to C and back: where the first one lies, and how many there are. All zeros
/// is the form in which nothing is lent.
///
/// Where they are lent, C has given up a part of the right to them: it may read them, and writes
/// none of them until they are back. It may lend them once more meanwhile, by a part of what it
/// kept. The pointer is then not null, and they are fewer than 2^63.
#[repr(C)]
#[derive(Drop)]
pub struct Lent {
    /// Where the first byte lies.
    pub at: *const u8,
    /// The number of bytes.
    pub len: usize,
    /// Whether they are lent.
    pub ghost lent: { Bool },
    /// Which part of the right to them was given up.
    pub ghost part: { ℕ },
    /// What they are.
    pub ghost bytes: { List ℕ },
    /// They are as many, and can be counted.
    pub ghost small: { (length bytes ≡ len) × (len < 2 ^ 63) },
}

impl Model for Lent {
    ghost also_owns = { λ l. lent_owns l.lent l.part l.at l.len l.bytes };
}

/// Bytes that were lent, on this side: they can be read for as long as this is held.
#[derive(Drop)]
pub struct Loan {
    /// Where the first byte lies.
    pub at: *const u8,
    /// The number of bytes.
    pub len: usize,
    /// Which part of the right to them is had.
    pub ghost part: { ℕ },
    /// What they are.
    pub ghost bytes: { List ℕ },
    /// They are as many, and can be counted.
    pub ghost small: { (length bytes ≡ len) × (len < 2 ^ 63) },
}

impl Model for Loan {
    ghost also_owns = { λ l. loan_owns l.part l.at l.len l.bytes };

    ghost also_shares = { λ l _ κ. loan_shares l.at l.len l.bytes κ };
}

impl Loan {
    /// The loan of bytes that are lent.
    pub fn of(lent: Lent) -> Loan
        requires { lent.lent ≡ true }
        ensures { (result.part ≡ lent.part) × (result.at ≡ lent.at) × (result.bytes ≡ lent.bytes) }
    {
        let Lent { at, len } = lent;
        Loan { at, len }
    }

    /// The bytes as they go back to C.
    pub fn back(self) -> Lent
        ensures { (result.lent ≡ true) × (result.part ≡ self.part) × (result.at ≡ self.at)
            × (result.bytes ≡ self.bytes) }
    {
        let Loan { at, len } = self;
        Lent { at, len }
    }

    /// The bytes, where they lie.
    pub fn bytes(&self) -> &[u8]
        ensures { result.now ≡ self.now.bytes }
    {
        unsafe { std::slice::from_raw_parts(self.at, self.len) }
    }
}
