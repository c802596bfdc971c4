//! The shape of GNU's hash section.

/// The numbers that whoever builds GNU's hash section chooses.
#[derive(Clone, Copy)]
pub struct GnuShape {
    /// The number of buckets.
    pub nbuckets: u32,
    /// The number of bloom words, of four bytes in class 32 and of eight in class 64.
    pub bloom: u32,
    /// How far a hash is shifted for its second bit in the bloom.
    pub shift: u32,
}
