//! Where a walk over the chain of a bucket is.

/// A step of a walk.
#[derive(Clone, Copy)]
pub struct WalkStep {
    /// The place of the last word that was read, in bytes from the start of the hash section.
    pub at: u64,
    /// The number of the symbol; 0 where the chain has ended.
    pub symbol: u64,
}

/// Where the chain words of a hash section are.
#[derive(Clone, Copy)]
pub enum Links {
    /// Of a section of type `SHT_HASH`: after the buckets, one for each symbol.
    Sysv {
        /// The number of buckets.
        nbucket: u32,
        /// The number of chain words.
        nchain: u32,
    },
    /// Of GNU's: from a place on, one for each symbol from the first that the section knows.
    Gnu {
        /// The number of that symbol.
        symoffset: u32,
        /// The place, in bytes from the start of the section.
        chains: u64,
    },
}

/// Where a walk begins.
#[derive(Clone, Copy)]
pub struct WalkStart {
    /// The chain words that it goes by.
    pub links: Links,
    /// Its first step, at the bucket.
    pub step: WalkStep,
}

/// The four numbers with which GNU's hash section begins.
#[derive(Clone, Copy)]
pub struct GnuHead {
    /// The number of buckets.
    pub nbuckets: u32,
    /// The first symbol that the section knows.
    pub symoffset: u32,
    /// The number of bloom words.
    pub size: u32,
    /// How far a hash is shifted for its second bit in the bloom.
    pub shift: u32,
}

/// A walk under way.
#[derive(Clone, Copy)]
pub struct Walk {
    /// The least symbol with the name that was met.
    pub best: Option<u64>,
    /// Where it is.
    pub step: WalkStep,
}
