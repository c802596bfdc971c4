//! Theorems on what strip, copy, rehash and unstrip make: they are objects; an update rejects what
//! strip and unstrip make for its places alone; and what strip writes keeps each byte that is
//! loaded. Their statements are in `specs/` here and in rebuild_model, the lemmas that prove them
//! in `proofs/`.

pub mod laws;
#[cfg(test)]
mod tests;
