//! Theorems on what the commands that write make and give. Their statements are in `specs/`, the
//! lemmas that prove them in `proofs/`.

pub mod laws;
#[cfg(test)]
mod tests;
