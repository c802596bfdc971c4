//! What a translation rejects.

use thiserror::Error;

/// Why a translation was rejected.
#[derive(Clone, Copy, Debug, PartialEq, Eq, Error)]
pub enum XlateError {
    /// There is no memory for the call.
    #[error("out of memory")]
    Memory,
    /// The size of the item does not divide the number of bytes.
    #[error("ragged")]
    Ragged,
    /// A value does not fit its field in the image's class.
    #[error("unfit index {index}")]
    Unfit {
        /// The index of the first item that does not fit.
        index: u64,
    },
}
