//! What C holds of the writes of an update: a handle, one pointer, which owns them.

mod handle;
mod planned;

pub use handle::WritesHandle;
pub use planned::PlannedWrites;
