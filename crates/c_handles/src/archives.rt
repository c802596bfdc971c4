//! What C holds of an archive: a handle, one pointer, which owns an archive that is open over bytes
//! that C lends.

mod handle;
mod opened;
mod opening;

pub use handle::ArchiveHandle;
pub use opened::OpenArchive;
pub use opening::{close_archive, open_archive};
