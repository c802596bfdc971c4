//! What C holds of an object: a handle, one pointer, which owns an object that is open over bytes
//! that C lends.

mod handle;
mod loose;
mod opened;
mod opening;

pub use handle::Handle;
pub use loose::Loose;
pub use opened::OpenObject;
pub use opening::{close_object, open_object};
