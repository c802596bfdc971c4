//! What C holds of the layout of an image: a handle, one pointer, which owns it.

mod handle;
mod planned;

pub use handle::LayoutHandle;
pub use planned::PlannedLayout;
