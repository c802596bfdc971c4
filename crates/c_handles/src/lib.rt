//! What C holds of an object, an archive, the writes of an update or the layout of an image: a
//! handle, one pointer that owns it.
//!
//! - `lent`: bytes that C lends and gets back, and the source over them: they are read where they
//!   are, and nothing is copied.
//! - `objects`: the handle of an object that is open over lent bytes.
//! - `archives`: the handle of an archive that is open over lent bytes.
//! - `writes`: the handle of the writes of an update.
//! - `layout`: the handle of the layout of an image.
#![tactic(auto)]

pub mod archives;
pub mod layout;
pub mod lent;
pub mod objects;
pub mod writes;
