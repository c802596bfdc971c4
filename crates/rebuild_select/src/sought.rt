//! Names to look for, and sections by those of their names. A search for a name, or for the first
//! section with it, takes as many steps as the number of names, or of sections, has digits.

mod names;
mod sections;

pub use names::NameSet;
pub use sections::NameIndex;
