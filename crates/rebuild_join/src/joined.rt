//! The two halves of a program merged: the header, the program headers and the loaded bytes of the
//! stripped half, and the sections of the debug half (eu-unstrip(1)).

mod adding;
mod combining;
mod faults;
mod filling;
mod joining;
mod loaded;
mod matching;

pub use combining::loaded_header;
pub use faults::UnstripFault;
pub use joining::unstrip;
pub use loaded::allocated;
pub use matching::{are_halves, listed_number};
