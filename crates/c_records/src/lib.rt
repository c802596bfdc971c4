//! The records of gelf(3E) as C lays them out, the numbers of the library's errors, and how a
//! result becomes both.
#![tactic(auto)]

mod codes;
mod headers;
mod items;
mod versions;

pub use codes::code_of;
pub use headers::{EhdrRecord, ExtentRecord, PhdrRecord, ShdrRecord, kind_number};
pub use items::{DynRecord, RelRecord, RelaRecord, SymRecord};
pub use versions::{NoteRecord, VerdauxRecord, VerdefRecord, VernauxRecord, VerneedRecord};
