//! Bytes that C lends and gets back, and the source over them: a descriptor reads them where they
//! are, and nothing is copied when it begins. What is written to the source is kept beside them.

mod image;
mod loan;
mod writes;

pub use image::LentImage;
pub use loan::{Lent, Loan};
pub use writes::KeptWrite;
