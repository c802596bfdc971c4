//! Translation between the two byte orders, in C's own buffer: the form of the items, the class and
//! the orders come as the numbers that C has for them.

mod numbers;
mod translation;

pub use numbers::{class_from, kind_from, order_from};
pub use translation::translate;
