//! What the parts of readelf share: the columns of their rows, the sections that rows name, and the
//! message in place of data that cannot be shown. What is said of the data of the sections of some
//! types is a `SectionPart`, and `each_plain` goes over them.
#![tactic(auto)]

pub mod data;
pub mod fields;
pub mod fronts;
pub mod links;
pub mod written;

pub use data::{SectionPart, each_plain, is_of_type, put_data_title};
pub use fields::{
    put_counted_line, put_decimal_column, put_decimal_field, put_field, put_hex_column,
    put_hex_field, put_name_column, put_name_field, put_name_or_hex, put_row_start,
};
pub use links::{ItemTable, SectionLinks, links_of};
pub use written::WrittenRows;
