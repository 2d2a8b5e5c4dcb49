//! JSON: reading the value of a text, reading the fields of an object, and the one spelling of a
//! value. What JSON is, `serde_json` says.
//!
//! A call that can't return `OutOfMemory` takes no memory; one that can returns it where there is no room.
#![tactic(auto)]

mod checks;
pub mod faults;
pub mod fields;
pub mod laws;
mod levels;
pub mod limits;
pub mod members;
pub mod reading;
pub mod values;
pub mod writing;

pub use faults::{FieldFault, JsonFault};
pub use fields::Field;
pub use limits::{GREATEST_COUNT, GREATEST_NUMBER, MOST_LEVELS};
pub use members::{
    array_field, count, count_field, field, given_field, items, num_field, pairs, signed_field,
    str_field, text_field, whole_within,
};
pub use reading::read_line;
pub use values::ValText;
pub use writing::{canonical, compact, quote, whole_text};
