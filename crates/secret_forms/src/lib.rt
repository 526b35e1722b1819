//! The forms in which a secret gets into a log.
//!
//! A form of a secret is a list of patterns: wherever the secret stands encoded in a text, alone or within other bytes, each
//! character that holds a bit of it lies in an occurrence of a pattern. Who masks all patterns of a form shows nothing of the secret.
#![tactic(auto)]

mod base64_form;
mod bytewise;
mod error;
mod escape_form;
mod form;
mod hex_form;
mod joined_form;
mod json_form;
mod lines_form;
mod listed;
mod spelled_form;

pub use base64_form::base64_forms;
pub use bytewise::{
    Backslashed, Beyond, Digits, Feeds, Json, Kept, Letters, Literal, Marks, Numbered, Numbers,
    Quotes, Quoting, Space, Spelling,
};
pub use error::FormError;
pub use escape_form::url_forms;
pub use form::{Form, forms, nested_forms};
pub use hex_form::hex_forms;
pub use joined_form::{Joining, Radix, Separator, shell_forms};
pub use json_form::json_forms;
pub use lines_form::lines_forms;
pub use spelled_form::{spelled_forms, xml_forms};
