//! The forms in which a secret gets into a log, as patterns: what the crate `secret_forms` has for callers.

pub use secret_forms::{
    Backslashed, Beyond, Digits, Feeds, Form, FormError, Joining, Json, Kept, Letters, Literal,
    Marks, Numbered, Numbers, Quotes, Quoting, Radix, Separator, Space, Spelling, base64_forms,
    forms, hex_forms, json_forms, lines_forms, nested_forms, shell_forms, spelled_forms, url_forms,
    xml_forms,
};
