//! What the programs have in common that read options: long names and their beginnings, what an argument is, and what is told of
//! options that are misused.

pub mod argument;
pub mod found;
pub mod misuse;
