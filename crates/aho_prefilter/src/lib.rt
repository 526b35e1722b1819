//! Prefilters: quick searches for a place where a match may start.
#![tactic(auto)]

mod density;
mod heads;
pub mod impls;
pub mod laws;
pub mod packed;
mod packed_heads;
pub mod prefilter;
mod strided;
pub mod text;
mod windows;
