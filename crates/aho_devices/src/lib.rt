//! What gives the bytes of a stream and what takes them, with their failures counted, and the buffer between them.
#![tactic(auto)]

pub mod adapters;
pub mod buffer;
pub mod calls;
pub mod device;
pub mod impls;
pub mod write;
