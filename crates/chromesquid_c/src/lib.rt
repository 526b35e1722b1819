//! The searcher of `chromesquid` for C: the functions of `include/chromesquid.h`, over a handle that C holds.
#![tactic(auto)]

pub mod build;
pub mod cover;
pub mod error;
pub mod forms;
mod handle;
mod held;
mod held_stream;
mod inner;
pub mod list;
mod loose;
pub mod options;
mod pushed;
pub mod replace;
pub mod search;
pub mod state;
pub mod status;
pub mod stream;
mod stream_handle;
pub mod told;

pub use handle::CsSearcher;
pub use options::{CsError, CsFacts, CsMatch, CsOptions, CsState};
pub use stream_handle::CsStream;
