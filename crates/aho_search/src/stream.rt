//! Streams: what gives their bytes and what takes them, and search and replacement in them.

pub use aho_devices::adapters::{FromRead, FromWrite};
pub use aho_devices::device::{Sink, Source};
pub use aho_devices::write::write_whole;
pub use aho_stream::chunks::{StreamChunk, StreamChunkIter};
pub use aho_stream::finds::{StreamFindIter, try_stream_find_iter};
pub use aho_stream::progress::StreamPiece;
pub use aho_stream::replace::{
    try_stream_replace_all, try_stream_replace_all_with, try_stream_replace_all_with_mut,
};
