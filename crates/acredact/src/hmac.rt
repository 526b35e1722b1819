//! HMAC-SHA-256 (RFC 2104): the digest of a message by a key.

ghost use Rattle.std.specs.Prelude.{◌≡◌, slice_index_or};
ghost use Rattle.acredact.specs.Hmac.{mask_of, short_key};

use sha2::{Digest, Sha256};

/// How many bytes the digest takes in at once, and a key is made to have.
pub(crate) const BLOCK: usize = 64;

/// What the bytes of the key are mixed with for the inner digest, and for the outer one.
pub(crate) const INNER: u8 = 0x36;

pub(crate) const OUTER: u8 = 0x5c;

/// The two blocks that a key makes.
#[derive(Clone, Copy)]
pub(crate) struct Masks {
    /// What stands before the message.
    pub(crate) inner: [u8; BLOCK],
    /// What stands before the inner digest.
    pub(crate) outer: [u8; BLOCK],
}

/// The byte of a key at a place: zero behind its end.
fn byte_at(key: &[u8], at: usize) -> u8
    ensures byte { result ≡ slice_index_or key.now at 0 }
{
    match key.get(at) {
        Some(byte) => *byte,
        None => 0,
    }
}

/// The block that a key of at most 64 bytes makes: its bytes, and zeros behind them, mixed with a byte.
fn mask_of(key: &[u8], with: u8) -> [u8; BLOCK]
    ensures mask { result ≡ mask_of with key.now }
{
    let mut mask = [0u8; BLOCK];
    'bytes: for at in 0..BLOCK {
        mask[at] = byte_at(key, at) ^ with;
    }
    mask
}

/// Both blocks of a key of at most 64 bytes.
fn masks_of_short(key: &[u8]) -> Masks
    ensures inner { result.inner ≡ mask_of 54 key.now }
    ensures outer { result.outer ≡ mask_of 92 key.now }
{
    Masks {
        inner: mask_of(key, INNER),
        outer: mask_of(key, OUTER),
    }
}

/// Both blocks of a key. One of more bytes than a block is taken by its digest.
pub(crate) fn masks_of(key: &[u8]) -> Masks
    ensures inner { result.inner ≡ mask_of 54 (short_key key.now) }
    ensures outer { result.outer ≡ mask_of 92 (short_key key.now) }
{
    if key.len() > BLOCK {
        return masks_of_short(&Sha256::digest(key));
    }
    masks_of_short(key)
}
