//! Pseudonyms: for each run of a cover a piece that only equal runs have, but for chance.

ghost use Rattle.std.specs.Prelude.{◌≡◌, ◌++◌, ℕ, List, true};
ghost use Rattle.acredact.specs.Pseudonyms.{WasFed, as_compared, hex_digit, piece_of_digest, pseudonym_by, pseudonym_rule};
ghost use Rattle.sha2.specs.Hashers.{Holds256};
ghost use Rattle.sha2.specs.Sha256.{sha256};

use crate::clean::folded;
use crate::hmac::{Masks, masks_of};
use chromesquid::PatternID;
use chromesquid::any::Pieces;
use sha2::{Digest, Sha256};

/// How many bytes a piece has.
const PIECE: usize = 23;

/// The pieces of a cover by a key: `[redacted:`, the first 12 hexadecimal digits of the HMAC-SHA-256 of the run's bytes, and `]`.
///
/// Equal runs have equal pieces. Different ones have equal pieces as seldom as 48 bits of a digest are equal by chance.
#[derive(Drop)]
pub struct Pseudonyms {
    masks: Masks,
    ignore_case: bool,
    /// What was fed of a run, behind the inner block.
    hasher: Sha256,
    /// The piece that was made.
    text: [u8; PIECE],
}

impl Pseudonyms {
    /// Pseudonyms by a key. Where case is ignored, runs that differ only in the case of ASCII letters have the same piece.
    pub fn new(key: &[u8], ignore_case: bool) -> Pseudonyms
        ensures rule { ⟦<Pseudonyms as Pieces>⟧.rule result ≡ pseudonym_rule ignore_case key.now }
    {
        Pseudonyms {
            masks: masks_of(key),
            ignore_case,
            hasher: Sha256::new(),
            text: [0; PIECE],
        }
    }
}

/// Adds bytes to a message, with lower-case ASCII letters in the place of the upper-case ones.
fn add_folded(hasher: &mut Sha256, bytes: &[u8])
    ensures added { (message : List ℕ) → Holds256 hasher.old message
        → Holds256 hasher.new (message ++ as_compared true bytes.now) }
{
    for byte in bytes {
        hasher.update(&[folded(*byte, true)]);
    }
}

/// The digit of the last four bits of a byte.
fn hex_digit(byte: u8) -> u8
    ensures digit { result ≡ hex_digit byte }
{
    let value = byte % 16;
    if value < 10 {
        b'0' + value
    } else {
        b'a' + (value - 10)
    }
}

/// The piece of a digest.
fn piece_of_digest(digest: &[u8; 32]) -> [u8; PIECE]
    ensures piece { result ≡ piece_of_digest digest.now }
{
    [
        b'[',
        b'r',
        b'e',
        b'd',
        b'a',
        b'c',
        b't',
        b'e',
        b'd',
        b':',
        hex_digit(digest[0] / 16),
        hex_digit(digest[0]),
        hex_digit(digest[1] / 16),
        hex_digit(digest[1]),
        hex_digit(digest[2] / 16),
        hex_digit(digest[2]),
        hex_digit(digest[3] / 16),
        hex_digit(digest[3]),
        hex_digit(digest[4] / 16),
        hex_digit(digest[4]),
        hex_digit(digest[5] / 16),
        hex_digit(digest[5]),
        b']',
    ]
}

/// The digest of the outer block and of the inner digest behind it.
fn outer_digest(outer: &[u8; 64], inner: &[u8; 32]) -> [u8; 32]
    ensures digest { result ≡ sha256 (outer.now ++ inner.now) }
{
    let mut hasher = Sha256::new();
    hasher.update(outer);
    hasher.update(inner);
    hasher.finalize()
}

impl Pieces for Pseudonyms {
    ghost rule = { λ s. pseudonym_by s.ignore_case s.masks.inner s.masks.outer };

    ghost holds = { λ s fed. WasFed s fed };

    ghost made = { λ s number. s.text };

    fn begin(&mut self) {
        self.hasher.reset();
        self.hasher.update(&self.masks.inner);
    }

    fn feed(&mut self, bytes: &[u8]) {
        if self.ignore_case {
            add_folded(&mut self.hasher, bytes);
        } else {
            self.hasher.update(bytes);
        }
    }

    fn end(&mut self, _pattern: PatternID) {
        let inner = self.hasher.finalize_reset();
        self.text = piece_of_digest(&outer_digest(&self.masks.outer, &inner));
    }

    fn piece(&self, _pattern: PatternID) -> &[u8] {
        &self.text
    }
}
