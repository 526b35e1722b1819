//! The search for a child: among bytes that rise, so that no two are the same.

ghost use Rattle.std.specs.Prelude.{◌≡◌, ◌+◌, ◌<◌, ◌≤◌, length};
ghost use Rattle.aho_core.specs.Numbers.{greatest_index};
ghost use Rattle.aho_levels.specs.Layout.{AreRising, StandsAmong, position_of};

use aho_core::search::StateID;

/// So many bytes are looked through one by one.
const FEW: usize = 4;

/// The child to which the byte leads, of children that stand from this place on and to which these bytes lead.
#[inline(always)]
pub fn child_of(bytes: &[u8], byte: u8, at: usize) -> Option<StateID>
    requires rising { AreRising bytes.now }
    requires room { at + length bytes.now ≤ greatest_index }
    ensures child { result ≡ position_of bytes.now byte at }
{
    let (low, high) = narrowed(bytes, byte);
    for index in low..high {
        if bytes[index] == byte {
            return Some(StateID::new_unchecked(at + index));
        }
    }
    None
}

/// From which place on to before which one the byte stands, if it does: a few places.
#[inline(always)]
fn narrowed(bytes: &[u8], byte: u8) -> (usize, usize)
    requires rising { AreRising bytes.now }
    ensures among { StandsAmong bytes.now byte result.0 result.1 }
{
    let count = bytes.len();
    if count <= FEW {
        return (0, count);
    }
    let (low, high) = between(bytes, byte, count);
    halved(bytes, byte, low, high)
}

/// By the first byte and the last one. As no two are the same, each lies at least as far from these as its place does.
#[inline(always)]
fn between(bytes: &[u8], byte: u8, count: usize) -> (usize, usize)
    requires rising { AreRising bytes.now }
    requires some { 0 < count }
    requires all { count ≡ length bytes.now }
    ensures among { StandsAmong bytes.now byte result.0 result.1 }
{
    let byte = byte as usize;
    let first = bytes[0] as usize;
    let last = bytes[count - 1] as usize;
    if byte < first || last < byte {
        return (0, 0);
    }
    let low = if last - byte < count - 1 {
        count - 1 - (last - byte)
    } else {
        0
    };
    let high = if byte - first < count {
        byte - first + 1
    } else {
        count
    };
    (low, high)
}

/// Half of them, again and again, down to a few.
#[inline(always)]
fn halved(bytes: &[u8], byte: u8, from: usize, to: usize) -> (usize, usize)
    requires rising { AreRising bytes.now }
    requires among { StandsAmong bytes.now byte from to }
    ensures among { StandsAmong bytes.now byte result.0 result.1 }
{
    let mut low = from;
    let mut high = to;
    while high - low > FEW {
        let middle = low + (high - low) / 2;
        if bytes[middle] <= byte {
            low = middle;
        } else {
            high = middle;
        }
    }
    (low, high)
}
