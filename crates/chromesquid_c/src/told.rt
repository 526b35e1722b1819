//! What is known of a searcher, and of this library.

ghost use Rattle.std.specs.Prelude.{◌≡◌, ◌≢◌};
ghost use Rattle.chromesquid_c.specs.Holding.{HoldsSame, IfHeld, IsEmpty};
ghost use Rattle.chromesquid_c.specs.Told.{facts_of};

use crate::handle::CsSearcher;
use crate::options::CsFacts;
use crate::status::{DONE, NO_SEARCHER};
use chromesquid::AhoCorasick;

/// The version of this library: 10000 for each major version, 100 for each minor one, and the number of the patch.
pub const VERSION: u32 = 100;

/// The version of this library, as a number: 102 is 0.1.2.
#[unsafe(no_mangle)]
pub extern "C" fn cs_version() -> u32
    ensures version { result ≡ VERSION }
{
    VERSION
}

/// What is known of a searcher.
fn facts_of(searcher: &AhoCorasick) -> CsFacts
    ensures told { result ≡ facts_of searcher.now }
{
    CsFacts {
        patterns: searcher.patterns_len(),
        min_len: searcher.min_pattern_len(),
        max_len: searcher.max_pattern_len(),
        memory: searcher.memory_usage(),
    }
}

/// Puts what is known of the searcher into `out`, and answers 0.
///
/// # Errors
///
/// 2 where there is no searcher. `out` is then as it was.
#[unsafe(no_mangle)]
pub extern "C" fn cs_info(searcher: &mut CsSearcher, out: &mut CsFacts) -> u32
    ensures told { IfHeld searcher.old (λ s. out.new ≡ facts_of s) }
    ensures done { IfHeld searcher.old (λ _. result ≡ DONE) }
    ensures empty { IsEmpty searcher.old → result ≡ NO_SEARCHER }
    ensures kept { result ≢ DONE → out.new ≡ out.old }
    ensures same { HoldsSame searcher.old searcher.new }
{
    if searcher.full {
        *out = facts_of(&searcher.held.get().searcher);
        DONE
    } else {
        NO_SEARCHER
    }
}
