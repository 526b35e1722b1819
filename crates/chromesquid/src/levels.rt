//! The automaton of many patterns, which is made of these alone.

ghost use Rattle.std.specs.List.{All};
ghost use Rattle.std.specs.Prelude.{◌≡◌, ◌≤◌, IfSome, None, false, length, sum_by, true};
ghost use Rattle.aho_core.specs.Patterns.{Patterns};
ghost use Rattle.aho_backward.specs.Overhang.{IsAbove};
ghost use Rattle.aho_backward.specs.declared.overhang.TheConstants.{WORTH};
ghost use Rattle.aho_core.specs.Numbers.{greatest_index};
ghost use Rattle.aho_core.specs.Replacement.{pieces_of};
ghost use Rattle.aho_build.specs.Items.{patterns_of};
ghost use Rattle.chromesquid.specs.Building.{Accepts};
ghost use Rattle.chromesquid.specs.Backward.{HoldsIfWorth};
ghost use Rattle.chromesquid.specs.Engine.{kind_in};
ghost use Rattle.chromesquid.specs.Fitting.{FitCounts};
ghost use Rattle.chromesquid.specs.declared.kinds.AhoCorasickKind.TheVariants.{Hybrid as OfRows};

use crate::engine::Engine;
use crate::prefilters::prefilter_of;
use aho_automaton::automaton::Automaton;
use aho_backward::overhang::is_worth_it;
use aho_build::settings::Settings;
use aho_core::search::SmallIndex;
use aho_levels::levels::Levels;
use std::alloc::Global;

/// From so many patterns on the automaton of rows is made of the patterns in order, without an `NFA`. It is measured: with fewer, rows that are
/// made of an `NFA` search real words faster.
pub(crate) const FROM_LEVELS: usize = 20_000;

/// The automaton of these patterns that is made without an `NFA`. There is none where the limits might refuse something, where a walk
/// backward is asked for and worth it, or where memory is refused: an `NFA` is made then, and tells why it fails if it does.
pub(crate) fn levels_of(
    alloc: Global,
    settings: &Settings,
    patterns: &[&[u8]],
    finds_all: bool,
) -> Option<Engine>
    ensures of { IfSome result (λ engine.
        ⟦<Engine as Automaton>⟧.is_of engine (patterns_of settings.now patterns.now)) }
    ensures kind { IfSome result (λ engine. kind_in engine ≡ OfRows) }
    ensures backward { finds_all ≡ true → IfSome result (λ _.
        HoldsIfWorth (patterns_of settings.now patterns.now) None) }
    ensures accepted { IfSome result (λ _. Accepts settings.now patterns.now) }
{
    let longest = settings.limits.length.min(SmallIndex::MAX.as_usize());
    let total = total_within(patterns, longest)?;
    let Ok(prefilter) = prefilter_of(alloc, settings, patterns, false) else {
        return None;
    };
    let Ok(levels) = Levels::new(
        alloc,
        settings.kind,
        settings.ignore_case,
        patterns,
        prefilter,
    ) else {
        return None;
    };
    if finds_all_backward(&levels, patterns, finds_all) {
        return None;
    }
    if !fit(settings, patterns.len(), total, levels.most_listed()) {
        return None;
    }
    Some(Engine::Levels(levels))
}

/// Whether all finds are asked for, and a walk backward is worth it for them.
fn finds_all_backward(levels: &Levels, patterns: &[&[u8]], finds_all: bool) -> bool
    requires of { (p : Patterns) × ⟦<Levels as Automaton>⟧.is_of levels.now p }
    ensures not { finds_all ≡ true → result ≡ false → (p : Patterns) → ⟦<Levels as Automaton>⟧.is_of levels.now p
        → p.words ≡ pieces_of patterns.now → IsAbove WORTH p false }
{
    if finds_all {
        return is_worth_it(levels, patterns);
    }
    false
}

/// How many bytes the patterns have together, if none has more than so many and all together no more than the greatest index.
fn total_within(patterns: &[&[u8]], most: usize) -> Option<usize>
    ensures total { IfSome result (λ total. total ≡ sum_by length (pieces_of patterns.now)) }
    ensures each { IfSome result (λ _. All (λ word. length word ≤ most) (pieces_of patterns.now)) }
    ensures bound { IfSome result (λ total. total ≤ greatest_index) }
{
    let mut total = 0;
    for pattern in patterns {
        if pattern.len() > most {
            return None;
        }
        if pattern.len() > SmallIndex::MAX.as_usize() - total {
            return None;
        }
        total += pattern.len();
    }
    Some(total)
}

/// Whether the limits refuse nothing of so many patterns, which have so many bytes together, and of which no state lists more than this.
fn fit(settings: &Settings, count: usize, total: usize, most: usize) -> bool
    requires total { total ≤ greatest_index }
    ensures fit { result ≡ true → FitCounts settings.now count total most }
{
    let greatest = SmallIndex::MAX.as_usize();
    let id = settings.limits.id.min(greatest);
    let rows = settings.dense_depth.saturating_mul(count).min(total);
    count <= settings.limits.pattern.min(greatest)
        && most <= greatest
        && 768 + 2 * total <= id
        && (rows + 2) * 256 <= id
        && count + (total + 2) * most <= id
}
