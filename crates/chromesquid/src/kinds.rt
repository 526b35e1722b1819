//! Which automaton searches, and which searches are answered.

ghost use Rattle.std.specs.Prelude.{◌≡◌, IfErr, Err, IsOk, true, false};
ghost use Rattle.chromesquid.specs.Searcher.{allows, kind_for, why_refused};

use aho_core::error::MatchError;
use aho_core::search::Anchored;

/// Which automaton searches. No answer depends on it.
#[derive(Clone, Copy, Debug, PartialEq, Eq)]
pub enum AhoCorasickKind {
    /// The noncontiguous automaton: a trie with failure links. It answers all searches.
    NoncontiguousNFA,
    /// An automaton of rows: near its start a step is one look-up. It searches faster, takes longer to build, and answers
    /// searches that are not anchored.
    Hybrid,
}

/// Which searches are answered.
#[derive(Clone, Copy, Debug, Default, PartialEq, Eq)]
pub enum StartKind {
    /// Searches of anchored inputs, and of those that are not.
    Both,
    /// Searches of inputs that are not anchored.
    #[default]
    Unanchored,
    /// Searches of anchored inputs.
    Anchored,
}

/// Which kind of automaton is made: the one that is asked for, or else that of rows, where all searches that are answered are
/// unanchored. For others it is the noncontiguous one, whatever is asked for.
pub(crate) fn kind_for(start_kind: StartKind, asked: Option<AhoCorasickKind>) -> AhoCorasickKind
    ensures kind { result ≡ kind_for start_kind asked }
{
    match start_kind {
        StartKind::Unanchored => match asked {
            Some(kind) => kind,
            None => AhoCorasickKind::Hybrid,
        },
        StartKind::Both | StartKind::Anchored => AhoCorasickKind::NoncontiguousNFA,
    }
}

/// Whether searches of this anchoring are answered.
pub(crate) fn is_allowed(start_kind: StartKind, anchored: Anchored) -> bool
    ensures allows { result ≡ allows start_kind anchored }
{
    match start_kind {
        StartKind::Both => true,
        StartKind::Unanchored => anchored == Anchored::No,
        StartKind::Anchored => anchored == Anchored::Yes,
    }
}

/// Why searches of this anchoring are refused.
pub(crate) fn why_refused(anchored: Anchored) -> MatchError
    ensures refusal { result ≡ why_refused anchored }
{
    match anchored {
        Anchored::No => MatchError::invalid_input_unanchored(),
        Anchored::Yes => MatchError::invalid_input_anchored(),
    }
}
