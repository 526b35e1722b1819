//! The states of a `Hybrid`. Those near the start have rows: an entry for each class of bytes, so that a step is one look,
//! and one more for the state's list. Deeper ones have records: a link, and a transition for each byte that they take.

ghost use Rattle.std.specs.Prelude.{◌≡◌, ◌+◌, ◌*◌, ◌/◌, ◌<◌, ◌≤◌, ◌^◌, length, nat_lt, slice_get, take, drop, Some, IfOk};
ghost use Rattle.aho_core.specs.Numbers.{greatest_index};
ghost use Rattle.aho_hybrid.specs.Layout.{AreRisingMoves, HasRow, IsAmong, IsDeep, IsSoundLayout, IsStateIn, child_in, child_of, depth_below_rows, depth_of_state, link_in, next_state_in, list_in, list_place, looks_in, is_marked_number, is_special_number, entry_in, record_size, record_word};

use aho_core::search::{PatternID, SmallIndex, StateID, Work};
use aho_table::alphabet::ByteClasses;
use std::alloc::AllocError;
use std::marker::Model;

/// The states. One with a row is numbered by the place where its row begins, and a deeper one by the place of its record,
/// counted on from the end of the rows.
#[derive(Drop)]
pub struct Rows {
    pub(crate) classes: ByteClasses,
    pub(crate) entries: Vec<SmallIndex>,
    /// For each deep state five words: its link, the place of its list, how deep it is below the rows, and the place and the
    /// number of the words of its transitions.
    pub(crate) deep: Vec<SmallIndex>,
    /// For each transition of a deep state its byte, and the state that it leads to.
    pub(crate) moves: Vec<SmallIndex>,
    /// For each list its length, and then its patterns.
    pub(crate) lists: Vec<SmallIndex>,
    /// How deep each state with a row is, in the order of the rows.
    pub(crate) depths: Vec<SmallIndex>,
    /// The states down to this depth have rows.
    pub(crate) row_depth: usize,
    pub(crate) start: StateID,
    /// The states with rows are special below this number.
    pub(crate) low: usize,
    /// A state with a row is below this number if it is dead or lists a pattern.
    pub(crate) list_low: usize,
    /// The deep states are special below this number, and only those list a pattern.
    pub(crate) deep_low: usize,
}

impl Model for Rows {
    ghost use Rattle.aho_hybrid.specs.Layout.{Layout};

    ghost Value = { Layout };

    ghost view = { λ r. record {
      rows = r.entries.items;
      deep = r.deep.items;
      moves = r.moves.items;
      lists = r.lists.items;
      depths = r.depths.items;
      row_depth = r.row_depth;
      classes = r.classes;
      start = r.start;
      low = r.low;
      list_low = r.list_low;
      deep_low = r.deep_low;
    } };
}

impl Rows {
    /// The same states once more.
    ///
    /// # Errors
    ///
    /// Out of memory.
    pub fn try_clone(&self) -> Result<Rows, AllocError>
        ensures same { IfOk result (λ rows. rows ≡ self.now) }
    {
        Ok(Rows {
            classes: self.classes.copy(),
            entries: self.entries.clone()?,
            deep: self.deep.clone()?,
            moves: self.moves.clone()?,
            lists: self.lists.clone()?,
            depths: self.depths.clone()?,
            row_depth: self.row_depth,
            start: self.start,
            low: self.low,
            list_low: self.list_low,
            deep_low: self.deep_low,
        })
    }

    /// Where an unanchored search starts.
    pub fn start(&self) -> StateID
        ensures start { result ≡ self.now.start }
    {
        self.start
    }

    /// Where the byte leads, with the look-ups added to the work: one where the state has a row.
    #[inline(always)]
    pub fn step(&self, sid: StateID, byte: u8, work: &mut Work) -> StateID
        requires sound { IsSoundLayout self.now }
        requires state { IsStateIn self.now sid }
        requires room { work.old + depth_below_rows self.now sid + 2 < 2 ^ 128 }
        ensures next { result ≡ next_state_in self.now sid byte }
        ensures counted { work.new ≡ work.old + looks_in self.now sid byte }
    {
        if sid.as_usize() < self.entries.len() {
            work.tick();
            return self.row_entry(sid, byte);
        }
        let mut looks = Work::new();
        let next = self.deep_step(sid, byte, &mut looks);
        add_looks(work, looks.count());
        next
    }

    /// Where the byte leads from a state with a row.
    #[inline(always)]
    fn row_entry(&self, sid: StateID, byte: u8) -> StateID
        requires sound { IsSoundLayout self.now }
        requires row { HasRow self.now sid }
        ensures entry { result ≡ entry_in self.now sid byte }
    {
        // The byte is known before the state. So the class goes first, and the state is added where the entry is loaded.
        let of_class = &self.entries[self.classes.get(byte) as usize..];
        StateID::new_unchecked(of_class[sid.as_usize()].as_usize())
    }

    /// Where the byte leads from a deep state: down the links until a state takes it.
    #[inline(never)]
    fn deep_step(&self, from: StateID, byte: u8, work: &mut Work) -> StateID
        requires sound { IsSoundLayout self.now }
        requires state { IsStateIn self.now from }
        requires room { work.old + depth_below_rows self.now from + 2 < 2 ^ 128 }
        ensures next { result ≡ next_state_in self.now from byte }
        ensures counted { work.new ≡ work.old + looks_in self.now from byte }
    {
        let mut sid = from;
        'links: loop {
            work.tick();
            if sid.as_usize() < self.entries.len() {
                return self.row_entry(sid, byte);
            }
            if let Some(next) = self.child(sid, byte) {
                return next;
            }
            sid = self.link(sid);
        }
    }

    /// A word of a deep state's record.
    #[inline(always)]
    fn word(&self, sid: StateID, index: usize) -> usize
        requires deep { IsDeep self.now sid }
        requires within { index < record_size }
        ensures word { result ≡ record_word self.now sid index }
        ensures bound { result ≤ greatest_index }
    {
        self.deep[sid.as_usize() - self.entries.len() + index].as_usize()
    }

    /// The link of a deep state.
    #[inline(always)]
    fn link(&self, sid: StateID) -> StateID
        requires deep { IsDeep self.now sid }
        ensures link { result ≡ link_in self.now sid }
    {
        StateID::new_unchecked(self.word(sid, 0))
    }

    /// Where a deep state's own transition for the byte leads, if it has one.
    #[inline(always)]
    fn child(&self, sid: StateID, byte: u8) -> Option<StateID>
        requires sound { IsSoundLayout self.now }
        requires deep { IsDeep self.now sid }
        ensures child { result ≡ child_in self.now sid byte }
    {
        let place = self.word(sid, 3);
        let count = self.word(sid, 4);
        child_of(&self.moves[place..place + count], byte)
    }

    /// Whether a search has to look at the state.
    #[inline(always)]
    pub fn is_special(&self, sid: StateID) -> bool
        ensures special { result ≡ is_special_number self.now sid }
    {
        if sid.as_usize() < self.entries.len() {
            sid.as_usize() < self.low
        } else {
            sid.as_usize() < self.deep_low
        }
    }

    /// Whether the state is dead or may list a pattern. One that is special only since a search may skip from it is not told.
    #[inline(always)]
    pub fn is_marked(&self, sid: StateID) -> bool
        ensures marked { result ≡ is_marked_number self.now sid }
    {
        if sid.as_usize() < self.entries.len() {
            sid.as_usize() < self.list_low
        } else {
            sid.as_usize() < self.deep_low
        }
    }

    /// How deep the state is: the length of its word.
    pub fn depth(&self, sid: StateID) -> usize
        requires sound { IsSoundLayout self.now }
        requires state { IsStateIn self.now sid }
        ensures depth { result ≡ depth_of_state self.now sid }
    {
        if sid.as_usize() < self.entries.len() {
            let stride = self.classes.alphabet_len() + 1;
            return self.depths[sid.as_usize() / stride].as_usize();
        }
        self.row_depth + self.word(sid, 2)
    }

    /// Where the list of a state stands.
    fn list_place(&self, sid: StateID) -> usize
        requires sound { IsSoundLayout self.now }
        requires state { IsStateIn self.now sid }
        ensures place { result ≡ list_place self.now sid }
        ensures bound { result ≤ greatest_index }
    {
        if sid.as_usize() < self.entries.len() {
            self.entries[sid.as_usize() + self.classes.alphabet_len()].as_usize()
        } else {
            self.word(sid, 1)
        }
    }

    /// How many patterns the state lists.
    pub fn list_len(&self, sid: StateID) -> usize
        requires sound { IsSoundLayout self.now }
        requires state { IsStateIn self.now sid }
        ensures len { result ≡ length (list_in self.now sid) }
    {
        if !self.is_marked(sid) {
            return 0;
        }
        self.lists[self.list_place(sid)].as_usize()
    }

    /// A pattern that the state lists, by its place in the list.
    pub fn pattern(&self, sid: StateID, index: usize) -> PatternID
        requires sound { IsSoundLayout self.now }
        requires state { IsStateIn self.now sid }
        requires within { index < length (list_in self.now sid) }
        ensures pattern { slice_get (list_in self.now sid) index ≡ Some result }
    {
        let pattern = self.lists[self.list_place(sid) + 1 + index];
        PatternID::new_unchecked(pattern.as_usize())
    }
}

/// So many look-ups more.
#[inline(always)]
fn add_looks(work: &mut Work, looks: u128)
    requires room { work.old + looks < 2 ^ 128 }
    ensures added { work.new ≡ work.old + looks }
{
    for _ in 0..looks {
        work.tick();
    }
}

/// So many transitions are looked through one by one.
const FEW: usize = 4;

/// Where the transition for the byte leads, of transitions that rise by their bytes: each is a byte, with the state behind it.
#[inline(always)]
fn child_of(moves: &[SmallIndex], byte: u8) -> Option<StateID>
    requires rising { AreRisingMoves moves.now }
    ensures child { result ≡ child_of moves.now byte }
{
    let (low, high) = narrowed(moves, byte);
    for index in low..high {
        if moves[2 * index].as_usize() == byte as usize {
            return Some(StateID::new_unchecked(moves[2 * index + 1].as_usize()));
        }
    }
    None
}

/// From which transition on to before which one that for the byte stands, if there is one: a few.
#[inline(always)]
fn narrowed(moves: &[SmallIndex], byte: u8) -> (usize, usize)
    requires rising { AreRisingMoves moves.now }
    ensures among { IsAmong moves.now byte result.0 result.1 }
{
    let count = moves.len() / 2;
    if count <= FEW {
        return (0, count);
    }
    let (low, high) = between(moves, byte, count);
    halved(moves, byte, low, high)
}

/// By the first byte and the last one. As no two are the same, each lies at least as far from these as its place does.
#[inline(always)]
fn between(moves: &[SmallIndex], byte: u8, count: usize) -> (usize, usize)
    requires rising { AreRisingMoves moves.now }
    requires some { 0 < count }
    requires all { count ≡ length moves.now / 2 }
    ensures among { IsAmong moves.now byte result.0 result.1 }
{
    let byte = byte as usize;
    let first = moves[0].as_usize();
    let last = moves[2 * (count - 1)].as_usize();
    if byte < first || last < byte {
        return (0, 0);
    }
    let low = if last - byte < count - 1 {
        count - 1 - (last - byte)
    } else {
        0
    };
    let high = if byte - first < count {
        byte - first + 1
    } else {
        count
    };
    (low, high)
}

/// Half of them, again and again, down to a few.
#[inline(always)]
fn halved(moves: &[SmallIndex], byte: u8, from: usize, to: usize) -> (usize, usize)
    requires rising { AreRisingMoves moves.now }
    requires among { IsAmong moves.now byte from to }
    ensures among { IsAmong moves.now byte result.0 result.1 }
{
    let mut low = from;
    let mut high = to;
    while high - low > FEW {
        let middle = low + (high - low) / 2;
        if moves[2 * middle].as_usize() <= byte as usize {
            low = middle;
        } else {
            high = middle;
        }
    }
    (low, high)
}
