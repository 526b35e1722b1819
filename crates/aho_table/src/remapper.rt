//! Renumbering of states: two by two they change places, and at last each number that stands in one is exchanged for the
//! number that the state has now.

ghost use Rattle.std.specs.Prelude.{◌≡◌, ◌+◌, ◌≤◌, ◌<◌, ℕ, List, length, map, slice_index, slice_set, IfOk};
ghost use Rattle.aho_core.specs.Numbers.{greatest_index};
ghost use Rattle.std.specs.List.{AllZip, range_with_len, swap};
ghost use Rattle.aho_table.specs.Remapping.{transposed, place_of_state};

use aho_core::search::StateID;
use std::alloc::{AllocError, Global};
use std::marker::Model;

/// What numbers its states from 0 on, and names them by these numbers.
pub trait Remappable {
    /// What is known of a state, with the numbers that stand in it.
    ghost State: { Type 0 };

    /// The states, by their numbers.
    ghost states: { Self → List State };

    /// One state is another one with each number that stands in it exchanged for one to which it is led.
    ghost is_renamed: { (ℕ → ℕ → Type 0) → State → State → Type 0 };

    /// Where numbers are led to fewer others, a state is renamed to fewer others.
    ghost renames_by: { (f g : ℕ → ℕ → Type 0) → ((a b : ℕ) → f a b → g a b) →
        (x y : State) → is_renamed f x y → is_renamed g x y };

    /// What else is known of a state: it moves with the state, and no renumbering changes it.
    ghost Mark: { Type 0 };

    /// It of each state, by their numbers.
    ghost marks: { Self → List Mark };

    /// What no renumbering changes.
    ghost Kept: { Type 0 };

    /// What there is of it.
    ghost kept: { Self → Kept };

    /// How many states there are.
    fn state_len(&self) -> usize
        ensures len { result ≡ length (states self.now) }
        ensures bound { result ≤ greatest_index + 1 };

    /// Two states change places, and no number that stands in a state changes.
    fn swap_states(&mut self, a: StateID, b: StateID)
        requires a { a < length (states self.old) }
        requires b { b < length (states self.old) }
        ensures swapped { states self.new ≡ swap (states self.old) a b }
        ensures marks { marks self.new ≡ swap (marks self.old) a b }
        ensures kept { kept self.new ≡ kept self.old };

    /// Each number that stands in a state is exchanged for the one that the closure answers for it, which is one and the
    /// same for each.
    fn remap<F: Fn(StateID) -> StateID>(&mut self, map: F)
        requires callable { F.IsAlwaysCallable map }
        requires one { (n a b : ℕ) → F.post map n a → F.post map n b → a ≡ b }
        ensures renamed { AllZip (is_renamed (F.post map)) (states self.old) (states self.new) }
        ensures marks { marks self.new ≡ marks self.old }
        ensures kept { kept self.new ≡ kept self.old };
}

/// The places to which states have moved.
///
/// It is seen as the list of these places, by the numbers that the states had at first.
#[derive(Drop)]
pub struct Remapper {
    places: Vec<StateID>,
    /// The numbers at first, by the places.
    origins: Vec<StateID>,
}

impl Model for Remapper {
    ghost use Rattle.std.specs.Prelude.{ℕ, List};
    ghost use Rattle.aho_table.specs.Remapping.{AreInverse};

    ghost Value = { List ℕ };

    ghost view = { λ r. r.places.items };

    ghost invariant = { λ r. AreInverse r.places.items r.origins.items };
}

impl Remapper {
    /// Each state is where it was. All memory that a renumbering wants is taken here.
    ///
    /// # Errors
    ///
    /// Out of memory.
    pub fn new<R: Remappable>(alloc: Global, r: &R) -> Result<Remapper, AllocError>
        ensures stay { IfOk result (λ places. places ≡ range_with_len 0 (length (R.states r.now))) }
    {
        let len = r.state_len();
        Ok(Remapper {
            places: numbers(alloc, len)?,
            origins: numbers(alloc, len)?,
        })
    }

    /// Two states change places.
    pub fn swap<R: Remappable>(&mut self, r: &mut R, a: StateID, b: StateID)
        requires a { a < length self.old }
        requires b { b < length self.old }
        requires as_many { length (R.states r.old) ≡ length self.old }
        ensures swapped { R.states r.new ≡ swap (R.states r.old) a b }
        ensures marks { R.marks r.new ≡ swap (R.marks r.old) a b }
        ensures kept { R.kept r.new ≡ R.kept r.old }
        ensures moved { self.new ≡ map (transposed a b) self.old }
    {
        r.swap_states(a, b);
        let first = number_at(&self.origins, a);
        let second = number_at(&self.origins, b);
        put(&mut self.origins, a, second);
        put(&mut self.origins, b, first);
        put(&mut self.places, first, b);
        put(&mut self.places, second, a);
    }

    /// Each number that stands in a state is exchanged for the place of the state that it named at first. A number of no
    /// state stays.
    pub fn remap<R: Remappable>(self, r: &mut R)
        ensures renamed { AllZip (R.is_renamed (λ named now. now ≡ place_of_state self named))
            (R.states r.old) (R.states r.new) }
        ensures marks { R.marks r.new ≡ R.marks r.old }
        ensures kept { R.kept r.new ≡ R.kept r.old }
    {
        let places = self.places.as_slice();
        r.remap(
            |sid: StateID|
                ensures place { result ≡ place_of_state places.entry.now sid }
            {
                match places.get(sid.as_usize()) {
                    Some(place) => *place,
                    None => sid,
                }
            },
        );
    }
}

/// The number that stands at a place.
fn number_at(numbers: &[StateID], place: StateID) -> StateID
    requires within { place < length numbers.now }
    ensures number { result ≡ slice_index numbers.now place }
{
    numbers[place.as_usize()]
}

/// Puts a number at a place.
fn put(numbers: &mut Vec<StateID>, place: StateID, number: StateID)
    requires within { place < length numbers.old.items }
    ensures put { numbers.new.items ≡ slice_set numbers.old.items place number }
{
    numbers[place.as_usize()] = number;
}

/// The numbers below this one, in order.
fn numbers(alloc: Global, len: usize) -> Result<Vec<StateID>, AllocError>
    requires small { len ≤ greatest_index + 1 }
    ensures numbers { IfOk result (λ numbers. numbers.items ≡ range_with_len 0 len) }
{
    let mut numbers = Vec::with_capacity(alloc, len)?;
    for number in 0..len {
        numbers.push(StateID::new_unchecked(number))?;
    }
    Ok(numbers)
}
