//! Renumbering.

ghost use Rattle.std.specs.Prelude.{◌≡◌, ◌<◌, ℕ, [], length, ⊤};

use crate::answers::Answers;
use crate::wants::{Want, Wrong};
use aho_core::search::StateID;
use aho_table::remapper::{Remappable, Remapper};
use std::alloc::Global;
use std::io::Read;

/// Three states of which each names another.
#[derive(Drop)]
struct Chain {
    names: [StateID; 3],
}

impl Chain {
    /// Tells which state each names.
    fn tell(&self, answers: &mut Answers) {
        for name in &self.names {
            answers.tell(name.as_usize());
        }
    }
}

impl Remappable for Chain {
    ghost State = { ℕ };

    ghost states = { λ chain. chain.names };

    ghost is_renamed = { λ leads old new. leads old new };

    ghost renames_by = { λ f g fewer x y renamed. fewer x y renamed };

    ghost Mark = { ⊤ };

    ghost marks = { λ chain. [] };

    ghost Kept = { ⊤ };

    ghost kept = { λ chain. tt };

    fn state_len(&self) -> usize {
        3
    }

    fn swap_states(&mut self, a: StateID, b: StateID) {
        self.names.swap(a.as_usize(), b.as_usize());
    }

    fn remap<F: Fn(StateID) -> StateID>(&mut self, map: F) {
        let [first, second, third] = self.names;
        let names = [map(first), map(second), map(third)];
        self.names = names;
    }
}

/// `Remapper::new`, by which two states of a chain then change places.
pub fn remapper(alloc: Global, want: &mut Want) -> Result<(), Wrong> {
    let (first, second, third) = (number(0), number(1), number(2));
    let mut chain = Chain {
        names: [second, third, first],
    };
    let remapper = match Remapper::new(alloc, &chain) {
        Ok(remapper) => remapper,
        Err(_) => {
            want.meet()?;
            match Remapper::new(alloc, &chain) {
                Ok(remapper) => remapper,
                Err(_) => return Err("a second remapper was refused"),
            }
        }
    };
    exchange(remapper, &mut chain, first, third);
    if chain.names == [third, first, second] {
        Ok(())
    } else {
        Err("a chain is renumbered wrong")
    }
}

/// `swap` and `remap` of two remappers, the second of them where every allocation is refused.
pub fn renumbers<R: Read>(alloc: Global, input: &mut R) -> Result<(), Wrong> {
    let (first, second, third) = (number(0), number(1), number(2));
    let names = [second, third, first];
    let (mut one, mut other) = (Chain { names }, Chain { names });
    let (Ok(to_one), Ok(to_other)) = (Remapper::new(alloc, &one), Remapper::new(alloc, &other))
    else {
        return Err("a remapper was refused");
    };
    let mut answers = Answers::new(alloc);
    exchange(to_one, &mut one, first, third);
    one.tell(&mut answers);
    answers.begin_again(input)?;
    exchange(to_other, &mut other, first, third);
    other.tell(&mut answers);
    answers.are_the_same()
}

fn number(index: usize) -> StateID
    requires small { index < 3 }
    ensures number { result ≡ index }
{
    StateID::new_unchecked(index)
}

/// Two states change places, and each is named by its new one.
fn exchange(mut remapper: Remapper, chain: &mut Chain, a: StateID, b: StateID)
    requires a { a < 3 }
    requires b { b < 3 }
    requires as_many { length remapper ≡ 3 }
{
    remapper.swap(chain, a, b);
    remapper.remap(chain);
}
