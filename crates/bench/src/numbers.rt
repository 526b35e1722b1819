//! Numbers that look random, and are the same each time.

ghost use Rattle.std.specs.Prelude.{◌<◌};

/// Numbers that look random. Those of one seed are always the same.
#[derive(Drop)]
pub struct Numbers {
    state: u64,
}

impl Numbers {
    /// The numbers of this seed.
    pub fn new(seed: u64) -> Numbers {
        Numbers { state: seed }
    }

    /// The next number.
    pub fn any(&mut self) -> u64 {
        self.state = self.state.wrapping_add(0x9E37_79B9_7F4A_7C15);
        let mixed = (self.state ^ self.state >> 30).wrapping_mul(0xBF58_476D_1CE4_E5B9);
        let mixed = (mixed ^ mixed >> 27).wrapping_mul(0x94D0_49BB_1331_11EB);
        mixed ^ mixed >> 31
    }

    /// A number below this one.
    pub fn below(&mut self, end: usize) -> usize
        requires some { 0 < end }
        ensures below { result < end }
    {
        self.any() as usize % end
    }

    /// Whether a thing happens that happens once in so many times.
    pub fn once_in(&mut self, times: usize) -> bool
        requires some { 0 < times }
    {
        self.below(times) == 0
    }
}
