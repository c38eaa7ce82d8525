//! The numbers that a line carries.
ghost use Rattle.std.specs.Prelude.{◌≡◌, ◌∷◌, ◌<◌, ◌^◌, [], slice_index};

use std::marker::Model;

/// The most numbers that a command has.
pub const NUMBERS: usize = 6;

/// The numbers after the name of a command, in order, then zeros. What each stands for depends on the command, so the methods
/// are named by that.
#[derive(Drop)]
pub struct Numbers {
    all: [u64; NUMBERS],
}

impl Model for Numbers {
    ghost use Rattle.std.specs.Prelude.{ℕ, List};

    ghost Value = { List ℕ };

    ghost view = { λ n. n.all };
}

impl Numbers {
    /// These numbers.
    pub fn new(all: [u64; NUMBERS]) -> Numbers
        ensures { result ≡ all }
    {
        Numbers { all }
    }

    /// The length of a new object, of `make`.
    pub fn new_length(&self) -> u64
        ensures { result ≡ slice_index self.now 0 }
    {
        self.all[0]
    }

    /// The fuel of a new machine, of `ship`.
    pub fn fuel(&self) -> u64
        ensures { result ≡ slice_index self.now 0 }
    {
        self.all[0]
    }

    /// What R1 to R5 of a new machine begin with.
    pub fn arguments(&self) -> [u64; 5]
        ensures { result ≡ slice_index self.now 1 ∷ slice_index self.now 2 ∷ slice_index self.now 3 ∷ slice_index self.now 4 ∷ slice_index self.now 5 ∷ [] }
    {
        [
            self.all[1],
            self.all[2],
            self.all[3],
            self.all[4],
            self.all[5],
        ]
    }

    /// The object that a command is about.
    pub fn object(&self) -> u32
        ensures { slice_index self.now 0 < 2 ^ 32 → result ≡ slice_index self.now 0 }
    {
        low_half(self.all[0])
    }

    /// The machine that a command is about.
    pub fn machine(&self) -> usize
        ensures { result ≡ slice_index self.now 0 }
    {
        self.all[0] as usize
    }

    /// Where bytes of an object or a stack begin.
    pub fn offset(&self) -> u32
        ensures { slice_index self.now 1 < 2 ^ 32 → result ≡ slice_index self.now 1 }
    {
        low_half(self.all[1])
    }

    /// A slot of a machine's code.
    pub fn slot(&self) -> u32
        ensures { slice_index self.now 1 < 2 ^ 32 → result ≡ slice_index self.now 1 }
    {
        low_half(self.all[1])
    }

    /// Where a watched range begins.
    pub fn address(&self) -> u64
        ensures { result ≡ slice_index self.now 1 }
    {
        self.all[1]
    }

    /// How many bytes are shown or watched.
    pub fn length(&self) -> u32
        ensures { slice_index self.now 2 < 2 ^ 32 → result ≡ slice_index self.now 2 }
    {
        low_half(self.all[2])
    }
}

/// The number's low 32 bits: all of it, where it is so small.
fn low_half(number: u64) -> u32
    ensures { number < 2 ^ 32 → result ≡ number }
{
    (number & u32::MAX as u64) as u32
}
