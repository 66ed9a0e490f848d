// docs/random-runs.md, 'Numbers and digest': the generator.
ghost use Rattle.std.specs.Prelude.{◌<◌, ◌≤◌};

use std::array;

#[derive(Drop)]
pub struct Generator {
    state: u32,
}

// The outputs o0 to o7 of a step.
pub type Outputs = [u16; 8];

impl Generator {
    pub fn new(seed: u32) -> Self {
        Generator {
            state: ((u64::from(seed) * 2654435761) % 4294967296) as u32,
        }
    }

    // The next 16 bits.
    fn output(&mut self) -> u16 {
        let next = (u64::from(self.state) * 1664525 + 1013904223) % 4294967296;
        self.state = next as u32;
        (next / 65536) as u16
    }

    pub fn draw(&mut self, n: u16) -> u8
        requires { (0 < n) × (n ≤ 256) }
        ensures { result < n }
    {
        modulo(self.output(), n)
    }

    pub fn eight_outputs(&mut self) -> Outputs {
        array::from_fn(|_| self.output())
    }
}

pub fn modulo(x: u16, n: u16) -> u8
    requires { (0 < n) × (n ≤ 256) }
    ensures { result < n }
{
    (x % n) as u8
}
