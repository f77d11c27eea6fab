//! The numbers that the generator draws. A clause sees a `Draws` as the number that was drawn from last.
ghost use Rattle.std.specs.Prelude.{◌≡◌, ◌^◌, ◌<◌};
ghost use Rattle.desk_made.specs.Draws.{drawn, next};

use std::marker::Model;

/// Numbers that are drawn one after another (docs/formats.md, *The generator*).
#[derive(Debug, Drop)]
pub struct Draws {
    number: u32,
}

impl Model for Draws {
    ghost use Rattle.std.specs.Prelude.{ℕ, ◌^◌, ◌<◌};

    ghost Value = { ℕ };

    ghost view = { λ d. d.number };

    ghost invariant = { λ d. d.number < 2 ^ 31 };
}

impl Draws {
    /// The draws that begin after a number.
    pub fn new(start: u32) -> Draws
        requires { start < 2 ^ 31 }
        ensures { result ≡ start }
    {
        Draws { number: start }
    }

    /// The next draw.
    pub fn draw(&mut self) -> u32
        ensures drawn { result ≡ drawn self.new }
        ensures next { self.new ≡ next self.old }
    {
        let number = (u64::from(self.number) * 1_103_515_245 + 12_345) % (1 << 31);
        self.number = number as u32;
        self.number / 65_536
    }
}
