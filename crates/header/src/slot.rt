// The number of one of a leaf's 14 slots.
ghost use Rattle.std.specs.Prelude.{◌≡◌, ◌<◌};

use std::marker::Model;

#[derive(Clone, Copy)]
pub struct Slot {
    number: usize,
}

impl Model for Slot {
    ghost use Rattle.std.specs.Prelude.{ℕ, ◌<◌};

    ghost Value = { ℕ };

    ghost view = { λ s. s.number };

    ghost invariant = { λ s. s.number < 14 };

    ghost inverse = { λ n. record { number = n } };
}

impl Slot {
    pub fn new(number: usize) -> Slot
        requires { number < 14 }
        ensures { result ≡ number }
    {
        Slot { number }
    }

    pub fn number(self) -> usize
        ensures { (result ≡ self) × (result < 14) }
    {
        self.number
    }
}
