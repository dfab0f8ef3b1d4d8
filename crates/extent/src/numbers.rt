// The number that a counter stands at. The module is private: with both calls in reach, code that names neither kind could make an
// offset of a position.
ghost use Rattle.std.specs.Prelude.{ℕ, ◌≡◌};

use crate::counters::OwnCounter;
use format::{Logical, Physical};

// A counter of one kind, by its number.
pub trait Numbered: Copy {
    ghost stands_at: { Self → ℕ };

    // The number that it stands at.
    fn to_number(self) -> u64
        ensures { result ≡ stands_at self };

    // The counter that stands at a number.
    fn at_number(n: u64) -> Self
        ensures { stands_at result ≡ n };
}

impl Numbered for Logical {
    ghost stands_at = { λ p. p.0 };

    fn to_number(self) -> u64 {
        self.0
    }

    fn at_number(n: u64) -> Logical {
        Logical(n)
    }
}

impl Numbered for Physical {
    ghost stands_at = { λ p. p.0 };

    fn to_number(self) -> u64 {
        self.0
    }

    fn at_number(n: u64) -> Physical {
        Physical(n)
    }
}

// A counter of another crate says itself at which number it stands.
impl<C: OwnCounter> Numbered for C {
    ghost stands_at = { C.number };

    fn to_number(self) -> u64 {
        OwnCounter::to_number(self)
    }

    fn at_number(n: u64) -> C {
        <C as OwnCounter>::at_number(n)
    }
}
