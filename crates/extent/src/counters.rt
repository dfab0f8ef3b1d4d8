// What is worked out with a counter, once for positions of a file and for offsets in a volume. Each call keeps to one kind, so
// that no physical offset can stand in for a position: what leads from one of these to its number and back (`numbers`) is out of
// reach of other crates. Lengths and differences are plain numbers.
ghost use Rattle.std.specs.Prelude.{ℕ, ◌≡◌, ◌+◌, ◌-◌, ◌≤◌, ltb};
ghost use Rattle.format.specs.Extents.{top};

use crate::numbers::Numbered;

// Internal: a counter of one kind.
pub trait Counter: Copy {
    ghost number: { Self → ℕ };

    // Internal: how much there is from one counter to below another.
    fn distance_to(self, end: Self) -> u64
        requires { number self ≤ number end }
        ensures { result ≡ number end - number self };

    // Internal: the counter that is so much further on.
    fn advance(self, len: u64) -> Self
        requires { number self + len ≤ top }
        ensures { number result ≡ number self + len };

    // Internal: whether that is more than 64 bits hold.
    fn passes_top(self, len: u64) -> bool
        ensures { result ≡ ltb top (number self + len) };
}

// Internal: a counter of a kind that another crate declares. By its number it is a `Counter`.
pub trait OwnCounter: Copy {
    ghost number: { Self → ℕ };

    // Internal: the number that it stands at.
    fn to_number(self) -> u64
        ensures { result ≡ number self };

    // Internal: the counter that stands at a number.
    fn at_number(n: u64) -> Self
        ensures { number result ≡ n };
}

impl<C: Numbered> Counter for C {
    ghost number = { C.stands_at };

    fn distance_to(self, end: C) -> u64 {
        end.to_number() - self.to_number()
    }

    fn advance(self, len: u64) -> C {
        C::at_number(self.to_number() + len)
    }

    fn passes_top(self, len: u64) -> bool {
        self.to_number().checked_add(len).is_none()
    }
}
