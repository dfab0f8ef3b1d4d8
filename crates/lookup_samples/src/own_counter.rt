// A counter of another crate than extent, by the two functions that it has to write.
ghost use Rattle.std.specs.Prelude.{◌≡◌, ◌-◌, ◌≤◌};

use extent::counters::{Counter, OwnCounter};

// A counter as another crate has it: a day of a year's archive.
#[derive(Clone, Copy)]
struct Day(u64);

impl OwnCounter for Day {
    ghost number = { λ d. d.0 };

    fn to_number(self) -> u64 {
        self.0
    }

    fn at_number(n: u64) -> Day {
        Day(n)
    }
}

// How far it is between two numbers, by the counters that stand there: as a `Counter` a kind reckons with the numbers that it tells.
fn between<C: OwnCounter>(from: u64, to: u64) -> u64
    requires { from ≤ to }
    ensures { result ≡ to - from }
{
    C::at_number(from).distance_to(C::at_number(to))
}

#[test]
fn a_counter_of_another_crate_counts(rt: HostRuntime) {
    let first = Day::at_number(59);
    let last = first.advance(31);
    assert_eq!(rt; last.to_number(), 90);
    assert_eq!(rt; first.distance_to(last), 31);
    assert_eq!(rt; between::<Day>(59, 90), 31);
    for (len, passes) in [(18446744073709551525, false), (18446744073709551526, true)] {
        assert_eq!(rt; last.passes_top(len), passes, "at {len}");
    }
}
