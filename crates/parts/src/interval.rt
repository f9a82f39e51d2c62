// Cycles, counted from a start.
ghost use Rattle.std.specs.Prelude.{◌≡◌, ◌+◌, ◌<◌, ◌≤◌, ◌↔◌, IsTrue};

use records::Port;
use std::fmt;

// The cycles from `start` up to `end`; none where `end` is not above `start`.
#[derive(Clone, Copy, Debug, PartialEq, Eq)]
pub struct Interval {
    pub start: usize,
    pub end: usize,
}

impl Interval {
    // Of what is absent. It is an interval and no `None`, since it is drawn and printed like the others.
    pub const NEVER: Interval = Interval { start: 0, end: 0 };

    // A start is seen for fewer cycles than this.
    pub const ALWAYS: Interval = Interval {
        start: 0,
        end: 65535,
    };

    // The cycles of a port, of an invocation at this offset.
    pub fn of(port: Port, offset: u16) -> Interval
        ensures { (result.start ≡ port.start + offset) × (result.end ≡ port.end + offset) }
    {
        let offset = usize::from(offset);
        Interval {
            start: usize::from(port.start) + offset,
            end: usize::from(port.end) + offset,
        }
    }

    pub fn holds(self, cycle: usize) -> bool
        ensures { IsTrue result ↔ ((self.start ≤ cycle) × (cycle < self.end)) }
    {
        (self.start <= cycle) & (cycle < self.end)
    }
}

// "[3, 4)"
impl fmt::Display for Interval {
    fn fmt<W: fmt::Write>(&self, f: &mut fmt::Formatter<W>) -> fmt::Result {
        let start = self.start;
        let end = self.end;
        write!(f, "[{start}, {end})")
    }
}
