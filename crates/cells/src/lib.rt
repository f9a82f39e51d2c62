// One cell of a picture: who uses a port, or an instance, in one cycle.
#![tactic(auto)]

ghost use Rattle.std.specs.Prelude.{◌≡◌, ◌<◌, length};
ghost use Rattle.cells.specs.Cells as Cells;

use parts::Use;

#[derive(Clone, Copy, Debug, PartialEq, Eq)]
pub enum Cell {
    Free,
    // this invocation, for the first start or for the next one
    First(usize),
    Next(usize),
    Several,
}

impl Cell {
    // A cell that one more wants.
    fn wanted(self, one: Cell) -> Cell
        ensures { result ≡ Cells.wanted self one }
    {
        match self {
            Cell::Free => one,
            _ => Cell::Several,
        }
    }

    fn joined(self, b: bool, one: Cell) -> Cell
        ensures { result ≡ Cells.joined b one self }
    {
        if b { self.wanted(one) } else { self }
    }
}

// What one line shows: the cycles from `start` up to `end` of each use of this instance; and again for the next start, `delay` cycles
// later.
#[derive(Clone, Copy)]
pub struct Line {
    pub instance: u16,
    pub start: u16,
    pub end: u16,
    pub delay: u16,
}

impl Line {
    // Whether it shows cycle t of a use at k.
    fn covers(self, k: usize, t: usize) -> bool
        requires { k < 131072 }
        ensures { result ≡ Cells.covers self.start self.end k t }
    {
        (k + usize::from(self.start) <= t) & (t < k + usize::from(self.end))
    }

    // Cycle t, where it shows this cell before invocation j.
    fn step(self, used: Option<Use>, j: usize, t: usize, c: Cell) -> Cell
        ensures { result ≡ Cells.after used self.instance self.start self.end self.delay t j c }
    {
        let Some(u) = used else {
            return c;
        };
        let mine = u.instance == self.instance;
        let k = usize::from(u.offset);
        let first = c.joined(mine & self.covers(k, t), Cell::First(j));
        first.joined(
            mine & self.covers(k + usize::from(self.delay), t),
            Cell::Next(j),
        )
    }

    // Cycle t of the line, where these are the component's invocations, each in its place.
    #[tactic(auto, unfolding(crate::specs::Cells::cell_to))]
    pub fn cell_at(self, uses: &[Option<Use>], t: usize) -> Cell
        ensures { result ≡ Cells.cell_to uses.now self.instance self.start self.end self.delay t (length uses.now) }
    {
        let mut c = Cell::Free;
        for (j, used) in uses.iter().enumerate() {
            c = self.step(*used, j, t, c);
        }
        c
    }
}
