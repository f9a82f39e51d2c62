// The rows of a component from notes of its invocations, and of those below it: two functions that call each other, as document 01 asks.
// They write to an array with a place beside it, and not to the lent bytes: the array's reference is one word, so that a call in last
// place is a jump and the stack grows with the levels only.
#![tactic(auto)]

ghost use Rattle.std.specs.Prelude.{◌≡◌, ◌∷◌, [], ◌++◌, ◌+◌, ◌*◌, ◌≤◌, ◌<◌, length, drop, replicate};
ghost use Rattle.expansion.specs.Bytes.{rows_bytes};
ghost use Rattle.expansion.specs.Notes.{no_note, note_at, put_note, first_note, listed, listed_from};
ghost use Rattle.expansion.specs.Asked.{Expands, Asked, AskedFrom, Wrote};

use numbers::Number;

// A noted invocation: the invoked component, the offset, and the units of the instances before its own.
#[derive(Clone, Copy)]
pub struct Note {
    pub component: u16,
    pub offset: u16,
    pub units: u16,
}

// For each component, from the lowest on, those of its invocations that have rows, in order; the notes of component c end at
// `ends[c + 1]`, where those of the next one begin.
#[derive(Drop)]
pub struct Notes {
    pub noted: [Note; 3968],
    pub ends: [u16; 65],
}

impl Notes {
    // No notes yet, of any component.
    pub fn none() -> Notes
        ensures { (result.noted ≡ replicate 3968 no_note) × (result.ends ≡ replicate 65 0) }
    {
        let none = Note {
            component: 0,
            offset: 0,
            units: 0,
        };
        Notes {
            noted: [none; 3968],
            ends: [0; 65],
        }
    }

    // Where the notes of component c begin, and those of the one before it end.
    #[tactic(auto, unfolding(crate::specs::Notes::first_note))]
    fn first(&self, c: usize) -> usize
        requires { c ≤ 64 }
        ensures { (result ≡ first_note self.now.ends c) × (result < 65536) }
    {
        usize::from(self.ends[c])
    }

    #[tactic(auto, unfolding(crate::specs::Notes::note_at))]
    fn note(&self, e: usize) -> Note
        requires { e < 3968 }
        ensures { result ≡ note_at self.now.noted e }
    {
        self.noted[e]
    }

    // A note in place e.
    #[tactic(auto, unfolding(crate::specs::Notes::put_note))]
    pub fn put(&mut self, e: usize, note: Note)
        requires { e < 3968 }
        ensures { (self.new.noted ≡ put_note self.old.noted e note) × (self.new.ends ≡ self.old.ends) }
    {
        self.noted[e] = note;
    }
}

// One row; the place behind it.
fn put_row(out: &mut [u8; 32768], at: usize, cycle: u32, unit: u32, c: usize) -> usize
    requires { (at + 8 ≤ 32768) × (length out.old ≡ 32768) }
    ensures { Wrote (record { cycle = cycle; unit = unit; component = c } ∷ []) at result out.old out.new }
{
    cycle.write(&mut out[at..at + 4]);
    ((unit % 65536) as u16).write(&mut out[at + 4..at + 6]);
    ((c % 65536) as u16).write(&mut out[at + 6..at + 8]);
    at + 8
}

// The rows of component c, begun in a cycle, its units numbered from a unit on; the place behind them.
#[cycle(expansion)]
fn expand(notes: &Notes, c: usize, cycle: u32, unit: u32, at: usize, out: &mut [u8; 32768]) -> usize
    requires { Asked notes.now.noted notes.now.ends c cycle unit at out.old }
    ensures { Wrote (listed notes.now.noted notes.now.ends c cycle unit) at result out.old out.new }
{
    let first = notes.first(c);
    if first < notes.first(c + 1) {
        return expand_invocations(notes, c, first, cycle, unit, at, out);
    }
    put_row(out, at, cycle, unit, c)
}

// The rows of the noted invocations of component c, from note e on; the place behind them.
#[cycle(expansion)]
fn expand_invocations(
    notes: &Notes,
    c: usize,
    e: usize,
    cycle: u32,
    unit: u32,
    at: usize,
    out: &mut [u8; 32768],
) -> usize
    requires { AskedFrom notes.now.noted notes.now.ends c e cycle unit at out.old }
    ensures { Wrote (listed_from notes.now.noted notes.now.ends c e cycle unit) at result out.old out.new }
{
    if notes.first(c + 1) <= e {
        return at;
    }
    let note = notes.note(e);
    let next = expand(
        notes,
        usize::from(note.component),
        cycle + u32::from(note.offset),
        unit + u32::from(note.units),
        at,
        out,
    );
    expand_invocations(notes, c, e + 1, cycle, unit, next, out)
}

// The rows of component c into lent bytes, `size` of them.
pub fn write(notes: &Notes, c: usize, size: usize, out: &mut [u8])
    requires { Expands notes.now.noted notes.now.ends c 0 0 × (size ≡ 8 * length (listed notes.now.noted notes.now.ends c 0 0)) × (size ≤ 32768) × (size ≤ length out.old) }
    ensures { out.new ≡ rows_bytes (listed notes.now.noted notes.now.ends c 0 0) ++ drop size out.old }
{
    let mut rows = [0u8; 32768];
    expand(notes, c, 0, 0, 0, &mut rows);
    out[0..size].copy_from_slice(&rows[0..size]);
}
