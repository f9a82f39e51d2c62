// What the flat listing needs of a judged file, component by component from the lowest on:
// how many rows and units each has, and notes of those of its invocations that have rows.
#![tactic(auto)]

ghost use Rattle.std.specs.Prelude.{◌≡◌, ◌+◌, ◌-◌, ◌≤◌, ◌<◌, length, replicate};
ghost use Rattle.timeline.specs.Design.{Design, built, class, instance_count, invocation_count};
ghost use Rattle.timeline.specs.Flat.{row_count, unit_count};
ghost use Rattle.entry.specs.Numbers.{component_number};
ghost use Rattle.reader.specs.Rows.{row_in};
ghost use Rattle.groups.specs.Groups.{Lies, first_number, second_number, end_of};
ghost use Rattle.expansion.specs.Noted.{capped};
ghost use Rattle.counting.specs.Known.{design, Open, Counts, UnitsBefore, kept_note, next_note, Noting, Known};

use expansion::{Note, Notes};
use groups::Judged;

// What has been counted: how many rows and units each component has, and the notes of their invocations.
// Rows and units have an array each: count_units is lent the units alone and note_invocations the rows alone, and `Counts` is said of
// either. One array of structs would be no plainer, as each of the two would be lent what it does not read.
#[derive(Drop)]
pub struct Totals {
    pub rows: [u16; 64],
    pub units: [u16; 64],
    pub notes: Notes,
}

impl Totals {
    // Of no component yet.
    #[tactic(auto, using(crate::proofs::Grown::known_none))]
    pub fn none() -> Totals
        ensures { (result.rows ≡ replicate 64 0) × (result.units ≡ replicate 64 0) × ((D : Design) → Known D 0 result) }
    {
        Totals {
            rows: [0; 64],
            units: [0; 64],
            notes: Notes::none(),
        }
    }
}

// An invocation: the invoked component, its instance, its offset.
#[derive(Clone, Copy)]
pub struct Invocation {
    pub component: u16,
    pub instance: usize,
    pub offset: u16,
}

// Of some invocations: how many rows they have together, and where their notes end.
#[derive(Clone, Copy)]
pub struct Tally {
    pub rows: u16,
    pub end: usize,
}

// The sum of two counts, stopped at 4,097.
fn together(a: u16, b: u16) -> u16
    requires { (a ≤ 4097) × (b ≤ 4097) }
    ensures { result ≡ capped (a + b) }
{
    (a + b).min(4097)
}

// The invocation in record i, of a component whose instances begin at record `first`.
fn invocation_at(judged: Judged, first: usize, i: usize) -> Invocation
    requires { Lies judged.file.now i × Lies judged.file.now (first + first_number judged.file.now i) }
    ensures { (result.component ≡ first_number judged.entry.file.now (first + first_number judged.entry.file.now i)) × (result.instance ≡ first_number judged.entry.file.now i) × (result.offset ≡ second_number judged.entry.file.now i) }
{
    let call = judged.call_at(i);
    let instance = usize::from(call.instance);
    Invocation {
        component: judged.component_at(first + instance),
        instance,
        offset: call.offset,
    }
}

// The units of component c, and those before each of its instances.
fn count_units(judged: Judged, c: usize, units: &[u16; 64], before: &mut [u16; 32]) -> u16
    requires { Open judged c × (class (design judged) c ≡ built) × Counts (unit_count (design judged)) c units.now × (length before.old ≡ 32) }
    ensures { (result ≡ capped (unit_count (design judged.entry) c)) × UnitsBefore (design judged.entry) c (instance_count (design judged.entry) c) before.new }
{
    let first = judged.past_ports(c);
    let end = judged.past_instances(first);
    let mut sum = 0;
    for i in first..end {
        before[i - first] = sum;
        let component = usize::from(judged.component_at(i));
        sum = together(sum, units[component]);
    }
    sum
}

// A note, where the invoked component has rows; where the next one goes.
fn keep_note(notes: &mut Notes, e: usize, rows: u16, note: Note) -> usize
    requires { e < 3968 }
    ensures { (result ≡ next_note e rows) × (notes.new.noted ≡ kept_note notes.old.noted e rows note) × (notes.new.ends ≡ notes.old.ends) }
{
    if rows == 0 {
        return e;
    }
    notes.put(e, note);
    e + 1
}

// The rows of component c, and the notes of its invocations from note `at` on.
fn note_invocations(
    judged: Judged,
    c: usize,
    rows: &[u16; 64],
    before: &[u16; 32],
    at: usize,
    notes: &mut Notes,
) -> Tally
    requires { Open judged c × (class (design judged) c ≡ built) × Counts (row_count (design judged)) c rows.now × UnitsBefore (design judged) c (instance_count (design judged) c) before.now × (at ≤ component_number (design judged) c) × (length notes.old.noted ≡ 3968) }
    ensures { Noting (design judged.entry) c (invocation_count (design judged.entry) c) at result.end result.rows notes.old.noted notes.new.noted × (notes.new.ends ≡ notes.old.ends) }
{
    let first = judged.past_ports(c);
    let last = judged.past_invocations(c);
    let mut i = judged.past_instances(first);
    let mut end = at;
    let mut sum = 0;
    // A `while`, since the step is the record's own: one more than the inputs of the component that it invokes. An iterator, as control's
    // `Uses`, would carry the file, the first instance, the record and the end, and laws of its own, for this one loop: no plainer.
    while i < last {
        let v = invocation_at(judged, first, i);
        let component = usize::from(v.component);
        let n = rows[component];
        let note = Note {
            component: v.component,
            offset: v.offset,
            units: before[v.instance],
        };
        end = keep_note(notes, end, n, note);
        sum = together(sum, n);
        i += 1 + usize::from(judged.row(component).inputs);
    }
    Tally { rows: sum, end }
}

// The counts and notes of component c, those of the components before it being there.
fn count_component(judged: Judged, c: usize, totals: &mut Totals)
    requires { Open judged c × Known (design judged) c totals.old }
    ensures { Known (design judged.entry) (c + 1) totals.new }
{
    let at = totals.notes.ends[c];
    if judged.row(c).class != 0 {
        let mut before = [0; 32];
        let n = count_units(judged, c, &totals.units, &mut before);
        let t = note_invocations(
            judged,
            c,
            &totals.rows,
            &before,
            usize::from(at),
            &mut totals.notes,
        );
        totals.rows[c] = t.rows;
        totals.units[c] = n;
        totals.notes.ends[c + 1] = t.end as u16;
    } else {
        totals.rows[c] = 1;
        totals.units[c] = 1;
        totals.notes.ends[c + 1] = at;
    }
}

// The counts and notes of the components up to the last one asked for, none being counted before.
pub fn count(judged: Judged, last: usize, totals: &mut Totals)
    requires { Open judged last × Known (design judged) 0 totals.old }
    ensures { Known (design judged.entry) (last + 1) totals.new }
{
    for c in 0..=last {
        count_component(judged, c, totals);
    }
}
