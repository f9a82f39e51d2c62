// The records of one component, read with the rows of the components that its instances are made of; and which rows those are.
#![tactic(auto)]

ghost use Rattle.std.specs.Prelude.{◌≡◌, ℕ, ◌+◌, ◌-◌, ◌*◌, ◌/◌, ◌≤◌, ◌<◌, length, IfSome, IfOk};
ghost use Rattle.answers.specs.Fault.{number};
ghost use Rattle.answers.specs.Answer.{refusal};
ghost use Rattle.entry.specs.Records.{Record as Said};
ghost use Rattle.numbers.specs.Numbers.{Bytes};
ghost use Rattle.reading.specs.Reader.{Row, View};
ghost use Rattle.reading.specs.Told.{told};
ghost use Rattle.reader.specs.Rows.{Exact};
ghost use Rattle.reader.specs.State.{fresh, before};
ghost use Rattle.component.specs.Ahead.{ahead};
ghost use Rattle.component.specs.Component.{Begins, HoldsRows, Read};
ghost use Rattle.component.specs.Wanted.{later, wanted, every_below, Sound};

use answers::{Fault, Refusal};
use reader::{Invocations, Reader};
use signatures::Signature;

// How far the reading has come: the component that is being read, the record that is next, how many components have begun.
#[derive(Clone, Copy)]
pub struct Progress {
    pub reader: Reader,
    pub at: usize,
    pub count: usize,
}

// A component that has been read: its row, and the row's place; and the reading of the next component, if there is one.
#[derive(Clone, Copy)]
pub struct Ended {
    pub place: usize,
    pub row: Signature,
    pub next: Option<Progress>,
}

// What is wanted after a row: those of every component below `end`, or those of the instances from record `from` on, before record `end`.
#[derive(Clone, Copy)]
pub enum Following {
    Components { end: usize },
    Instances { from: usize, end: usize },
}

// A component whose row is wanted, and the place that the row goes to.
#[derive(Clone, Copy)]
pub struct Wanted {
    pub component: usize,
    pub place: usize,
    pub following: Following,
}

// The first so many records of a file, which stand in its blocks. `bytes` is true of any slice of bytes, and said for the proofs, which see the slice only through this.
#[derive(Clone, Copy)]
pub struct Records<'a> {
    pub file: &'a [u8],
    pub count: usize,
    ghost few: { count ≤ 3968 },
    ghost within: { count ≤ 31 * (length file.now / 512) },
    ghost bytes: { Bytes file.now },
}

// The component of the next instance from record `at` on, as far as it can be told before the records are judged.
fn next_instance(records: Records<'_>, at: usize, place: usize) -> Option<Wanted>
    requires { (at ≤ records.count) × (place ≤ 64) }
    ensures { IfSome result (Sound records.entry.file.now) × (wanted records.entry.file.now result ≡ ahead records.entry.file.now (records.entry.count - at) at place) × IfSome result (λ w. w.place ≡ place) }
{
    let file = records.file;
    // The kind by its number: `look::kind_at` gives the record's byte, and the definition `ahead` speaks of it.
    let i = (at..records.count).find(|i| look::kind_at(file, *i) != 2)?;
    let kind = look::kind_at(file, i);
    let c = look::first_number_at(file, i);
    if kind != 3 || 64 <= c || 32 <= place {
        return None;
    }
    Some(Wanted {
        component: usize::from(c),
        place,
        following: Following::Instances {
            from: i + 1,
            end: records.count,
        },
    })
}

// The rows that a component's reading wants: those of its instances' components.
pub fn instances_ahead(records: Records<'_>, at: usize) -> Option<Wanted>
    requires { at ≤ records.count }
    ensures { IfSome result (Sound records.entry.file.now) × (wanted records.entry.file.now result ≡ ahead records.entry.file.now (records.entry.count - at) at 0) × IfSome result (λ w. w.place ≡ 0) }
{
    next_instance(records, at, 0)
}

// The rows of so many components, from the first on.
pub fn every_component(count: usize) -> Option<Wanted>
    ensures { result ≡ every_below count }
{
    if count == 0 {
        return None;
    }
    Some(Wanted {
        component: 0,
        place: 0,
        following: Following::Components { end: count },
    })
}

// The row that is wanted next.
#[tactic(auto, using(crate::proofs::Next::in_order_more, crate::proofs::Next::in_order_end))]
pub fn next_wanted(file: &[u8], w: Wanted) -> Option<Wanted>
    requires { Sound file.now w }
    ensures { IfSome result (Sound file.now) × (wanted file.now result ≡ later file.now w) × IfSome result (λ v. v.place ≡ w.place + 1) }
{
    match w.following {
        Following::Components { end } => {
            let component = w.component + 1;
            if component < end {
                return Some(Wanted {
                    component,
                    place: w.place + 1,
                    following: w.following,
                });
            }
            None
        }
        Following::Instances { from, end } => next_instance(
            Records { file, count: end },
            from,
            w.place + 1,
        ),
    }
}

// What is told of the rule that record p breaks: found after the fact, so that the loop over the records pays nothing for it.
#[tactic(auto, unfolding(reading::specs::Told::told))]
fn told(fault: Fault, p: usize) -> Refusal
    ensures { (v : View) → (x : Said) → refusal (number result.fault) result.position ≡ told v x p (number fault) }
{
    Refusal::at(fault, p)
}

// The records of one component; before the first, none.
pub fn read_component(records: Records<'_>, q: Progress, held: &[u16]) -> Result<Ended, Refusal>
    requires { (1 ≤ records.count) × (q.at ≤ records.count) × Begins q × (160 ≤ length held.now) }
    ensures { IfOk result (λ e. (e.place ≡ q.count - 1) × (e.place < 64) × Exact e.row) × ((rows : ℕ → Row) → HoldsRows records.entry.file.now records.entry.count rows q.at (q.count - 1) held.now → Read records.entry.file.now records.entry.count rows q result) }
{
    let file = records.file;
    let mut kept = Invocations::none();
    let mut r = q.reader;
    for p in q.at..records.count {
        let x = look::record_at(file, p);
        let v = reader::row_of(held, reader::named(x));
        // No `map_err` and `?`: the closure would hold the record's number in every turn, and with it the proof did not close.
        let turned = match reader::turn(file, r, x, p as u16, v, &mut kept) {
            Ok(turned) => turned,
            Err(fault) => return Err(told(fault, p)),
        };
        if reader::is_component(x) {
            return Ok(Ended {
                place: r.number,
                row: reader::own_row(r),
                next: Some(Progress {
                    reader: reader::opened(x, p as u16, q.count),
                    at: p + 1,
                    count: q.count + 1,
                }),
            });
        }
        r = turned;
    }
    if r.place.may_end() {
        return Ok(Ended {
            place: r.number,
            row: reader::own_row(r),
            next: None,
        });
    }
    Err(told(Fault::Place, records.count))
}

// Before the first record.
pub fn start() -> Progress
    ensures { (fresh result.reader ≡ before) × (result.at ≡ 0) × (result.count ≡ 0) }
{
    Progress {
        reader: reader::start(),
        at: 0,
        count: 0,
    }
}
