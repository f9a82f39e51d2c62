// The verdict on a file: its blocks, then its records component by component, with a lent table of one row for each component.
// The functions that hold the table do nothing else; whatever is decided is decided by functions on values.
#![tactic(auto)]

ghost use Rattle.std.specs.Prelude.{◌≡◌, ℕ, ◌+◌, ◌-◌, ◌*◌, ◌/◌, ◌≤◌, ◌<◌, length, replicate, IfSome, IfOk};
ghost use Rattle.answers.specs.Answer.{answer};
ghost use Rattle.reading.specs.Reader.{Row};
ghost use Rattle.signatures.specs.Rows.{zero_row};
ghost use Rattle.component.specs.Component.{Begins, Read};
ghost use Rattle.component.specs.Wanted.{wanted, placed, every_below, Sound, gathered};
ghost use Rattle.reader.specs.Rows.{Exact};
ghost use Rattle.verdict.specs.Judgement.{judgement, components_of, kept, shown, Filled};
ghost use Rattle.verdict.specs.Opening.{Fills, opening_rows};
ghost use Rattle.verdict.specs.Started.{Starts};

use answers::{Counts, Fault, Refusal};
use component::{Ended, Progress, Records, Wanted};
use signatures::Signature;

// So many rows a table has to have: one for each component that a file may have.
const LEAST_ROWS: usize = 64;

// How many records a file has: the table's length, then the blocks.
#[tactic(auto, using(crate::proofs::Begins::starts_not, crate::proofs::Begins::starts_so))]
fn begin(file: &[u8], rows: usize) -> Result<usize, Refusal>
    ensures { Starts file.now rows result }
{
    if rows < LEAST_ROWS {
        return Err(Refusal::at(Fault::Room, 0));
    }
    blocks::sound(file)
}

// The rows of all components of an accepted file; of a refused one, none.
fn all_rows(verdict: Result<Counts, Refusal>) -> Option<Wanted>
    ensures { result ≡ every_below (components_of (answer verdict)) }
{
    component::every_component(verdict.map_or(0, |counts| counts.components))
}

// The rows of the components that are wanted, as numbers.
#[tactic(auto, using(crate::proofs::Holding::in_table, crate::proofs::Holding::in_rows))]
fn hold(file: &[u8], table: &[Signature], first: Option<Wanted>, rows: &mut [u16])
    requires { IfSome first (Sound file.now) × IfSome first (λ w. 64 ≤ length table.now) × (5 * (placed first + length (wanted file.now first)) ≤ length rows.old) }
    ensures { rows.new ≡ gathered rows.old table.now (placed first) (wanted file.now first) }
{
    let mut next = first;
    while let Some(w) = next {
        reader::put_row(rows, w.place, signatures::row(table, w.component));
        next = component::next_wanted(file, w);
    }
}

// The next component's records, with the rows that its instances want.
fn read_next(records: Records<'_>, table: &[Signature], q: Progress) -> Result<Ended, Refusal>
    requires { (64 ≤ length table.now) × (1 ≤ records.count) × (q.at ≤ records.count) × Begins q }
    ensures { IfOk result (λ e. (e.place ≡ q.count - 1) × (e.place < 64) × Exact e.row) × ((rows : ℕ → Row) → ((c : ℕ) → c < q.count - 1 → shown table.now c ≡ rows c) → Read records.entry.file.now records.entry.count rows q result) }
{
    let file = records.file;
    // Five numbers to a row, the form that `reader::row_of` reads and `Opening` hands on.
    let mut held = [0u16; 160];
    hold(
        file,
        table,
        component::instances_ahead(records, q.at),
        &mut held,
    );
    component::read_component(records, q, &held)
}

// All records, component by component; the table of an accepted file is left with the row of each component.
fn read(file: &[u8], table: &mut [Signature]) -> Result<Counts, Refusal>
    ensures { (answer result ≡ judgement file.now (length table.old)) × Fills (answer result) file.now (kept table.new) }
{
    let count = begin(file, table.len())?;
    let records = Records { file, count };
    let mut q = component::start();
    loop {
        let e = read_next(records, table, q)?;
        signatures::store(table, e.place, e.row);
        match e.next {
            Some(next) => q = next,
            None => {
                return Ok(Counts {
                    components: q.count,
                    records: count,
                });
            }
        }
    }
}

// The verdict, and a table of zeros.
pub fn judge(file: &[u8], table: &mut [Signature]) -> Result<Counts, Refusal>
    ensures { (answer result ≡ judgement file.now (length table.old)) × (table.new ≡ replicate (length table.old) zero_row) }
{
    let verdict = read(file, table);
    signatures::clear(table);
    verdict
}

// A verdict, and the row of each component of an accepted file, five numbers to a row; what is left over is zero.
// The rows stand beside the verdict and not in it, and as numbers: docs/CLAIMS.md promises them as one list of numbers, which after a
// refusal is all zeros (`opening_rows`).
#[derive(Clone, Copy)]
pub struct Opening {
    pub verdict: Result<Counts, Refusal>,
    pub rows: [u16; 320],
}

// The verdict, with the rows handed on as numbers, and a table of zeros.
pub fn opened(file: &[u8], table: &mut [Signature]) -> Opening
    ensures { (answer result.verdict ≡ judgement file.now (length table.old)) × (result.rows ≡ opening_rows (answer result.verdict) file.now) × (table.new ≡ replicate (length table.old) zero_row) }
{
    let verdict = read(file, table);
    let mut rows = [0u16; 320];
    hold(file, table, all_rows(verdict), &mut rows);
    signatures::clear(table);
    Opening { verdict, rows }
}

// For callers that lend no table: one is made and lent here.
pub fn open_alone(file: &[u8]) -> Opening
    ensures { (answer result.verdict ≡ judgement file.now 64) × Filled (answer result.verdict) file.now result.rows × (length result.rows ≡ 320) × (result.rows ≡ opening_rows (answer result.verdict) file.now) }
{
    let mut table = [Signature::default(); 64];
    opened(file, &mut table)
}

pub fn judge_alone(file: &[u8]) -> Result<Counts, Refusal>
    ensures { answer result ≡ judgement file.now 64 }
{
    open_alone(file).verdict
}
