// The control rows of one built component of a judged file, written into lent bytes.
#![tactic(auto)]

ghost use Rattle.std.specs.Prelude.{◌≡◌, ℕ, ◌*◌, ◌<◌, length};
ghost use Rattle.timetable.specs.Bytes.{rows_bytes};
ghost use Rattle.answers.specs.Answer.{left, answer};
ghost use Rattle.verdict.specs.Judgement.{judgement, Filled};
ghost use Rattle.groups.specs.Groups.{design_of, Opened};
ghost use Rattle.control.specs.Stands.{all_rows, Stands};
ghost use Rattle.lowering.specs.Answer.{component_rows, how_many, over, lower_answer, lower_left};

use answers::{Fault, Refusal};
use control::Built;
use groups::Judged;
use rows::Row;
use verdict::Opening;

// All rows: "(1, D, n)", then those of the invocations, and last those of the outputs.
fn put_rows(b: Built, out: &mut [u8])
    requires { Stands b × (length out.old ≡ 16 * length (all_rows b)) }
    ensures { out.new ≡ rows_bytes (all_rows b.entry) }
{
    let register = Row::Register {
        delay: b.row.delay,
        states: b.states(),
    };
    let (first, rest) = out.split_at_mut(16);
    register.write(first);
    let (calls, last) = rest.split_at_mut(16 * (b.connections - b.invocations));
    b.put_invocations(calls);
    // the connections' first record number is below 3,968
    rows::put_outputs(b.row.outputs, b.connections as u16, last);
}

// Of an accepted file.
fn lower_opened(judged: Judged, asked: usize, out: &mut [u8]) -> Result<usize, Refusal>
    requires { Opened judged.file.now judged.rows.now judged.records × (judged.components ≡ length (design_of judged.file.now judged.records)) }
    ensures { (answer result ≡ how_many (component_rows (design_of judged.entry.file.now judged.entry.records) asked (length out.old))) × (out.new ≡ left (component_rows (design_of judged.entry.file.now judged.entry.records) asked (length out.old)) (over out.old) out.old) }
{
    let Some(b) = Built::at(judged, asked) else {
        return Err(Refusal::at(Fault::Absent, asked));
    };
    let count = 1 + (b.connections - b.invocations) + usize::from(b.row.outputs);
    if out.len() < 16 * count {
        return Err(Refusal::at(Fault::Room, 0));
    }
    put_rows(b, &mut out[0..16 * count]);
    Ok(count)
}

// The control rows of one component of a file that has been judged, sixteen bytes each: how many, or the first refusal.
pub fn lower_judged(file: &[u8], o: Opening, asked: usize, out: &mut [u8]) -> Result<usize, Refusal>
    requires { (length o.rows ≡ 320) × Filled (answer o.verdict) file.now o.rows × ((lent : ℕ) × (answer o.verdict ≡ judgement file.now lent)) }
    ensures { (lent : ℕ) → answer o.verdict ≡ judgement file.now lent → (answer result ≡ lower_answer file.now lent asked (length out.old)) × (out.new ≡ lower_left file.now lent asked out.old) }
{
    let counts = o.verdict?;
    let judged = Judged {
        file,
        rows: &o.rows,
        components: counts.components,
        records: counts.records,
    };
    lower_opened(judged, asked, out)
}
