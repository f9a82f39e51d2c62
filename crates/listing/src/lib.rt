// The flat listing of one component of a judged file: when each of its leaf units starts.
#![tactic(auto)]

ghost use Rattle.std.specs.Prelude.{◌≡◌, ℕ, ◌<◌, length};
ghost use Rattle.answers.specs.Answer.{answer};
ghost use Rattle.verdict.specs.Judgement.{judgement, Filled};
ghost use Rattle.groups.specs.Groups.{Opened};
ghost use Rattle.counting.specs.Known.{design};
ghost use Rattle.listing.specs.Answer.{fits, flat_answer, list_answer, flat_left, list_left};

use answers::{Fault, Refusal};
use counting::Totals;
use groups::Judged;
use verdict::Opening;

// Whether so many rows and units are listed, and the rows find room.
fn fits(rows: u16, units: u16, room: usize) -> bool
    ensures { result ≡ fits rows units room }
{
    rows <= 4096 && units <= 4096 && 8 * usize::from(rows) <= room
}

// Of an accepted file, with the row of each of its components.
fn list_opened(judged: Judged, asked: usize, out: &mut [u8]) -> Result<usize, Refusal>
    requires { Opened judged.file.now judged.rows.now judged.records × (judged.components ≡ length (design judged)) }
    ensures { (answer result ≡ flat_answer (design judged.entry) asked (length out.old)) × (out.new ≡ flat_left (design judged.entry) asked out.old) }
{
    if judged.components <= asked {
        return Err(Refusal::at(Fault::Absent, asked));
    }
    let mut totals = Totals::none();
    counting::count(judged, asked, &mut totals);
    let n = totals.rows[asked];
    if !fits(n, totals.units[asked], out.len()) {
        return Err(Refusal::at(Fault::Room, 0));
    }
    let empty = n == 0;
    if empty {
        return Ok(0);
    }
    expansion::write(&totals.notes, asked, 8 * usize::from(n), out);
    Ok(usize::from(n))
}

// The unit starts of one component of a file that has been judged, eight bytes each: how many, or the first refusal.
pub fn list_judged(file: &[u8], o: Opening, asked: usize, out: &mut [u8]) -> Result<usize, Refusal>
    requires { (length o.rows ≡ 320) × Filled (answer o.verdict) file.now o.rows × ((lent : ℕ) × (answer o.verdict ≡ judgement file.now lent)) }
    ensures { (lent : ℕ) → answer o.verdict ≡ judgement file.now lent → (answer result ≡ list_answer file.now lent asked (length out.old)) × (out.new ≡ list_left file.now lent asked out.old) }
{
    let counts = o.verdict?;
    let judged = Judged {
        file,
        rows: &o.rows,
        components: counts.components,
        records: counts.records,
    };
    list_opened(judged, asked, out)
}
