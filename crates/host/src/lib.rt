// What a C or Rust program links: every call of document 01 under its own name. `include/dansevik.h` says it for the program's side.
// An exported function cannot return an enum, so that each answer becomes one struct of numbers; `specs/Reply.antt` says which.
#![tactic(auto)]

ghost use Rattle.std.specs.Prelude.{◌≡◌, ◌<◌, length, replicate};
ghost use Rattle.answers.specs.Fault.{number};
ghost use Rattle.answers.specs.Answer.{refusal};
ghost use Rattle.signatures.specs.Rows.{zero_row};
ghost use Rattle.blocks.specs.File.{record_answer};
ghost use Rattle.packing.specs.Answer.{pack_answer, unpack_answer, pack_left, unpack_left};
ghost use Rattle.verdict.specs.Judgement.{judgement};
ghost use Rattle.lowering.specs.Answer.{lower_answer, lower_left};
ghost use Rattle.listing.specs.Answer.{list_answer, list_left};
ghost use Rattle.host.specs.Reply.{refusing, reply, counts, amount, place};

use answers::{Counts, Refusal};
use signatures::Signature;

// `struct dansevik_answer` of the header: what does not apply is zero.
#[repr(C)]
#[derive(Clone, Copy, Default)]
pub struct Reply {
    // 0: accepted; otherwise document 01's number of the refusal
    pub refusal: u64,
    // where the refusal stands
    pub position: u64,
    // records, rows or bytes
    pub count: u64,
    // components, of the verdict
    pub components: u64,
    // where the record's bytes begin in the file, of record lookup
    pub offset: u64,
}

impl From<Refusal> for Reply {
    ghost from_gives = { λ r result. result ≡ refusing (refusal (number r.fault) r.position) };

    fn from(r: Refusal) -> Reply {
        Reply {
            refusal: u64::from(r.fault.number()),
            position: r.position as u64,
            ..Reply::default()
        }
    }
}

impl From<Counts> for Reply {
    ghost from_gives = { λ k result. result ≡ counts k };

    fn from(k: Counts) -> Reply {
        Reply {
            count: k.records as u64,
            components: k.components as u64,
            ..Reply::default()
        }
    }
}

// Two functions and no `From`: both are made of a number, and say different things of it.
impl Reply {
    fn amount(n: usize) -> Reply
        ensures { result ≡ amount n }
    {
        Reply {
            count: n as u64,
            ..Reply::default()
        }
    }

    // Of the record with this number, which is there.
    fn place(number: usize) -> Reply
        requires { number < 134217728 }
        ensures { result ≡ place number tt }
    {
        Reply {
            count: 16,
            offset: look::place_of(number) as u64,
            ..Reply::default()
        }
    }
}

// The verdict: component and record counts.
#[unsafe(no_mangle)]
pub extern "C" fn dansevik_judge(file: &[u8], table: &mut [Signature]) -> Reply
    ensures { (result ≡ reply counts (judgement file.now (length table.old))) × (table.new ≡ replicate (length table.old) zero_row) }
{
    verdict::judge(file, table).map_or_else(Reply::from, Reply::from)
}

// The control rows of one built component, sixteen bytes each.
#[unsafe(no_mangle)]
pub extern "C" fn dansevik_lower(
    file: &[u8],
    table: &mut [Signature],
    asked: u64,
    out: &mut [u8],
) -> Reply
    ensures { (result ≡ reply amount (lower_answer file.now (length table.old) asked (length out.old))) × (out.new ≡ lower_left file.now (length table.old) asked out.old) × (table.new ≡ replicate (length table.old) zero_row) }
{
    lowering::lower_judged(file, verdict::opened(file, table), asked as usize, out).map_or_else(
        Reply::from,
        Reply::amount,
    )
}

// The unit starts of one component, eight bytes each.
#[unsafe(no_mangle)]
pub extern "C" fn dansevik_list(
    file: &[u8],
    table: &mut [Signature],
    asked: u64,
    out: &mut [u8],
) -> Reply
    ensures { (result ≡ reply amount (list_answer file.now (length table.old) asked (length out.old))) × (out.new ≡ list_left file.now (length table.old) asked out.old) × (table.new ≡ replicate (length table.old) zero_row) }
{
    listing::list_judged(file, verdict::opened(file, table), asked as usize, out).map_or_else(
        Reply::from,
        Reply::amount,
    )
}

// The file of a list of records.
#[unsafe(no_mangle)]
pub extern "C" fn dansevik_pack(list: &[u8], out: &mut [u8]) -> Reply
    ensures { (result ≡ reply amount (pack_answer list.now (length out.old))) × (out.new ≡ pack_left list.now out.old) }
{
    packing::pack(list, out).map_or_else(Reply::from, Reply::amount)
}

// The list of records of a file.
#[unsafe(no_mangle)]
pub extern "C" fn dansevik_unpack(file: &[u8], out: &mut [u8]) -> Reply
    ensures { (result ≡ reply amount (unpack_answer file.now (length out.old))) × (out.new ≡ unpack_left file.now out.old) }
{
    packing::unpack(file, out).map_or_else(Reply::from, Reply::amount)
}

// Where the sixteen bytes of a record stand in the caller's own file; nothing is copied.
#[unsafe(no_mangle)]
pub extern "C" fn dansevik_record(file: &[u8], asked: u64) -> Reply
    ensures { result ≡ reply (place asked) (record_answer file.now asked) }
{
    let number = asked as usize;
    // A `match`, and no `map_or_else` as above: `place` asks that the record is there, which each arm shows plainly.
    match blocks::record_answer(file, number) {
        Ok(()) => Reply::place(number),
        Err(r) => Reply::from(r),
    }
}
