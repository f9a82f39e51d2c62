// A list of records into the blocks of a file, and back.
#![tactic(auto)]

ghost use Rattle.std.specs.Prelude.{◌≡◌, ◌++◌, ◌+◌, ◌*◌, ◌/◌, ◌≤◌, ◌<◌, min, length, drop, replicate};
ghost use Rattle.answers.specs.Answer.{answer};
ghost use Rattle.blocks.specs.File.{block_count, record_count};
ghost use Rattle.blocks.specs.Sound.{Sound};
ghost use Rattle.packing.specs.Packed.{counting, filled, list_allowed, Listed, blocks_for, packed, unpacked};
ghost use Rattle.packing.specs.Answer.{pack_answer, unpack_answer, pack_left, unpack_left};

use answers::{Fault, Refusal};
use numbers::Number;

// Bytes 4 to 7 of a block.
fn put_count(count: u8, last: bool, out: &mut [u8])
    requires { length out.old ≡ 4 }
    ensures { out.new ≡ counting count last }
{
    out.copy_from_slice(&[count, blocks::mark_of(last), 0, 0]);
}

// One block.
fn put_block(records: &[u8], number: u32, last: bool, out: &mut [u8])
    requires { (length records.now ≤ 496) × (length out.old ≡ 512) }
    ensures { out.new ≡ filled number last records.now }
{
    let size = records.len();
    number.write(&mut out[0..4]);
    put_count((size / 16) as u8, last, &mut out[4..8]);
    out[8..8 + size].copy_from_slice(records);
    out[8 + size..508].fill(0);
    let check = fnv::hash(&out[0..508]);
    check.write(&mut out[508..512]);
}

// The blocks of a list, one after the other.
fn put_blocks(list: &[u8], n: usize, out: &mut [u8])
    requires { (n ≡ blocks_for list.now) × (length list.now ≤ 63488) × (512 * n ≤ length out.old) }
    ensures { out.new ≡ packed list.now ++ drop (512 * n) out.old }
{
    for b in 0..n {
        let start = 496 * b;
        let end = (start + 496).min(list.len());
        put_block(
            &list[start..end],
            b as u32,
            b + 1 == n,
            &mut out[512 * b..512 * b + 512],
        );
    }
}

// "A list of 1 to 3,968 records."
fn list_allowed(len: usize) -> bool
    ensures { result ≡ list_allowed len }
{
    (16 <= len) & (len <= 63488) & (len % 16 == 0)
}

// The file of a list of records: how many bytes it takes, or refusal 1 or 13.
#[tactic(auto, unfolding(crate::specs::Answer::pack_answer))]
pub fn pack(list: &[u8], out: &mut [u8]) -> Result<usize, Refusal>
    ensures { (answer result ≡ pack_answer list.now (length out.old)) × (out.new ≡ pack_left list.now out.old) }
{
    if !list_allowed(list.len()) {
        return Err(Refusal::at(Fault::Length, 0));
    }
    let n = list.len().div_ceil(496);
    if out.len() < 512 * n {
        return Err(Refusal::at(Fault::Room, 0));
    }
    put_blocks(list, n, out);
    Ok(512 * n)
}

// The used slots of a file's blocks, one after the other.
fn put_records(file: &[u8], n: usize, out: &mut [u8])
    requires { Sound file.now × (n ≡ block_count file.now) × (16 * record_count file.now ≤ length out.old) }
    ensures { out.new ≡ unpacked file.now ++ drop (16 * record_count file.now) out.old }
{
    for b in 0..n {
        let block = &file[512 * b..512 * b + 512];
        let used = 16 * usize::from(block[4]);
        out[496 * b..496 * b + used].copy_from_slice(&block[8..8 + used]);
    }
}

// The list of records of a file: how many bytes it takes, or refusal 1, 2, 3 or 13.
#[tactic(auto, using(blocks::proofs::Accepted::sound_blocks, blocks::proofs::Accepted::sound_count, blocks::proofs::Accepted::records_fit), unfolding(crate::specs::Answer::unpack_answer))]
pub fn unpack(file: &[u8], out: &mut [u8]) -> Result<usize, Refusal>
    ensures { (answer result ≡ unpack_answer file.now (length out.old)) × (out.new ≡ unpack_left file.now out.old) }
{
    let size = 16 * blocks::sound(file)?;
    if out.len() < size {
        return Err(Refusal::at(Fault::Room, 0));
    }
    put_records(file, file.len() / 512, out);
    Ok(size)
}
