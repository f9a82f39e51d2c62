// The blocks of a file: its length, their checks and headers; and a record asked for by its number.
#![tactic(auto)]

ghost use Rattle.std.specs.Prelude.{◌≡◌, ◌+◌, ◌*◌, ◌/◌, ◌<◌, length};
ghost use Rattle.answers.specs.Answer.{answer};
ghost use Rattle.numbers.specs.Numbers.{all_zero};
ghost use Rattle.blocks.specs.Block.{mark, count_allowed, check_right, header_right};
ghost use Rattle.blocks.specs.File.{length_allowed, Allowed, sound_from, sound, record_answer, part_place, part_bytes};

use answers::{Fault, Refusal};
use numbers::Number;

// Whether all bytes of a slice are zero. Four at a turn, for speed: a block with few records asks this of up to 480 bytes, and byte by
// byte it takes twice as many instructions.
#[tactic(auto, using(numbers::proofs::Zeros::zero_number))]
pub fn all_zero(s: &[u8]) -> bool
    ensures { result ≡ all_zero s.now }
{
    let turns = s.len() / 4;
    for k in 0..turns {
        if u32::read(s, 4 * k) != 0 {
            return false;
        }
    }
    for b in &s[4 * turns..] {
        if *b != 0 {
            return false;
        }
    }
    true
}

// Byte 5 of a block.
pub fn mark_of(last: bool) -> u8
    ensures { result ≡ mark last }
{
    u8::from(last)
}

fn count_allowed(count: usize, last: bool) -> bool
    ensures { result ≡ count_allowed count last }
{
    (1 <= count) & (count <= 31) & (last | (count == 31))
}

fn check_right(block: &[u8]) -> bool
    requires { length block.now ≡ 512 }
    ensures { result ≡ check_right block.now }
{
    u32::read(block, 508) == fnv::check(block)
}

// Everything but the check, of the block with this number.
#[tactic(auto, unfolding(crate::specs::Block::header_right))]
fn header_right(block: &[u8], number: usize, last: bool) -> bool
    requires { length block.now ≡ 512 }
    ensures { result ≡ header_right block.now number last }
{
    let count = usize::from(block[4]);
    if !count_allowed(count, last) {
        return false;
    }
    let numbered = u32::read(block, 0) as usize == number;
    let marked = block[5] == mark_of(last);
    let gap = (block[6] == 0) & (block[7] == 0);
    let rest = all_zero(&block[8 + 16 * count..508]);
    numbered & marked & gap & rest
}

// "A file has 1 to 128 blocks of 512 bytes."
fn length_allowed(len: usize) -> bool
    ensures { result ≡ length_allowed len }
{
    (512 <= len) & (len <= 65536) & (len % 512 == 0)
}

// The blocks in order, the check of each before the rest of it.
fn sound_blocks(file: &[u8]) -> Result<usize, Refusal>
    requires { Allowed (length file.now) }
    ensures { answer result ≡ sound_from file.now (length file.now / 512) 0 }
{
    let n = file.len() / 512;
    for b in 0..n {
        let block = &file[512 * b..512 * b + 512];
        if !check_right(block) {
            return Err(Refusal::at(Fault::Check, b));
        }
        if !header_right(block, b, b + 1 == n) {
            return Err(Refusal::at(Fault::Header, b));
        }
    }
    Ok(31 * (n - 1) + usize::from(file[512 * (n - 1) + 4]))
}

// How many records the file holds, or refusal 1, 2 or 3.
#[tactic(auto, unfolding(crate::specs::File::sound))]
pub fn sound(file: &[u8]) -> Result<usize, Refusal>
    ensures { answer result ≡ sound file.now }
{
    if !length_allowed(file.len()) {
        return Err(Refusal::at(Fault::Length, 0));
    }
    sound_blocks(file)
}

// Whether the file holds a record with this number, or refusal 1, 2, 3 or 14.
#[tactic(auto, unfolding(crate::specs::File::record_answer))]
pub fn record_answer(file: &[u8], number: usize) -> Result<(), Refusal>
    ensures { answer result ≡ record_answer file.now number }
{
    if number < sound(file)? {
        Ok(())
    } else {
        Err(Refusal::at(Fault::Absent, number))
    }
}

// The sixteen bytes of a record as a part of the caller's own file; an empty part where `record_answer` refuses. No `Result`: document 01
// hands back an empty part with a refusal.
#[tactic(auto, using(crate::proofs::Accepted::record_within))]
pub fn record(file: &[u8], number: usize) -> &[u8]
    ensures { (result.now ≡ part_bytes file.now number (record_answer file.now number)) × (result.ref_ptr.0 ≡ file.entry.ref_ptr.0) × (result.ref_ptr.1 ≡ part_place number (record_answer file.now number) + file.entry.ref_ptr.1) }
{
    match record_answer(file, number) {
        Ok(()) => {
            let at = 512 * (number / 31) + 8 + 16 * (number % 31);
            &file[at..at + 16]
        }
        Err(_) => &file[..0],
    }
}
