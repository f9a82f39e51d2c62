// There and back: lists of several lengths are packed, unpacked and compared, and each refusal of the blocks is shown with its position.
// It would catch a block or a slot lost at a seam, and a refusal given at the wrong place or in the wrong order.
#![tactic(auto)]

ghost use Rattle.std.specs.Prelude.{◌≡◌, length};

use answers::Refusal;
use numbers::Number;
use pieces::Output;
use report::STDOUT;
use std::fmt;
use std::fmt::{Display, Write};

// Bytes of all values, in no order.
fn scatter(list: &mut [u8]) {
    let mut h: u32 = 2166136261;
    for b in list.iter_mut() {
        h = fnv::step(h, 85);
        *b = (h / 65536 % 256) as u8;
    }
}

// What was asked, and the answer with its unit or the refusal.
fn say<W: fmt::Write, A: Display + Drop>(
    out: &mut W,
    asked: &str,
    answer: Result<A, Refusal>,
    unit: &str,
) -> fmt::Result {
    match answer {
        Ok(a) => writeln!(out, "{asked}{a}{unit}"),
        Err(r) => writeln!(out, "{asked}{r}"),
    }
}

// The list's file goes into `file`, and the file's list into `again`: how many records the file has, and whether its list is the same.
#[tactic(auto, using(packing::proofs::Fits::pack_fits, packing::proofs::Fits::unpack_fits))]
fn there_and_back(
    list: &[u8],
    file: &mut [u8],
    again: &mut [u8],
) -> Result<(usize, bool), Refusal> {
    let k = packing::pack(list, file)?;
    let records = blocks::sound(&file[..k])?;
    let n = packing::unpack(&file[..k], again)?;
    Ok((records, list == &again[..n]))
}

// A block's check, made right again.
fn mend(block: &mut [u8])
    requires { length block.old ≡ 512 }
{
    let check = fnv::check(block);
    check.write(&mut block[508..]);
}

// Records of a file asked for by number, and files of lengths that are not allowed.
fn asked<W: fmt::Write>(out: &mut W, file: &[u8]) -> fmt::Result {
    let present = blocks::record_answer(file, 31).map(|_| "present");
    say(out, "record 31: ", present, "")?;
    let present = blocks::record_answer(file, 32).map(|_| "present");
    say(out, "record 32: ", present, "")?;
    say(out, "no bytes: ", blocks::sound(b""), " records")?;
    let short = blocks::sound(b"not a whole file");
    say(out, "16 bytes: ", short, " records")
}

// Lists of a length that is not allowed, and room that is too short.
fn unfit<W: fmt::Write>(out: &mut W, list: &[u8], file: &[u8]) -> fmt::Result {
    let mut room = [0u8; 511];
    let fifteen = packing::pack(b"fifteen bytes..", &mut room);
    say(out, "15 bytes packed: ", fifteen, " bytes")?;
    let packed = packing::pack(list, &mut room);
    say(out, "no room to pack: ", packed, " bytes")?;
    let unpacked = packing::unpack(file, &mut room);
    say(out, "no room to unpack: ", unpacked, " bytes")
}

// A file of two blocks with one fault more at each step.
fn faults<W: fmt::Write>(out: &mut W, file: &mut [u8; 1024]) -> fmt::Result {
    file[512 + 504] = 1;
    say(
        out,
        "spare byte, check not: ",
        blocks::sound(file),
        " records",
    )?;
    mend(&mut file[512..]);
    say(out, "spare byte: ", blocks::sound(file), " records")?;
    let present = blocks::record_answer(file, 99).map(|_| "present");
    say(out, "spare byte, record 99: ", present, "")?;
    file[5] = 1;
    mend(&mut file[..512]);
    say(out, "early mark: ", blocks::sound(file), " records")
}

// A list of 32 records, which takes two blocks.
fn refusals<W: fmt::Write>(out: &mut W) -> fmt::Result {
    let mut list = [0u8; 512];
    scatter(&mut list);
    let mut file = [0u8; 1024];
    let packed = packing::pack(&list, &mut file);
    say(out, "32 records: ", packed, " bytes")?;
    asked(out, &file)?;
    unfit(out, &list, &file)?;
    faults(out, &mut file)
}

// Lists that end within the first block, with it, and just after it; so with the second; and the longest.
fn trips<W: fmt::Write>(out: &mut W) -> fmt::Result {
    let mut list = [0u8; 63488];
    scatter(&mut list);
    let mut file = [0u8; 65536];
    let mut again = [0u8; 63488];
    for records in [1usize, 31, 32, 61, 62, 63, 3968] {
        let Some(some) = list.get(..16 * records) else {
            continue;
        };
        match there_and_back(some, &mut file, &mut again) {
            Ok((found, same)) => {
                let list = if same {
                    "the same list"
                } else {
                    "ANOTHER LIST"
                };
                writeln!(out, "{records} records in: out {found} records\n{list}")?;
            }
            Err(r) => writeln!(out, "{records} records in: {r}")?,
        }
    }
    Ok(())
}

fn main() {
    let mut out = Output::to(STDOUT);
    let _ = trips(&mut out);
    let _ = refusals(&mut out);
    out.end();
}
