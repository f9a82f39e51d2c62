// What stands in a file under a record's number: the record, or lightly its kind, its first number or its port.
#![tactic(auto)]

ghost use Rattle.std.specs.Prelude.{◌≡◌, ◌+◌, ◌/◌, ◌≤◌, ◌<◌, min, length};
ghost use Rattle.blocks.specs.File.{record_place};
ghost use Rattle.reading.specs.Reads.{Ranged};
ghost use Rattle.records.specs.Decoded.{decoded};
ghost use Rattle.records.specs.Says.{says, port};
ghost use Rattle.look.specs.Look.{Stands, sixteen, look, kind, first_number};

use numbers::Number;
use records::{Port, Record};

// The number divided by 31: it stands as a product and a shift, since these are quicker than what a compiler makes of a division of any number.
fn block_of(number: usize) -> usize
    requires { number < 134217728 }
    ensures { result ≡ number / 31 }
{
    number * 138547333 / 4294967296
}

// "31 slots of 16 bytes" after the 8 bytes of a block's head, and 8 bytes behind them.
pub fn place_of(number: usize) -> usize
    requires { number < 134217728 }
    ensures { result ≡ record_place number }
{
    16 * (number + block_of(number)) + 8
}

// Record i of the file, which is in range if it is not wrong.
pub fn record_at(file: &[u8], i: usize) -> Record
    requires { Stands file.now i }
    ensures { (says result ≡ decoded (sixteen file.now i)) × Ranged (says result) }
{
    let at = place_of(i);
    records::decode(&file[at..at + 16])
}

// A byte and no enum, since records are read lightly here (docs/DECISIONS.md, "A component at a time"), and `kind` of specs/Look.antt
// is this byte.
pub fn kind_at(file: &[u8], i: usize) -> u8
    requires { Stands file.now i }
    ensures { result ≡ kind file.now i }
{
    file[place_of(i)]
}

// The component in an instance record, and the instance in an invocation record.
pub fn first_number_at(file: &[u8], i: usize) -> u16
    requires { Stands file.now i }
    ensures { result ≡ first_number file.now i }
{
    u16::read(file, place_of(i) + 2)
}

// The interval and width that record i says if it is a port.
pub fn port_in(file: &[u8], i: usize) -> Port
    requires { (i < 134217728) × (24 ≤ length file.now) }
    ensures { port result ≡ look file.now i }
{
    // 8 bytes before the record, and at most 24 before the end.
    let at = usize::min(16 * (i + block_of(i)), file.len() - 24);
    Port {
        start: u16::read(file, at + 10),
        end: u16::read(file, at + 12),
        width: file[at + 14],
    }
}

// The same of a file of any length; one that is too short for a record says nothing.
#[tactic(auto, unfolding(crate::specs::Look::look))]
pub fn port_at(file: &[u8], i: usize) -> Port
    requires { i < 134217728 }
    ensures { port result ≡ look file.now i }
{
    if file.len() < 24 {
        return Port::default();
    }
    port_in(file, i)
}
