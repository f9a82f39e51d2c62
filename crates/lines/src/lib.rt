// The lines that `lower` and `list` print: the words of document 01 and the user's numbers.
// Here any writer takes them, and may refuse; `output` has the same for an output, which takes every text.
#![tactic(auto)]

ghost use Rattle.std.specs.Prelude.{◌≤◌, ◌≡◌, length};

mod output;

use numbers::Number;
pub use output::{print_lowered_rows, print_started_rows};
use records::Source;
use std::fmt;
use std::fmt::Write;

// A control row of a component, which was lowered from the file.
#[derive(Clone, Copy)]
struct ControlRow<'a> {
    file: &'a [u8],
    component: usize,
    bytes: &'a [u8; 16],
}

// The source in a record of a judged file that is an argument or a connection. It is read lightly: with `records::decode` called from
// a second place the compiler no longer writes it out in the reader, and judging takes a third more.
fn source_in(bytes: &[u8]) -> Source
    requires { length bytes.now ≡ 16 }
{
    match bytes[1] {
        0 => Source::Own(u16::read(bytes, 2)),
        1 => Source::Output(u16::read(bytes, 2), u16::read(bytes, 4)),
        _ => Source::Constant(u64::read(bytes, 8)),
    }
}

impl ControlRow<'_> {
    // Number i of the row.
    fn number(&self, i: usize) -> u16
        requires { i ≤ 7 }
    {
        let bytes = self.bytes;
        u16::read(bytes, 2 * i)
    }

    // The source in the record that the row names: of an input its argument, of an output its connection.
    fn source<W: fmt::Write>(&self, f: &mut fmt::Formatter<W>, record: u16) -> fmt::Result {
        let place = look::place_of(usize::from(record));
        match self.file.get(place..place + 16) {
            Some(bytes) => write!(f, " {}", source_in(bytes)),
            None => Ok(()),
        }
    }
}

impl fmt::Display for ControlRow<'_> {
    fn fmt<W: fmt::Write>(&self, f: &mut fmt::Formatter<W>) -> fmt::Result {
        let x = self.number(1);
        let y = self.number(2);
        let z = self.number(3);
        let w = self.number(4);
        // The kinds as document 01 numbers them, as they stand in the row: read back into a `rows::Row` they would only be matched once more.
        match self.bytes[0] {
            1 => write!(f, "component {} delay {x} states {y}", self.component),
            2 => write!(f, "go {x} {y} {z}"),
            3 => {
                write!(f, "in {x} {y} {z} {w}")?;
                self.source(f, self.number(5))
            }
            // Lowering writes no row of kind 0.
            0 => write!(f, "out {x}"),
            _ => {
                write!(f, "out {x}")?;
                self.source(f, y)
            }
        }
    }
}

// A row of the flat listing: the cycle in four bytes, the unit and the component in two each.
#[derive(Clone, Copy)]
struct Start<'a> {
    bytes: &'a [u8; 8],
}

impl fmt::Display for Start<'_> {
    fn fmt<W: fmt::Write>(&self, f: &mut fmt::Formatter<W>) -> fmt::Result {
        let bytes = self.bytes;
        write!(
            f,
            "start {} {} {}",
            u32::read(bytes, 0),
            u16::read(bytes, 4),
            u16::read(bytes, 6)
        )
    }
}

// The first k rows of component c, or as many as there are.
pub fn lowered_rows<W: fmt::Write>(
    out: &mut W,
    file: &[u8],
    component: usize,
    rows: &[u8],
    k: usize,
) -> fmt::Result {
    let (rows, _) = rows.as_chunks::<16>();
    for bytes in rows.iter().take(k) {
        writeln!(
            out,
            "{}",
            ControlRow {
                file,
                component,
                bytes
            }
        )?;
    }
    Ok(())
}

// The first k rows of a flat listing, or as many as there are. One loop for both kinds of rows would take what makes a row of its
// bytes, and is longer than the two.
pub fn started_rows<W: fmt::Write>(out: &mut W, rows: &[u8], k: usize) -> fmt::Result {
    let (rows, _) = rows.as_chunks::<8>();
    for bytes in rows.iter().take(k) {
        writeln!(out, "{}", Start { bytes })?;
    }
    Ok(())
}
