// The lines on an output, which takes every text. `lower` and `list` print rows and starts by the thousand: by `text` and `short_number`
// they take half the instructions that `Display` does.
ghost use Rattle.std.specs.Prelude.{◌≤◌};

use crate::{ControlRow, source_in};
use numbers::Number;
use pieces::Output;
use std::fmt::Write;

impl ControlRow<'_> {
    // Number i of the row, behind a space. It is written out where it is called, like those of the output, and so is `print_source`.
    #[inline(always)]
    fn print_number(&self, out: &mut Output, i: usize)
        requires { i ≤ 7 }
    {
        let bytes = self.bytes;
        out.text(" ");
        out.short_number(u16::read(bytes, 2 * i));
    }

    // The source in the record that the row names: of an input its argument, of an output its connection.
    #[inline(always)]
    fn print_source(&self, out: &mut Output, record: u16) {
        let place = look::place_of(usize::from(record));
        if let Some(bytes) = self.file.get(place..place + 16) {
            out.text(" ");
            out.source(source_in(bytes));
        }
    }

    fn print(&self, out: &mut Output) {
        let bytes = self.bytes;
        out.line();
        // The kinds as document 01 numbers them, as they stand in the row: read back into a `rows::Row` they would only be matched once more.
        match bytes[0] {
            1 => {
                let _ = write!(out, "component {} delay", self.component);
                self.print_number(out, 1);
                out.text(" states");
                self.print_number(out, 2);
            }
            2 => {
                out.text("go");
                self.print_number(out, 1);
                self.print_number(out, 2);
                self.print_number(out, 3);
            }
            3 => {
                out.text("in");
                self.print_number(out, 1);
                self.print_number(out, 2);
                self.print_number(out, 3);
                self.print_number(out, 4);
                self.print_source(out, u16::read(bytes, 10));
            }
            kind => {
                out.text("out");
                self.print_number(out, 1);
                // Lowering writes no row of kind 0.
                if kind != 0 {
                    self.print_source(out, u16::read(bytes, 4));
                }
            }
        }
        out.text("\n");
    }
}

// A row of the flat listing: the cycle in four bytes, the unit and the component in two each.
fn print_start(out: &mut Output, bytes: &[u8; 8]) {
    let cycle = u32::read(bytes, 0);
    let unit = u16::read(bytes, 4);
    let component = u16::read(bytes, 6);
    out.line();
    match u16::try_from(cycle) {
        Ok(cycle) => {
            out.text("start ");
            out.short_number(cycle);
            out.text(" ");
            out.short_number(unit);
            out.text(" ");
            out.short_number(component);
            out.text("\n");
        }
        // so late a cycle is rare
        Err(_) => {
            let _ = writeln!(out, "start {cycle} {unit} {component}");
        }
    }
}

// The first k rows of component c, or as many as there are.
pub fn print_lowered_rows(out: &mut Output, file: &[u8], component: usize, rows: &[u8], k: usize) {
    let (rows, _) = rows.as_chunks::<16>();
    for bytes in rows.iter().take(k) {
        let row = ControlRow {
            file,
            component,
            bytes,
        };
        row.print(out);
    }
}

// The first k rows of a flat listing, or as many as there are. One loop for both kinds of rows would take what makes a row of its
// bytes, and is longer than the two.
pub fn print_started_rows(out: &mut Output, rows: &[u8], k: usize) {
    let (rows, _) = rows.as_chunks::<8>();
    for bytes in rows.iter().take(k) {
        print_start(out, bytes);
    }
}
