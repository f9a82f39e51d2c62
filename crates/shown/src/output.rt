// The lines on an output, which takes every text. `show` prints records by the thousand: by `text` and `number` they take half the
// instructions that `Display` does, and a quarter for those that are none.
use pieces::Output;
use places::Place;
use records::{Port, Record};
use std::fmt::Write;

// The record's number, to the right of four columns, and two blanks behind it.
fn margin(out: &mut Output, i: usize) {
    out.text(match i {
        0..=9 => "   ",
        10..=99 => "  ",
        100..=999 => " ",
        _ => "",
    });
    out.number(i as u64);
    out.text("  ");
}

fn port(out: &mut Output, port: Port) {
    let Port { start, end, width } = port;
    out.text(" [");
    out.short_number(start);
    out.text(", ");
    out.short_number(end);
    out.text(") width ");
    out.short_number(u16::from(width));
}

// A record, which has this number of its kind; its sixteen bytes where they are no record.
fn sentence(out: &mut Output, x: Record, n: u64, bytes: &[u8]) {
    match x {
        Record::Component(class, delay) => {
            out.text("component ");
            out.number(n);
            let _ = write!(out, " {class} delay {delay}");
        }
        Record::Input(p) => {
            out.text("  input ");
            out.number(n);
            port(out, p);
        }
        Record::Output(p) => {
            out.text("  output ");
            out.number(n);
            port(out, p);
        }
        Record::Instance(component) => {
            out.text("  instance ");
            out.number(n);
            out.text(" of component ");
            out.short_number(component);
        }
        Record::Invocation(instance, offset) => {
            out.text("  invocation ");
            out.number(n);
            out.text(" of instance ");
            out.short_number(instance);
            out.text(" at ");
            out.short_number(offset);
        }
        Record::Argument(argument) => {
            out.text("    argument ");
            out.number(n);
            out.text(" ");
            out.source(argument.source);
        }
        Record::Connection(source) => {
            out.text("  connection ");
            out.number(n);
            out.text(" ");
            out.source(source);
        }
        Record::Wrong => {
            out.text("raw");
            for b in bytes {
                // here too, so that the compiler knows of the room in the loop
                out.line();
                out.text(" ");
                out.hex(*b);
            }
        }
    }
}

// The lines of a list of records: each has its number in the margin.
pub fn print_list(out: &mut Output, list: &[u8]) {
    let mut place = Place::first();
    for (i, bytes) in list.chunks_exact(16).enumerate() {
        let x = records::decode(bytes);
        out.line();
        margin(out, i);
        sentence(out, x, place.number_of(x), bytes);
        out.text("\n");
        place = place.after(x);
    }
}
