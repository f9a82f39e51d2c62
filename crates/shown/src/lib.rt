// Records as lines of text, as docs/TEXT.md has them.
// Here any writer takes them, and may refuse; `output` has the same for an output, which takes every text.
#![tactic(auto)]

mod output;

pub use output::print_list;
use places::Place;
use records::Record;
use std::fmt;
use std::fmt::Write;

// A record, which has this number of its kind; its sixteen bytes where they are no record.
fn sentence<W: fmt::Write>(out: &mut W, x: Record, n: u64, bytes: &[u8]) -> fmt::Result {
    match x {
        Record::Component(class, delay) => write!(out, "component {n} {class} delay {delay}"),
        Record::Input(port) => write!(out, "  input {n} {port}"),
        Record::Output(port) => write!(out, "  output {n} {port}"),
        Record::Instance(component) => write!(out, "  instance {n} of component {component}"),
        Record::Invocation(instance, offset) => write!(
            out,
            "  invocation {n} of instance {instance} at {offset}"
        ),
        Record::Argument(argument) => write!(out, "    argument {n} {}", argument.source),
        Record::Connection(source) => write!(out, "  connection {n} {source}"),
        Record::Wrong => {
            write!(out, "raw")?;
            for b in bytes {
                write!(out, " {b:02x}")?;
            }
            Ok(())
        }
    }
}

// The lines of a list of records: each has its number in the margin, to the right of four columns.
pub fn list<W: fmt::Write>(out: &mut W, list: &[u8]) -> fmt::Result {
    let mut place = Place::first();
    for (i, bytes) in list.chunks_exact(16).enumerate() {
        let x = records::decode(bytes);
        write!(out, "{i:>4}  ")?;
        sentence(out, x, place.number_of(x), bytes)?;
        writeln!(out)?;
        place = place.after(x);
    }
    Ok(())
}
