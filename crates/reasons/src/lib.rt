// Why a file is refused: a sentence in the words of the rules and the numbers of the file.
// Nothing is assumed of the records; what a record names and is not there is left out.
#![tactic(auto)]

mod pairs;
mod sources;
mod standing;

use answers::{Fault, Refusal};
use parts::{Interval, List};
use pieces::Output;
use records::{Port, Record, Source};
use sources::Named;
use standing::Standing;
use std::fmt;

// 5: a record that is not allowed at its place, or a file that ends too early.
fn place<W: fmt::Write>(out: &mut W, list: List<'_>, p: usize) -> fmt::Result {
    match list.kind(p) {
        Some(kind) => write!(out, "record {p}: {kind} not allowed at this place"),
        None => write!(
            out,
            "the file ends after {p} records, in a component that lacks an argument or a connection"
        ),
    }
}

// 6
fn too_many<W: fmt::Write>(out: &mut W, list: List<'_>, p: usize) -> fmt::Result {
    match list.kind(p) {
        Some(kind) => write!(out, "record {p}: one {kind} too many"),
        None => write!(out, "record {p}: one record too many"),
    }
}

// 7: an argument may also name the output of a later invocation.
fn reference<W: fmt::Write>(out: &mut W, s: Standing<'_>) -> fmt::Result {
    let component = s.number;
    match s.record {
        Some(Record::Instance(c)) => write!(
            out,
            "component {c} is not below component {component}, whose instance it would be"
        ),
        Some(Record::Invocation(n, _)) => {
            write!(out, "there is no instance {n} in component {component}")
        }
        Some(Record::Argument(a)) => {
            let name = Named(a.source);
            write!(out, "{name} is absent")?;
            match a.source {
                Source::Output(_, _) => {
                    out.write_str(", or comes too late for an argument here")
                }
                _ => Ok(()),
            }
        }
        Some(Record::Connection(source)) => {
            let name = Named(source);
            write!(out, "{name} is absent")
        }
        _ => Ok(()),
    }
}

// 9
fn interval<W: fmt::Write>(out: &mut W, s: Standing<'_>) -> fmt::Result {
    let port = match s.record {
        Some(Record::Input(p) | Record::Output(p)) => p,
        _ => Port::default(),
    };
    let interval = Interval::of(port, 0);
    let delay = s.delay();
    let component = s.number;
    write!(
        out,
        "{interval} is longer than the delay {delay} of component {component}"
    )
}

// The sentence for the refusal of a file of so many bytes, whose record list is given where its blocks pass.
// Where the record stands is looked for by the rules alone that look at other records: it takes a walk over all before it.
pub fn reason<W: fmt::Write>(out: &mut W, bytes: usize, list: &[u8], r: Refusal) -> fmt::Result {
    let list = List::of(list);
    let p = r.position;
    match r.fault {
        Fault::Length => write!(
            out,
            "the file has {bytes} bytes; a file has 1 to 128 blocks of 512 bytes"
        ),
        Fault::Check => write!(
            out,
            "block {p}: its last four bytes are not the check of those before"
        ),
        Fault::Header => write!(
            out,
            "block {p}: its header, an unused slot or its spare bytes are not as they have to be"
        ),
        Fault::Record => write!(
            out,
            "record {p}: its kind, a number's range or a zero byte is wrong"
        ),
        Fault::Place => place(out, list, p),
        Fault::TooMany => too_many(out, list, p),
        Fault::Reference => {
            write!(out, "record {p}: ")?;
            reference(out, Standing::of(list, p))
        }
        Fault::Width => {
            write!(out, "record {p}: ")?;
            sources::widths(out, Standing::of(list, p))
        }
        Fault::Interval => {
            write!(out, "record {p}: ")?;
            interval(out, Standing::of(list, p))
        }
        Fault::Spacing => {
            write!(out, "record {p}: ")?;
            pairs::spacing(out, Standing::of(list, p))
        }
        Fault::Span => {
            write!(out, "record {p}: ")?;
            pairs::span(out, Standing::of(list, p))
        }
        // a file is refused for none of the last two
        Fault::Reading | Fault::Room | Fault::Absent => {
            write!(out, "record {p}: ")?;
            sources::reading(out, Standing::of(list, p))
        }
    }?;
    out.write_str("\n")
}

// The same on an output, which takes every text.
pub fn print_reason(out: &mut Output, bytes: usize, list: &[u8], r: Refusal) {
    let _ = reason(out, bytes, list, r);
}
