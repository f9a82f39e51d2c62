// What a source is called, how wide it is, and when it is there.
use crate::standing::Standing;
use parts::Interval;
use records::{Record, Source};
use std::fmt;

// A source by its name.
#[derive(Clone, Copy)]
pub struct Named(pub Source);

impl fmt::Display for Named {
    fn fmt<W: fmt::Write>(&self, f: &mut fmt::Formatter<W>) -> fmt::Result {
        match self.0 {
            Source::Own(i) => write!(f, "own input {i}"),
            Source::Output(j, o) => write!(f, "output {o} of invocation {j}"),
            Source::Constant(v) => write!(f, "the constant {v}"),
        }
    }
}

// 8
pub(crate) fn widths<W: fmt::Write>(out: &mut W, s: Standing<'_>) -> fmt::Result {
    let Some(source) = s.source() else {
        return Ok(());
    };
    let name = Named(source);
    let asked = s.asked().unwrap_or_default().width;
    match source {
        Source::Constant(_) => write!(out, "{name} does not fit {asked} bits"),
        _ => {
            let given = s.given(source).unwrap_or_default().width;
            write!(
                out,
                "{name} is {given} bits wide, what reads it {asked} bits"
            )
        }
    }
}

// When what reads the source needs it: an argument when its invocation does, a connection from the start on.
fn required(s: Standing<'_>) -> Interval {
    let offset = match (s.record, s.call()) {
        (Some(Record::Argument(_)), Some(u)) => u.offset,
        _ => 0,
    };
    Interval::of(s.asked().unwrap_or_default(), offset)
}

// When the source is there: an absent port is nowhere there, from its invocation on.
fn available(s: Standing<'_>) -> Interval {
    match s.source() {
        None => Interval::NEVER,
        Some(Source::Constant(_)) => Interval::ALWAYS,
        Some(source) => Interval::of(
            s.given(source).unwrap_or_default(),
            s.offset_of(source).unwrap_or(0),
        ),
    }
}

// 12
pub(crate) fn reading<W: fmt::Write>(out: &mut W, s: Standing<'_>) -> fmt::Result {
    let there = available(s);
    let required = required(s);
    if let Some(source) = s.source() {
        let name = Named(source);
        write!(out, "{name}")?;
    }
    write!(
        out,
        " is available for {there} but required during {required}"
    )
}
