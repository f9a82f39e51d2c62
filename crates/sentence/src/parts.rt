// The sentence of each kind of record, and the reader behind it. The reader stands before the kind's name; a number that follows from the
// place may stand behind it.
use records::{Argument, Class, Port, Record, Source};
use text::{Cursor, Expected};

// `component 0 leaf delay 2`
pub(crate) fn component(c: Cursor, number: u64) -> Result<(Record, Cursor), Expected> {
    let c = c.literal(b"component", Expected::Kind)?.own(number)?;
    let (class, c) = if c.sees(b"leaf") {
        (Class::Leaf, c.literal(b"leaf", Expected::Class)?)
    } else {
        (Class::Built, c.literal(b"built", Expected::Class)?)
    };
    let c = c.literal(b"delay", Expected::Delay)?;
    let (delay, c) = c.number(1, 1024, Expected::Delay)?;
    Ok((Record::Component(class, delay as u16), c))
}

// `[0, 1) width 32`
fn port(c: Cursor, number: u64) -> Result<(Port, Cursor), Expected> {
    let c = c.own(number)?.literal(b"[", Expected::Interval)?;
    let (start, c) = c.number(0, 1023, Expected::Interval)?;
    let c = c.literal(b",", Expected::Interval)?;
    let (end, c) = c.number(start + 1, 1024, Expected::Interval)?;
    let c = c.literal(b")", Expected::Interval)?;
    let c = c.literal(b"width", Expected::Width)?;
    let (width, c) = c.number(1, 64, Expected::Width)?;
    let port = Port {
        start: start as u16,
        end: end as u16,
        width: width as u8,
    };
    Ok((port, c))
}

// `input 0 [0, 1) width 32`
pub(crate) fn input(c: Cursor, number: u64) -> Result<(Record, Cursor), Expected> {
    let (p, c) = port(c.literal(b"input", Expected::Kind)?, number)?;
    Ok((Record::Input(p), c))
}

// `output 0 [2, 3) width 32`
pub(crate) fn output(c: Cursor, number: u64) -> Result<(Record, Cursor), Expected> {
    let (p, c) = port(c.literal(b"output", Expected::Kind)?, number)?;
    Ok((Record::Output(p), c))
}

// `instance 0 of component 0`
pub(crate) fn instance(c: Cursor, number: u64) -> Result<(Record, Cursor), Expected> {
    let c = c.literal(b"instance", Expected::Kind)?.own(number)?;
    let c = c.literal(b"of", Expected::Component)?;
    let c = c.literal(b"component", Expected::Component)?;
    let (component, c) = c.number(0, 63, Expected::Component)?;
    Ok((Record::Instance(component as u16), c))
}

// `invocation 0 of instance 0 at 2`
pub(crate) fn invocation(c: Cursor, number: u64) -> Result<(Record, Cursor), Expected> {
    let c = c.literal(b"invocation", Expected::Kind)?.own(number)?;
    let c = c.literal(b"of", Expected::Instance)?;
    let c = c.literal(b"instance", Expected::Instance)?;
    let (instance, c) = c.number(0, 31, Expected::Instance)?;
    let c = c.literal(b"at", Expected::Offset)?;
    let (offset, c) = c.number(0, 1023, Expected::Offset)?;
    Ok((Record::Invocation(instance as u16, offset as u16), c))
}

// `own 0`, `inv 0 0` or `const 255`
fn source(c: Cursor) -> Result<(Source, Cursor), Expected> {
    if c.sees(b"own") {
        let c = c.literal(b"own", Expected::Source)?;
        let (input, c) = c.number(0, 15, Expected::Input)?;
        return Ok((Source::Own(input as u16), c));
    }
    if c.sees(b"inv") {
        let c = c.literal(b"inv", Expected::Source)?;
        let (invocation, c) = c.number(0, 63, Expected::Output)?;
        let (output, c) = c.number(0, 15, Expected::Output)?;
        return Ok((Source::Output(invocation as u16, output as u16), c));
    }
    let c = c.literal(b"const", Expected::Source)?;
    let (value, c) = c.number(0, u64::MAX, Expected::Constant)?;
    Ok((Source::Constant(value), c))
}

// `argument 0 own 0`
pub(crate) fn argument(c: Cursor, number: u64) -> Result<(Record, Cursor), Expected> {
    let c = c.literal(b"argument", Expected::Kind)?.own(number)?;
    let (source, c) = source(c)?;
    Ok((Record::Argument(Argument { source }), c))
}

// `connection 0 inv 1 0`
pub(crate) fn connection(c: Cursor, number: u64) -> Result<(Record, Cursor), Expected> {
    let c = c.literal(b"connection", Expected::Kind)?.own(number)?;
    let (source, c) = source(c)?;
    Ok((Record::Connection(source), c))
}
