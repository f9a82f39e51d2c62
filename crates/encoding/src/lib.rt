// A record as its sixteen bytes: what `records::decode` undoes.
#![tactic(auto)]

ghost use Rattle.std.specs.Prelude.{◌≡◌};
ghost use Rattle.records.specs.Says as Says;
ghost use Rattle.encoding.specs.Spelled.{with_fields, with_constant, with_source, with_port, spelled};

use numbers::Number;
use records::{Port, Record, Source};

// A record of this kind with byte 1, the numbers in bytes 2–3 and 4–5, and byte 6. The kind is byte 0, as document 01 numbers the kinds:
// an enum would be turned into it here and nowhere else.
fn with_fields(kind: u8, one: u8, x: u16, y: u16, six: u8) -> [u8; 16]
    ensures { result ≡ with_fields kind one x y six }
{
    let [x0, x1] = x.to_le_bytes();
    let [y0, y1] = y.to_le_bytes();
    [kind, one, x0, x1, y0, y1, six, 0, 0, 0, 0, 0, 0, 0, 0, 0]
}

// "Kind 2: bytes 8–15 the constant."
fn with_constant(kind: u8, v: u64) -> [u8; 16]
    ensures { result ≡ with_constant kind v }
{
    let mut record = [kind, 2, 0, 0, 0, 0, 0, 0, 0, 0, 0, 0, 0, 0, 0, 0];
    v.write(&mut record[8..]);
    record
}

fn with_source(kind: u8, s: Source) -> [u8; 16]
    ensures { result ≡ with_source kind (Says.source s) }
{
    match s {
        Source::Own(i) => with_fields(kind, 0, i, 0, 0),
        Source::Output(j, o) => with_fields(kind, 1, j, o, 0),
        Source::Constant(v) => with_constant(kind, v),
    }
}

fn with_port(side: u8, p: Port) -> [u8; 16]
    ensures { result ≡ with_port side (Says.port p) }
{
    with_fields(2, side, p.start, p.end, p.width)
}

// The sixteen bytes of a record; zeros, which are no record either, for a wrong one.
#[tactic(auto, using(crate::proofs::Sources::source_spelled), unfolding(records::specs::Encoded::encoded))]
pub fn encode(x: Record) -> [u8; 16]
    ensures { result ≡ spelled (Says.says x) }
{
    match x {
        Record::Component(class, delay) => with_fields(1, class as u8, delay, 0, 0),
        Record::Input(p) => with_port(0, p),
        Record::Output(p) => with_port(1, p),
        Record::Instance(component) => with_fields(3, 0, component, 0, 0),
        Record::Invocation(instance, offset) => with_fields(4, 0, instance, offset, 0),
        Record::Argument(a) => with_source(5, a.source),
        Record::Connection(s) => with_source(6, s),
        Record::Wrong => [0; 16],
    }
}
