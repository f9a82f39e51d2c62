// One record: sixteen bytes, decoded.
#![tactic(auto)]

ghost use Rattle.std.specs.Prelude.{◌≡◌, ◌≤◌, Some, drop};
ghost use Rattle.numbers.specs.Numbers.{all_zero};
ghost use Rattle.records.specs.Decoded.{component_in, port_in, instance_in, invocation_in, source_in, decoded};
ghost use Rattle.records.specs.Shown.{class_text, port_text, source_text};
ghost use Rattle.records.specs.Says.{says, says_source};

use numbers::Number;
use std::fmt;

// As byte 1 of a component record numbers them.
#[derive(Clone, Copy, Debug, PartialEq, Eq)]
pub enum Class {
    Leaf = 0,
    Built = 1,
}

impl fmt::Display for Class {
    ghost output = { λ x. Some (class_text x) };

    fn fmt<W: fmt::Write>(&self, f: &mut fmt::Formatter<W>) -> fmt::Result {
        f.write_str(match self {
            Class::Leaf => "leaf",
            Class::Built => "built",
        })
    }
}

// The cycles from `start` up to `end` after the event, and so many bits.
#[derive(Clone, Copy, Debug, Default, PartialEq, Eq)]
pub struct Port {
    pub start: u16,
    pub end: u16,
    pub width: u8,
}

impl fmt::Display for Port {
    ghost output = { λ x. Some (port_text x) };

    fn fmt<W: fmt::Write>(&self, f: &mut fmt::Formatter<W>) -> fmt::Result {
        let Port { start, end, width } = *self;
        write!(f, "[{start}, {end}) width {width}")
    }
}

// Where a value comes from.
#[derive(Clone, Copy, Debug, PartialEq, Eq)]
pub enum Source {
    // an own input
    Own(u16),
    // of an invocation, an output
    Output(u16, u16),
    Constant(u64),
}

impl fmt::Display for Source {
    ghost output = { λ x. Some (source_text x) };

    fn fmt<W: fmt::Write>(&self, f: &mut fmt::Formatter<W>) -> fmt::Result {
        match *self {
            Source::Own(input) => write!(f, "own {input}"),
            Source::Output(invocation, output) => write!(f, "inv {invocation} {output}"),
            Source::Constant(value) => write!(f, "const {value}"),
        }
    }
}

// What an input of an invocation is given.
#[derive(Clone, Copy, Debug, PartialEq, Eq)]
pub struct Argument {
    pub source: Source,
}

#[derive(Clone, Copy, Debug, PartialEq, Eq)]
pub enum Record {
    // the class and the delay
    Component(Class, u16),
    Input(Port),
    Output(Port),
    // the component that it is an instance of
    Instance(u16),
    // its instance and its offset
    Invocation(u16, u16),
    Argument(Argument),
    Connection(Source),
    // Refusal 4: kind, range or zero byte wrong. It stands as a record, and no `Option` is around the others, since a wrong record
    // has its number like any other: it is counted, printed and refused at its place by the same matches. And the theory's record has
    // this case (`wrong` of `entry/specs/Records.antt`).
    Wrong,
}

// Whether the bytes from `at` to the end are zero: as two whole numbers, of which the first may reach into the second.
#[tactic(auto, using(crate::proofs::Zeros::zero_from))]
fn zero_from(s: &[u8; 16], at: usize) -> bool
    requires { at ≤ 8 }
    ensures { result ≡ all_zero (drop at s.now) }
{
    (u64::read(s, at) == 0) & (u64::read(s, 8) == 0)
}

fn component_of(s: &[u8; 16]) -> Record
    ensures { says result ≡ component_in s.now }
{
    let delay = u16::read(s, 2);
    if (1 <= delay) & (delay <= 1024) & zero_from(s, 4) {
        match s[1] {
            0 => Record::Component(Class::Leaf, delay),
            1 => Record::Component(Class::Built, delay),
            _ => Record::Wrong,
        }
    } else {
        Record::Wrong
    }
}

fn port_of(s: &[u8; 16]) -> Record
    ensures { says result ≡ port_in s.now }
{
    let start = u16::read(s, 2);
    let end = u16::read(s, 4);
    let width = s[6];
    if (start < end) & (end <= 1024) & (1 <= width) & (width <= 64) & zero_from(s, 7) {
        let port = Port { start, end, width };
        match s[1] {
            0 => Record::Input(port),
            1 => Record::Output(port),
            _ => Record::Wrong,
        }
    } else {
        Record::Wrong
    }
}

fn instance_of(s: &[u8; 16]) -> Record
    ensures { says result ≡ instance_in s.now }
{
    let component = u16::read(s, 2);
    if (s[1] == 0) & (component < 64) & zero_from(s, 4) {
        Record::Instance(component)
    } else {
        Record::Wrong
    }
}

fn invocation_of(s: &[u8; 16]) -> Record
    ensures { says result ≡ invocation_in s.now }
{
    let instance = u16::read(s, 2);
    let offset = u16::read(s, 4);
    if (s[1] == 0) & (instance < 32) & (offset < 1024) & zero_from(s, 6) {
        Record::Invocation(instance, offset)
    } else {
        Record::Wrong
    }
}

fn source_of(s: &[u8; 16]) -> Option<Source>
    ensures { says_source result ≡ source_in s.now }
{
    let a = u16::read(s, 2);
    let b = u16::read(s, 4);
    match s[1] {
        0 if (a < 16) & zero_from(s, 4) => Some(Source::Own(a)),
        1 if (a < 64) & (b < 16) & zero_from(s, 6) => Some(Source::Output(a, b)),
        2 if (a == 0) & (u32::read(s, 4) == 0) => Some(Source::Constant(u64::read(s, 8))),
        _ => None,
    }
}

// What sixteen bytes say; any other number of bytes is wrong.
#[tactic(auto, unfolding(crate::specs::Decoded::decoded))]
pub fn decode(s: &[u8]) -> Record
    ensures { says result ≡ decoded s.now }
{
    let Ok(s) = <&[u8; 16]>::try_from(s) else {
        return Record::Wrong;
    };
    match s[0] {
        1 => component_of(s),
        2 => port_of(s),
        3 => instance_of(s),
        4 => invocation_of(s),
        5 => source_of(s).map_or(
            Record::Wrong,
            |source| Record::Argument(Argument { source }),
        ),
        6 => source_of(s).map_or(Record::Wrong, Record::Connection),
        _ => Record::Wrong,
    }
}
