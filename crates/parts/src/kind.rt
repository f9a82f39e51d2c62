// The kinds of records.
ghost use Rattle.std.specs.Prelude.{◌≡◌};
ghost use Rattle.records.specs.Says.{says};
ghost use Rattle.parts.specs.Parts.{kind};

use records::Record;
use std::fmt;

#[derive(Clone, Copy, Debug, PartialEq, Eq)]
pub enum Kind {
    Component,
    Input,
    Output,
    Instance,
    Invocation,
    Argument,
    Connection,
}

impl Kind {
    // None for bytes that are no record.
    pub fn of(x: Record) -> Option<Kind>
        ensures { result ≡ kind (says x) }
    {
        match x {
            Record::Component(_, _) => Some(Kind::Component),
            Record::Input(_) => Some(Kind::Input),
            Record::Output(_) => Some(Kind::Output),
            Record::Instance(_) => Some(Kind::Instance),
            Record::Invocation(_, _) => Some(Kind::Invocation),
            Record::Argument(_) => Some(Kind::Argument),
            Record::Connection(_) => Some(Kind::Connection),
            Record::Wrong => None,
        }
    }
}

// As the rules call it.
impl fmt::Display for Kind {
    fn fmt<W: fmt::Write>(&self, f: &mut fmt::Formatter<W>) -> fmt::Result {
        f.pad(match self {
            Kind::Component => "component",
            Kind::Input => "input",
            Kind::Output => "output",
            Kind::Instance => "instance",
            Kind::Invocation => "invocation",
            Kind::Argument => "argument",
            Kind::Connection => "connection",
        })
    }
}
