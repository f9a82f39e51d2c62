// The numbers that follow from a record's place.
#![tactic(auto)]

ghost use Rattle.std.specs.Prelude.{◌≡◌};
ghost use Rattle.places.specs.Places.{at_first, number_of, after};
ghost use Rattle.places.specs.Places.{more as one_more};

use records::Record;

// How many of each kind stand before: components in the file, arguments in the present invocation, all others in the present component.
#[derive(Clone, Copy, Debug, Default, PartialEq, Eq)]
pub struct Place {
    pub components: u64,
    pub inputs: u64,
    pub outputs: u64,
    pub instances: u64,
    pub invocations: u64,
    pub arguments: u64,
    pub connections: u64,
}

// One more, but no more than the last number that two bytes hold; what is past it already stays, so that no minimum says it.
fn more(n: u64) -> u64
    ensures { result ≡ one_more n }
{
    if n < 65535 { n + 1 } else { n }
}

impl Place {
    pub fn first() -> Place
        ensures { result ≡ at_first }
    {
        Place::default()
    }

    // The number of a record that stands here.
    pub fn number_of(self, x: Record) -> u64
        ensures { result ≡ number_of self x }
    {
        match x {
            Record::Component(..) => self.components,
            Record::Input(_) => self.inputs,
            Record::Output(_) => self.outputs,
            Record::Instance(_) => self.instances,
            Record::Invocation(..) => self.invocations,
            Record::Argument(_) => self.arguments,
            Record::Connection(_) => self.connections,
            Record::Wrong => 0,
        }
    }

    // The place behind it.
    pub fn after(self, x: Record) -> Place
        ensures { result ≡ after self x }
    {
        match x {
            Record::Component(..) => Place {
                components: more(self.components),
                ..Place::first()
            },
            Record::Input(_) => Place {
                inputs: more(self.inputs),
                ..self
            },
            Record::Output(_) => Place {
                outputs: more(self.outputs),
                ..self
            },
            Record::Instance(_) => Place {
                instances: more(self.instances),
                ..self
            },
            Record::Invocation(..) => Place {
                invocations: more(self.invocations),
                arguments: 0,
                ..self
            },
            Record::Argument(_) => Place {
                arguments: more(self.arguments),
                ..self
            },
            Record::Connection(_) => Place {
                connections: more(self.connections),
                ..self
            },
            Record::Wrong => self,
        }
    }
}
