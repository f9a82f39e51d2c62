// Where a record stands in its list, and what stands around it.
use parts::{Component, Kind, List, Use};
use records::{Port, Record, Source};

// Of a record: the component that it stands in, and that component's number; the number of the invocation that it is or belongs to;
// for an argument or a connection its own number.
#[derive(Clone, Copy)]
pub struct Standing<'a> {
    pub record: Option<Record>,
    pub component: Option<Component<'a>>,
    pub number: usize,
    pub invocation: usize,
    pub port: usize,
}

// How many of the records from one up to another are of a kind, and the last of them.
fn counted(list: List<'_>, from: usize, upto: usize, kind: Kind) -> (usize, Option<usize>) {
    (from..upto)
        .filter(|i| list.kind(*i) == Some(kind))
        .fold((0, None), |(count, _): (usize, Option<usize>), i| {
            (count.saturating_add(1), Some(i))
        })
}

impl<'a> Standing<'a> {
    pub(crate) fn of(list: List<'a>, p: usize) -> Standing<'a> {
        let upto = p.min(list.len());
        let (components, first) = counted(list, 0, upto, Kind::Component);
        let from = first.unwrap_or(upto);
        let (calls, call) = counted(list, from, upto, Kind::Invocation);
        let (connections, _) = counted(list, from, upto, Kind::Connection);
        let argument = list.kind(p) == Some(Kind::Argument);
        Standing {
            record: list.record(p),
            component: first.and_then(|i| list.component_at(i)),
            number: components.saturating_sub(1),
            invocation: if argument {
                calls.saturating_sub(1)
            } else {
                calls
            },
            port: if argument {
                call.map_or(0, |call| p.saturating_sub(call).saturating_sub(1))
            } else {
                connections
            },
        }
    }

    // The component's delay; 0 where it stands in none.
    pub(crate) fn delay(self) -> u16 {
        self.component.map_or(0, |component| component.delay)
    }

    // What an argument or a connection reads.
    pub(crate) fn source(self) -> Option<Source> {
        match self.record? {
            Record::Argument(a) => Some(a.source),
            Record::Connection(source) => Some(source),
            _ => None,
        }
    }

    // The invocation that it is or belongs to.
    pub(crate) fn call(self) -> Option<Use> {
        self.component?.invocation(self.invocation)
    }

    // The component that an invocation invokes.
    fn invoked(self, j: usize) -> Option<Component<'a>> {
        let component = self.component?;
        let u = component.invocation(j)?;
        component.named(usize::from(u.instance))
    }

    // The offset of the invocation whose output a source is.
    pub(crate) fn offset_of(self, s: Source) -> Option<u16> {
        match s {
            Source::Output(j, _) => Some(self.component?.invocation(usize::from(j))?.offset),
            _ => None,
        }
    }

    // What a source gives.
    pub(crate) fn given(self, s: Source) -> Option<Port> {
        match s {
            Source::Own(i) => self.component?.port(Kind::Input, usize::from(i)),
            Source::Output(j, o) => {
                let made = self.invoked(usize::from(j))?;
                made.port(Kind::Output, usize::from(o))
            }
            Source::Constant(_) => None,
        }
    }

    // What reads it: the invoked component's input, or the own output.
    pub(crate) fn asked(self) -> Option<Port> {
        match self.record {
            Some(Record::Argument(_)) => {
                let made = self.invoked(self.invocation)?;
                made.port(Kind::Input, self.port)
            }
            _ => self.component?.port(Kind::Output, self.port),
        }
    }
}
