// The parts of one component, and when what they read is there.
#![tactic(auto)]

ghost use Rattle.std.specs.Prelude.{◌≡◌};
ghost use Rattle.std.specs.Option.{option_map};
ghost use Rattle.records.specs.Says as Says;
ghost use Rattle.parts.specs.Parts as Parts;
ghost use Rattle.parts.specs.Shown.{shown, used, cycles};

use crate::{Component, Interval, Kind, Use, is_of, next_component, nth_before};
use records::{Port, Record, Source};

impl<'a> Component<'a> {
    // Where in the list its own record stands.
    pub fn first(self) -> usize
        ensures { result ≡ (shown self.entry).first }
    {
        self.first
    }

    // Where in the list the n-th record of a kind stands.
    pub fn nth(self, kind: Kind, n: usize) -> Option<usize>
        ensures { result ≡ Parts.place (shown self.entry) kind n }
    {
        let behind = self.behind;
        Some(self.first + 1 + nth_before(behind, kind, n)?)
    }

    // How many records of a kind the component has.
    pub fn count(self, kind: Kind) -> usize
        ensures { result ≡ Parts.count kind (shown self.entry).body }
    {
        let behind = self.behind;
        let body = match next_component(behind) {
            Some(end) => &behind[..end],
            None => behind,
        };
        body.iter().filter(|bytes| is_of(bytes, kind)).count()
    }

    // Its input or output, by the kind, with this number.
    #[tactic(auto, unfolding(crate::specs::Parts::port))]
    pub fn port(self, kind: Kind, n: usize) -> Option<Port>
        ensures { option_map Says.port result ≡ Parts.port (shown self.entry) kind n }
    {
        match self.list.record(self.nth(kind, n)?)? {
            Record::Input(p) | Record::Output(p) => Some(p),
            _ => None,
        }
    }

    // The component that an instance names.
    #[tactic(auto, unfolding(crate::specs::Parts::named))]
    pub fn named(self, instance: usize) -> Option<Component<'a>>
        ensures { option_map shown result ≡ Parts.named (shown self.entry) instance }
    {
        match self.list.record(self.nth(Kind::Instance, instance)?)? {
            Record::Instance(c) => self.list.component(usize::from(c)),
            _ => None,
        }
    }

    #[tactic(auto, unfolding(crate::specs::Parts::invocation))]
    pub fn invocation(self, n: usize) -> Option<Use>
        ensures { option_map used result ≡ Parts.invocation (shown self.entry) n }
    {
        let record = self.nth(Kind::Invocation, n)?;
        match self.list.record(record)? {
            Record::Invocation(instance, offset) => Some(Use {
                instance,
                offset,
                record,
            }),
            _ => None,
        }
    }

    // "A constant is always available. An own input has its declared interval; an invocation's output the shifted one."
    #[tactic(auto, unfolding(crate::specs::Parts::declared))]
    fn declared(self, s: Source) -> Option<Interval>
        ensures { option_map cycles result ≡ Parts.declared (shown self.entry) (Says.source s) }
    {
        match s {
            Source::Own(i) => {
                let port = self.port(Kind::Input, usize::from(i))?;
                Some(Interval::of(port, 0))
            }
            Source::Output(j, o) => {
                let u = self.invocation(usize::from(j))?;
                let made = self.named(usize::from(u.instance))?;
                let port = made.port(Kind::Output, usize::from(o))?;
                Some(Interval::of(port, u.offset))
            }
            Source::Constant(_) => Some(Interval::ALWAYS),
        }
    }

    // When a source is there: never, where it is absent.
    pub fn available(self, s: Source) -> Interval
        ensures { cycles result ≡ Parts.available (shown self.entry) (Says.source s) }
    {
        self.declared(s).unwrap_or(Interval::NEVER)
    }

    // When what an argument or a connection record reads is there: never, where the record is none of these.
    #[tactic(auto, unfolding(crate::specs::Parts::reads))]
    pub fn reads(self, r: usize) -> Interval
        ensures { cycles result ≡ Parts.reads (shown self.entry) r }
    {
        match self.list.record(r) {
            Some(Record::Argument(a)) => self.available(a.source),
            Some(Record::Connection(s)) => self.available(s),
            _ => Interval::NEVER,
        }
    }

    // When what the argument of an invocation for an input reads is there: it stands behind the invocation, in the inputs' order.
    #[tactic(auto, using(crate::proofs::Behind::reads_saturating))]
    pub fn argued(self, u: Use, input: usize) -> Interval
        ensures { cycles result ≡ Parts.argued (shown self.entry) (used u) input }
    {
        self.reads(u.record.saturating_add(1).saturating_add(input))
    }

    // When what the connection of an output reads is there.
    pub fn connected(self, output: usize) -> Interval
        ensures { cycles result ≡ Parts.connected (shown self.entry) output }
    {
        match self.nth(Kind::Connection, output) {
            Some(r) => self.reads(r),
            None => Interval::NEVER,
        }
    }
}
