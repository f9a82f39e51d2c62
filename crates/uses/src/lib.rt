// The uses of one component's instances, and when what they read is there: what its picture is drawn from.
#![tactic(auto)]

ghost use Rattle.std.specs.Prelude.{◌≡◌, ℕ, ◌<◌, None};
ghost use Rattle.std.specs.List.{list_any, slice_index_or};
ghost use Rattle.std.specs.Option.{option_map};
ghost use Rattle.parts.specs.Parts as Parts;
ghost use Rattle.parts.specs.Shown.{shown, used, cycles};
ghost use Rattle.uses.specs.Seen as Seen;

use parts::{Component, Interval, Kind, Use};

// A use at the start alone, of instance 0: so a component's own ports are used.
pub fn once() -> Use
    ensures { used result ≡ Seen.once }
{
    Use {
        instance: 0,
        offset: 0,
        record: 0,
    }
}

// The greatest end of a component's ports, of which there are at most 16 inputs and 16 outputs.
#[tactic(auto, using(crate::proofs::Ends::ends_none, crate::proofs::Ends::ends_more))]
pub fn ports_end(component: Component<'_>) -> u16
    ensures { result ≡ Seen.ports_end (shown component.entry) }
{
    let mut end = 0;
    for n in 0..16 {
        let input = component.port(Kind::Input, n).map_or(0, |p| p.end);
        let output = component.port(Kind::Output, n).map_or(0, |p| p.end);
        end = end.max(input).max(output);
    }
    end
}

// A component with its first 64 invocations, each in its place.
#[derive(Clone, Copy)]
pub struct Uses<'a> {
    pub component: Component<'a>,
    pub invocations: [Option<Use>; 64],
}

impl<'a> Uses<'a> {
    pub fn of(component: Component<'a>) -> Uses<'a>
        ensures whole { shown result.component ≡ shown component.entry }
        ensures each { (j : ℕ) → j < 64 → option_map used (slice_index_or result.invocations j None) ≡ Parts.invocation (shown component.entry) j }
    {
        // A `for`, since with `array::from_fn` the clause `each` did not prove.
        let mut invocations = [None; 64];
        for j in 0..64 {
            invocations[j] = component.invocation(j);
        }
        Uses {
            component,
            invocations,
        }
    }

    // Whether this instance is ever used.
    pub fn invoke(&self, instance: u16) -> bool
        ensures { result ≡ list_any (Seen.is_of instance) self.now.invocations }
    {
        self.invocations
            .iter()
            .any(|used| matches!(used, Some(u) if u.instance == instance))
    }

    // When what an invocation gives to an input of an instance is there: never, where it is of another instance.
    fn argument(&self, used: Option<Use>, instance: u16, input: usize) -> Interval
        ensures { cycles result ≡ Seen.argument (shown self.now.component) instance input used }
    {
        match used {
            Some(u) if u.instance == instance => self.component.argued(u, input),
            _ => Interval::NEVER,
        }
    }

    // For an input of an instance: when the argument of each use is there.
    pub fn arguments(&self, instance: u16, input: usize) -> [Interval; 64]
        ensures { (j : ℕ) → j < 64 → Seen.time result j ≡ Seen.argument (shown self.now.component) instance input (slice_index_or self.now.invocations j None) }
    {
        // A `for`, since with the array's `map` the clause did not prove.
        let mut there = [Interval::NEVER; 64];
        for j in 0..64 {
            there[j] = self.argument(self.invocations[j], instance, input);
        }
        there
    }

    // How long an invocation of an instance is seen.
    fn reach(&self, instance: u16) -> u16
        ensures { result ≡ Seen.reach (shown self.now.component) instance }
    {
        match self.component.named(usize::from(instance)) {
            Some(made) => made.delay.max(ports_end(made)),
            None => 0,
        }
    }

    // The cycle until which an invocation is seen.
    fn seen(&self, used: Option<Use>) -> u16
        ensures { result ≡ Seen.seen (shown self.now.component) used }
    {
        match used {
            Some(u) => u.offset.saturating_add(self.reach(u.instance)),
            None => 0,
        }
    }

    // How many cycles the first start is seen for, and the next one, `delay` cycles later.
    pub fn cycles(&self) -> u16
        ensures { result ≡ Seen.cycles (shown self.now.component) self.now.invocations }
    {
        self.invocations
            .iter()
            .fold(1, |last: u16, used| last.max(self.seen(*used)))
            .max(ports_end(self.component))
            .saturating_add(self.component.delay)
    }
}
