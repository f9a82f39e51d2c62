// A built component of a judged file: where its records stand, how many states it has, and the control rows of its invocations.
#![tactic(auto)]

ghost use Rattle.std.specs.Prelude.{◌≡◌, ◌-◌, ◌*◌, ◌≤◌, ◌<◌, length, false, MatchOption};
ghost use Rattle.std.specs.Iterator.{at_most};
ghost use Rattle.timetable.specs.States.{states};
ghost use Rattle.timetable.specs.Bytes.{rows_bytes};
ghost use Rattle.groups.specs.Groups.{design_of, Opened};
ghost use Rattle.control.specs.Stands.{can_lower, design, called, rows_called, Stands, Begins, UseOf, MayCall, Gives};

use groups::Judged;
use rows::Use;
use signatures::Signature;

// A built component of a judged file: its number, its row in the table, and the record at which each of its groups begins.
// `Stands` is in the contracts and not a ghost field, since the fact of such a field must have one proof at most, and no proof of that is
// found where `Lawful` goes by cases (`SourceRange`). As `∥ .. ∥₁` each proof about these methods would have to take it out first.
#[derive(Clone, Copy)]
pub struct Built<'a> {
    pub judged: Judged<'a>,
    pub number: usize,
    pub row: Signature,
    pub instances: usize,
    pub invocations: usize,
    pub connections: usize,
}

// The invocations of a built component, one after another: the number of the next, and that of its record.
#[derive(Drop)]
struct Uses<'a> {
    of: Built<'a>,
    number: u16,
    record: usize,
}

impl Iterator for Uses<'_> {
    type Item = Use;

    ghost can_next = { MayCall };

    ghost next_gives = { Gives };

    ghost remaining = { λ s. at_most (s.of.connections - s.record) };

    fn next(&mut self) -> Option<Use> {
        let of = self.of;
        if self.record >= of.connections {
            return None;
        }
        let u = of.use_at(self.number, self.record);
        self.record += 1 + usize::from(u.inputs);
        self.number += 1;
        Some(u)
    }
}

impl<'a> Built<'a> {
    // Invocation j, whose record is number i.
    fn use_at(self, j: u16, i: usize) -> Use
        requires { Stands self × Begins self j i × (i < self.connections) }
        ensures { UseOf (design self.entry) self.entry.number j result }
    {
        let judged = self.judged;
        let call = judged.call_at(i);
        let component = judged.component_at(self.instances + usize::from(call.instance));
        let row = judged.row(usize::from(component));
        Use {
            number: j,
            // a record number, which is below 3,968
            record: i as u16,
            instance: call.instance,
            offset: call.offset,
            inputs: row.inputs,
            outputs: row.outputs,
            first: row.first,
        }
    }

    // Its invocations.
    fn uses(self) -> Uses<'a>
        requires { Stands self }
        ensures { MayCall result × (result.of ≡ self.entry) × (result.number ≡ 0) × (result.record ≡ self.entry.invocations) }
    {
        Uses {
            of: self,
            number: 0,
            record: self.invocations,
        }
    }

    // "n is the greatest of 1, every own port's end, every k+1, and every k+e over all ports of its invocations."
    pub fn states(self) -> u16
        requires { Stands self }
        ensures { result ≡ states (design self.entry) self.entry.number }
    {
        let file = self.judged.file;
        let row = self.row;
        let mut most = rows::lasting(file, row.first, row.inputs + row.outputs);
        for u in self.uses() {
            most = most.max(u.offset + rows::lasting(file, u.first, u.inputs + u.outputs));
        }
        most
    }

    // The rows of all invocations.
    pub fn put_invocations(self, out: &mut [u8])
        requires { Stands self × (length out.old ≡ 16 * (self.connections - self.invocations)) }
        ensures { out.new ≡ rows_bytes (rows_called self.entry (called self.entry)) }
    {
        let file = self.judged.file;
        for u in self.uses() {
            let at = 16 * (usize::from(u.record) - self.invocations);
            rows::put_invocation(file, u, &mut out[at..at + 16 + 16 * usize::from(u.inputs)]);
        }
    }

    // Component c, if it is there and built, and where the groups of its records begin.
    #[tactic(auto, using(crate::proofs::Found::leaf_there))]
    pub fn at(judged: Judged<'a>, c: usize) -> Option<Built<'a>>
        requires { Opened judged.file.now judged.rows.now judged.records × (judged.components ≡ length (design_of judged.file.now judged.records)) }
        ensures { MatchOption result (can_lower (design_of judged.entry.file.now judged.entry.records) c ≡ false) (λ b. Stands b × (b.judged ≡ judged.entry) × (b.number ≡ c)) }
    {
        if c >= judged.components {
            return None;
        }
        let row = judged.row(c);
        if row.class == 0 {
            return None;
        }
        let instances = judged.past_ports(c);
        Some(Built {
            judged,
            number: c,
            row,
            instances,
            invocations: judged.past_instances(instances),
            connections: judged.past_invocations(c),
        })
    }
}
