// What stands in a judged file under a record's number: an instance's component, an invocation's instance and offset, and where the
// instances and the connections of a component begin, and its instances and the component itself end.
#![tactic(auto)]

ghost use Rattle.std.specs.Prelude.{◌≡◌, ◌-◌, ◌*◌, ◌/◌, ◌≤◌, ◌<◌, length};
ghost use Rattle.reader.specs.Rows.{row, row_in};
ghost use Rattle.groups.specs.Groups.{Lies, first_number, second_number, past_ports, past_instances, end_of};

use numbers::Number;
use signatures::Signature;

// An invocation: the instance that it starts, and when.
#[derive(Clone, Copy)]
pub struct Call {
    pub instance: u16,
    pub offset: u16,
}

// A judged file, with the row of each of its components, five numbers to a row; and how many components and records it has.
// That the file is `Opened` is in the contracts and not in the type: a ghost field has to be a proposition, and that `Opened` is one was
// tried and did not close.
#[derive(Clone, Copy)]
pub struct Judged<'a> {
    pub file: &'a [u8],
    pub rows: &'a [u16; 320],
    pub components: usize,
    pub records: usize,
}

impl Judged<'_> {
    // The row of component c, in a table of 64.
    pub fn row(self, c: usize) -> Signature
        requires { c < 64 }
        ensures { row result ≡ row_in self.entry.rows.now c }
    {
        let rows = self.rows;
        reader::row_of(rows, c)
    }

    // The component in an instance record.
    pub fn component_at(self, i: usize) -> u16
        requires { Lies self.file.now i }
        ensures { result ≡ first_number self.entry.file.now i }
    {
        let file = self.file;
        look::first_number_at(file, i)
    }

    // The instance and the offset in an invocation record.
    pub fn call_at(self, i: usize) -> Call
        requires { Lies self.file.now i }
        ensures { (result.instance ≡ first_number self.entry.file.now i) × (result.offset ≡ second_number self.entry.file.now i) }
    {
        let file = self.file;
        let at = look::place_of(i);
        Call {
            instance: u16::read(file, at + 2),
            offset: u16::read(file, at + 4),
        }
    }

    // Where the instances of component c begin: behind its ports.
    pub fn past_ports(self, c: usize) -> usize
        requires { c < 64 }
        ensures { result ≡ past_ports (row_in self.entry.rows.now c) }
    {
        let w = self.row(c);
        usize::from(w.first) + 1 + usize::from(w.inputs) + usize::from(w.outputs)
    }

    // The first record from i on that is no instance: `look::kind_at` gives the record's byte, and the definition speaks of it.
    #[tactic(auto, using(crate::proofs::Past::instances_go_on, crate::proofs::Past::instances_stop, crate::proofs::Past::instances_end))]
    pub fn past_instances(self, i: usize) -> usize
        requires { (i ≤ self.records) × (self.records ≤ 3968) × (self.records ≤ 31 * (length self.file.now / 512)) }
        ensures { result ≡ past_instances self.entry.file.now (self.entry.records - i) i }
    {
        let file = self.file;
        for at in i..self.records {
            if look::kind_at(file, at) != 3 {
                return at;
            }
        }
        self.records
    }

    // The record at which component c ends: that of the next component, or where the file stops.
    #[tactic(auto, unfolding(crate::specs::Groups::end_of))]
    pub fn end_of(self, c: usize) -> usize
        requires { (self.components ≤ 64) × (c < self.components) }
        ensures { result ≡ end_of self.entry.rows.now self.entry.components self.entry.records c }
    {
        if c + 1 < self.components {
            return usize::from(self.row(c + 1).first);
        }
        self.records
    }

    // Where the connections of component c begin, which are its last records, one for each output.
    pub fn past_invocations(self, c: usize) -> usize
        requires { (c < self.components) × (self.components ≤ 64) × ((row_in self.rows.now c).outputs ≤ end_of self.rows.now self.components self.records c) }
        ensures { result ≡ end_of self.entry.rows.now self.entry.components self.entry.records c - (row_in self.entry.rows.now c).outputs }
    {
        self.end_of(c) - usize::from(self.row(c).outputs)
    }
}
