// A list of records, and the components in it.
#![tactic(auto)]

ghost use Rattle.std.specs.Prelude.{◌≡◌, ◌≤◌, length};
ghost use Rattle.std.specs.Option.{option_map, option_and_then};
ghost use Rattle.records.specs.Says.{says};
ghost use Rattle.parts.specs.Parts as Parts;
ghost use Rattle.parts.specs.Shown.{listed, shown};

use crate::{Component, Kind, List, MOST, is_of, nth};
use records::Record;

impl<'a> List<'a> {
    pub fn of(bytes: &'a [u8]) -> List<'a>
        ensures { listed result ≡ Parts.records bytes.now }
    {
        let (records, _) = bytes.as_chunks::<16>();
        let records = &records[..records.len().min(MOST)];
        List { records }
    }

    // How many records the list has.
    pub fn len(self) -> usize
        ensures bounded { result ≤ 3968 }
        ensures all { result ≡ length (listed self.entry) }
    {
        let records = self.records;
        records.len()
    }

    // Record i: none where the list ends before it, a wrong one where its bytes are no record.
    pub fn record(self, i: usize) -> Option<Record>
        ensures { option_map says result ≡ Parts.record_at (listed self.entry) i }
    {
        let records = self.records;
        let bytes = records.get(i)?;
        Some(records::decode(bytes))
    }

    pub fn kind(self, i: usize) -> Option<Kind>
        ensures { result ≡ option_and_then Parts.kind (Parts.record_at (listed self.entry) i) }
    {
        Kind::of(self.record(i)?)
    }

    // The component whose own record is record i.
    #[tactic(auto, unfolding(crate::specs::Parts::component_at))]
    pub fn component_at(self, i: usize) -> Option<Component<'a>>
        ensures { option_map shown result ≡ Parts.component_at (listed self.entry) i }
    {
        let records = self.records;
        if i >= records.len() {
            return None;
        }
        let Record::Component(class, delay) = records::decode(&records[i]) else {
            return None;
        };
        Some(Component {
            list: self,
            first: i,
            behind: &records[i + 1..],
            class,
            delay,
        })
    }

    // Component c, counted over the list.
    #[tactic(auto, unfolding(crate::specs::Parts::component))]
    pub fn component(self, c: usize) -> Option<Component<'a>>
        ensures { option_map shown result ≡ Parts.component (listed self.entry) c }
    {
        let records = self.records;
        self.component_at(nth(records, Kind::Component, c)?)
    }

    // How many components the list has.
    pub fn components(self) -> usize
        ensures { result ≡ Parts.count Kind.Component (listed self.entry) }
    {
        let records = self.records;
        records
            .iter()
            .filter(|bytes| is_of(bytes, Kind::Component))
            .count()
    }
}
