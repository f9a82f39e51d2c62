// The parts of a component in a list of records, whatever the verdict on it: nothing is assumed of the records' order or numbers, and
// what is not there is answered so.
#![tactic(auto)]

ghost use Rattle.std.specs.Prelude.{◌≡◌, ◌-◌, ◌<◌, ◌≤◌, length, position, IfSome};
ghost use Rattle.records.specs.Decoded.{decoded};
ghost use Rattle.parts.specs.Parts as Parts;

mod counted;
mod inside;
mod interval;
mod kind;

pub use interval::Interval;
pub use kind::Kind;
use records::Class;

// No list has more records: what stands behind them is not looked at.
const MOST: usize = 3968;

fn kind_of(bytes: &[u8; 16]) -> Option<Kind>
    ensures { result ≡ Parts.kind (decoded bytes.now) }
{
    Kind::of(records::decode(bytes))
}

#[tactic(auto, unfolding(crate::specs::Parts::is_of))]
fn is_of(bytes: &[u8; 16], kind: Kind) -> bool
    ensures { result ≡ Parts.is_of kind bytes.now }
{
    kind_of(bytes) == Some(kind)
}

// Where the n-th record of a kind stands.
#[tactic(auto, using(crate::proofs::Places::search_stops, crate::proofs::Places::search_passes, crate::proofs::Places::search_counts, crate::proofs::Places::search_ends))]
fn nth(records: &[[u8; 16]], kind: Kind, n: usize) -> Option<usize>
    ensures place { result ≡ Parts.nth kind n records.now }
    ensures inside { IfSome result (λ i. i < length records.now) }
{
    let mut left = n;
    for (i, bytes) in records.iter().enumerate() {
        if is_of(bytes, kind) {
            if left == 0 {
                return Some(i);
            }
            left -= 1;
        }
    }
    None
}

// Where the n-th record of a kind stands before the next component.
#[tactic(auto, using(crate::proofs::Before::here_stops, crate::proofs::Before::here_found, crate::proofs::Before::here_counts, crate::proofs::Before::here_passes, crate::proofs::Before::here_ends), unfolding(crate::specs::Parts::is_of))]
fn nth_before(records: &[[u8; 16]], kind: Kind, n: usize) -> Option<usize>
    ensures place { result ≡ Parts.nth kind n (Parts.up_to (position (Parts.is_of Kind.Component) records.now) records.now) }
    ensures inside { IfSome result (λ i. i < length records.now) }
{
    let mut skip = n;
    for (i, bytes) in records.iter().enumerate() {
        let here = kind_of(bytes);
        if here == Some(Kind::Component) {
            return None;
        }
        if here == Some(kind) {
            if skip == 0 {
                return Some(i);
            }
            skip -= 1;
        }
    }
    None
}

// Where the next component stands.
fn next_component(records: &[[u8; 16]]) -> Option<usize>
    ensures place { result ≡ position (Parts.is_of Kind.Component) records.now }
    ensures inside { IfSome result (λ i. i < length records.now) }
{
    records
        .iter()
        .position(|bytes| is_of(bytes, Kind::Component))
}

#[derive(Clone, Copy)]
pub struct List<'a> {
    records: &'a [[u8; 16]],
    ghost most: { length records.now ≤ 3968 },
}

// The number of the last component; 0 where there is none.
pub fn last(list: &[u8]) -> usize
    ensures { result ≡ Parts.count Kind.Component (Parts.records list.now) - 1 }
{
    List::of(list).components().saturating_sub(1)
}

// A component: its class and its delay, as its own record says, and the records behind that one, of which it has those before the next
// component. Where that one stands is left to each look, since most stop earlier.
#[derive(Clone, Copy)]
pub struct Component<'a> {
    list: List<'a>,
    first: usize,
    behind: &'a [[u8; 16]],
    pub class: Class,
    pub delay: u16,
    ghost first_small: { first < 3968 },
    ghost behind_small: { length behind.now ≤ 3968 },
}

// An invocation: its instance, its offset, and its record.
#[derive(Clone, Copy)]
pub struct Use {
    pub instance: u16,
    pub offset: u16,
    pub record: usize,
}
