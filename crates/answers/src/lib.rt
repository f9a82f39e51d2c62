// What every function answers: its values, or the first refusal with its position.
// `answer` of `specs/Answer.antt` gives document 01's values, or the number and position of the refusal, and all contracts speak through it.
#![tactic(auto)]

ghost use Rattle.std.specs.Prelude.{◌≡◌, Some};
ghost use Rattle.answers.specs.Shown.{refusal_text};

mod fault;

pub use fault::Fault;
use std::error::Error;
use std::fmt;

// A refusal: what is wrong, and where (a block, a record, an asked number, or 0).
#[derive(Clone, Copy, Debug, PartialEq, Eq)]
pub struct Refusal {
    pub fault: Fault,
    pub position: usize,
}

impl Refusal {
    // The one maker of refusals.
    pub fn at(fault: Fault, position: usize) -> Refusal
        ensures { result ≡ record { fault = fault; position = position } }
    {
        Refusal { fault, position }
    }
}

// "A refusal prints only `refused 11 at 12`, with its numbers."
impl fmt::Display for Refusal {
    ghost output = { λ r. Some (refusal_text r) };

    fn fmt<W: fmt::Write>(&self, f: &mut fmt::Formatter<W>) -> fmt::Result {
        let number = self.fault.number();
        let position = self.position;
        write!(f, "refused {number} at {position}")
    }
}

impl Error for Refusal {}

// What the verdict on an accepted file says: how many components and records it has.
#[derive(Clone, Copy, Debug, PartialEq, Eq)]
pub struct Counts {
    pub components: usize,
    pub records: usize,
}
