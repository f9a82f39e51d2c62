// What a refusal says is wrong.
ghost use Rattle.std.specs.Prelude.{◌≡◌};
ghost use Rattle.answers.specs.Fault.{number};

// The refusals of document 01's table, each by its name and with its number. The number is written here for the code, in
// `specs/Fault.antt` for what is promised, and nowhere else in these crates: the proofs hold the two together.
#[derive(Clone, Copy, Debug, PartialEq, Eq)]
pub enum Fault {
    // A length that is not allowed.
    Length = 1,
    // A block's check differs.
    Check = 2,
    // A block's header, an unused slot or spare bytes differ.
    Header = 3,
    // Kind, range or zero byte wrong in a record.
    Record = 4,
    // A record not allowed at its place, or a file that ends in an incomplete component.
    Place = 5,
    // One of a kind too many.
    TooMany = 6,
    // What a record names is absent.
    Reference = 7,
    // Source and reader not equally wide.
    Width = 8,
    // A port's interval longer than its component's delay.
    Interval = 9,
    // Two invocations of one instance too close.
    Spacing = 10,
    // The invocations of one instance spread too far.
    Span = 11,
    // A source not available as long as it is required.
    Reading = 12,
    // A lent buffer too short, or a flat limit passed.
    Room = 13,
    // The component or record asked for is absent, or a leaf is to be lowered.
    Absent = 14,
}

impl Fault {
    // Its number in the table.
    pub fn number(self) -> u8
        ensures { result ≡ number self }
    {
        self as u8
    }
}
