// The lent table: "one row for each component: class, delay, port counts, first record". Thin functions that read a row, store one, and set all of them to zero.
#![tactic(auto)]

ghost use Rattle.std.specs.Prelude.{◌≡◌, ◌+◌, ◌<◌, length, set, get_or, replicate};
ghost use Rattle.signatures.specs.Rows.{zero_row};

// Class: 0 leaf, 1 built; a number and no enum, since the C interface has this row in `dansevik.h`, and a host in another language holds it.
#[repr(C)]
#[derive(Clone, Copy, Debug, Default, PartialEq, Eq)]
pub struct Signature {
    pub class: u16,
    pub delay: u16,
    pub inputs: u16,
    pub outputs: u16,
    pub first: u16,
}

pub fn row(table: &[Signature], i: usize) -> Signature
    requires { i < length table.now }
    ensures { result ≡ get_or table.now i zero_row }
{
    table[i]
}

pub fn store(table: &mut [Signature], i: usize, s: Signature)
    requires { i < length table.old }
    ensures { table.new ≡ set table.old i s }
{
    table[i] = s;
}

// "Every call, accepted or refused, sets all of them to zero."
pub fn clear(table: &mut [Signature])
    ensures { table.new ≡ replicate (length table.old) zero_row }
{
    table.fill(Signature::default());
}
