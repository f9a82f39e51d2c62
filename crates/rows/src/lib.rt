// The rows of one invocation and of own outputs, written as bytes; and the latest end of ports.
#![tactic(auto)]

ghost use Rattle.std.specs.Prelude.{◌≡◌, ℕ, ◌+◌, ◌-◌, ◌*◌, ◌≤◌, ◌<◌, max, length};
ghost use Rattle.timetable.specs.Rows as Timetable;
ghost use Rattle.timetable.specs.Rows.{numbers};
ghost use Rattle.timetable.specs.Lists.{list_below};
ghost use Rattle.timetable.specs.Bytes.{row_bytes, rows_bytes};
ghost use Rattle.rows.specs.Rows.{says, Makes, latest, lasting, invocation_rows, output_rows, InRange};

use numbers::Number;

// A row of a lowered component: of its register, that starts an invocation, that guards an input of one, and of an own output.
#[derive(Clone, Copy)]
pub enum Row {
    Register {
        delay: u16,
        states: u16,
    },
    Go {
        invocation: u16,
        instance: u16,
        state: u16,
    },
    Guard {
        invocation: u16,
        port: u16,
        first: u16,
        last: u16,
        argument: u16,
    },
    Out {
        port: u16,
        connection: u16,
    },
}

impl Row {
    // "Eight 16-bit numbers, zero filled."
    #[tactic(auto, unfolding(timetable::specs::Rows::numbers))]
    fn numbers(self) -> [u16; 8]
        ensures { result ≡ numbers (says self) }
    {
        match self {
            Row::Register { delay, states } => [1, delay, states, 0, 0, 0, 0, 0],
            Row::Go {
                invocation,
                instance,
                state,
            } => [2, invocation, instance, state, 0, 0, 0, 0],
            Row::Guard {
                invocation,
                port,
                first,
                last,
                argument,
            } => [3, invocation, port, first, last, argument, 0, 0],
            Row::Out { port, connection } => [4, port, connection, 0, 0, 0, 0, 0],
        }
    }

    // Its sixteen bytes.
    #[tactic(auto, using(crate::proofs::Laws::numbers_more, crate::proofs::Laws::numbers_all))]
    pub fn write(self, out: &mut [u8])
        requires { length out.old ≡ 16 }
        ensures { out.new ≡ row_bytes (says self) }
    {
        let numbers = self.numbers();
        for (i, number) in numbers.iter().enumerate() {
            number.write(&mut out[2 * i..2 * i + 2]);
        }
    }
}

// An invocation: its number and its record's, its instance and offset; of the component that it invokes, the port counts and the component record.
#[derive(Clone, Copy)]
pub struct Use {
    pub number: u16,
    pub record: u16,
    pub instance: u16,
    pub offset: u16,
    pub inputs: u16,
    pub outputs: u16,
    pub first: u16,
}

// The latest end of n ports from record i on, and 0 of none.
#[tactic(auto, using(crate::proofs::Laws::latest_more), unfolding(crate::specs::Rows::latest))]
fn latest(file: &[u8], i: u16, n: u16) -> u16
    requires { i + n < 65536 }
    ensures { result ≡ latest file.now i n }
{
    let mut most = 0;
    for p in 0..n {
        most = most.max(look::port_at(file, usize::from(i + p)).end);
    }
    most
}

// How long a component lasts whose component record is number i and which has n ports: to the latest end of a port, and at least 1.
#[tactic(auto, unfolding(crate::specs::Rows::lasting))]
pub fn lasting(file: &[u8], i: u16, n: u16) -> u16
    requires { i + 1 + n < 65536 }
    ensures { result ≡ lasting file.now i n }
{
    u16::max(1, latest(file, i + 1, n))
}

// The rows that `row` makes of 0 up to n, one behind the other.
fn put_each<F: Fn(u16) -> Row>(n: u16, row: F, out: &mut [u8])
    requires may { (i : ℕ) → i < n → F.pre row i }
    requires room { length out.old ≡ 16 * n }
    ensures { (f : ℕ → Timetable.Row) → Makes (F.post row) n f → out.new ≡ rows_bytes (list_below n f) }
{
    for i in 0..n {
        let at = 16 * usize::from(i);
        row(i).write(&mut out[at..at + 16]);
    }
}

// The rows of an invocation: "(2, invocation, instance, k), then for each input (3, invocation, port, k+s, k+e−1, argument's record number)".
pub fn put_invocation(file: &[u8], u: Use, out: &mut [u8])
    requires { InRange file.now u × (length out.old ≡ 16 + 16 * u.inputs) }
    ensures { out.new ≡ rows_bytes (invocation_rows file.now u) }
{
    let go = Row::Go {
        invocation: u.number,
        instance: u.instance,
        state: u.offset,
    };
    let (first, rest) = out.split_at_mut(16);
    go.write(first);
    let guard = |i| {
        let port = look::port_at(file, usize::from(u.first + 1 + i));
        Row::Guard {
            invocation: u.number,
            port: i,
            first: u.offset + port.start,
            last: u.offset + port.end - 1,
            argument: u.record + 1 + i,
        }
    };
    put_each(u.inputs, guard, rest);
}

// The rows of n outputs, whose connections stand from record r on.
pub fn put_outputs(n: u16, r: u16, out: &mut [u8])
    requires { (n ≤ 16) × (r < 4096) × (length out.old ≡ 16 * n) }
    ensures { out.new ≡ rows_bytes (output_rows n r) }
{
    let row = |port| Row::Out {
        port,
        connection: r + port,
    };
    put_each(n, row, out);
}
