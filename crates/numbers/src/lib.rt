// Numbers in bytes, the lowest byte first. ("Numbers are little-endian.")
#![tactic(auto)]

ghost use Rattle.std.specs.Prelude.{◌≡◌, ℕ, ◌+◌, ◌≤◌, length};
ghost use Rattle.numbers.specs.Numbers.{number, bytes};

// A number of two, four or eight bytes.
pub trait Number: Sized {
    // How many bytes it takes.
    ghost width: { ℕ };

    // What it counts.
    ghost value: { Self → ℕ };

    // The number in the bytes from `at` on.
    fn read(s: &[u8], at: usize) -> Self
        requires { at + width ≤ length s.now }
        ensures { value result ≡ number width s.now at };

    // Into as many bytes.
    fn write(self, out: &mut [u8])
        requires { length out.old ≡ width }
        ensures { out.new ≡ bytes width (value self) };
}

impl Number for u16 {
    ghost width = { 2 };

    ghost value = { λ x. x };

    fn read(s: &[u8], at: usize) -> u16 {
        u16::from_le_bytes([s[at], s[at + 1]])
    }

    fn write(self, out: &mut [u8]) {
        out.copy_from_slice(&u16::to_le_bytes(self));
    }
}

impl Number for u32 {
    ghost width = { 4 };

    ghost value = { λ x. x };

    fn read(s: &[u8], at: usize) -> u32 {
        u32::from_le_bytes([s[at], s[at + 1], s[at + 2], s[at + 3]])
    }

    fn write(self, out: &mut [u8]) {
        out.copy_from_slice(&u32::to_le_bytes(self));
    }
}

impl Number for u64 {
    ghost width = { 8 };

    ghost value = { λ x. x };

    fn read(s: &[u8], at: usize) -> u64 {
        u64::from_le_bytes([
            s[at],
            s[at + 1],
            s[at + 2],
            s[at + 3],
            s[at + 4],
            s[at + 5],
            s[at + 6],
            s[at + 7],
        ])
    }

    fn write(self, out: &mut [u8]) {
        out.copy_from_slice(&u64::to_le_bytes(self));
    }
}
