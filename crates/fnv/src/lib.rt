// 32-bit FNV-1a, from its published description, and the check of a block.
#![tactic(auto)]

ghost use Rattle.std.specs.Prelude.{◌≡◌, ◌+◌, ◌≤◌, length, take, drop};
ghost use Rattle.fnv.specs.Fnv.{multiplied, step, hash_from, hash};

// The hash of no byte.
const START: u32 = 2166136261;

// "The value is multiplied by 16,777,619, keeping the low 32 bits."
pub fn multiply(h: u32) -> u32
    ensures { result ≡ multiplied h }
{
    h.wrapping_mul(16777619)
}

// One byte.
pub fn step(h: u32, b: u8) -> u32
    ensures { result ≡ step h b }
{
    multiply(h ^ u32::from(b))
}

// Four bytes, from byte i on: what is left then gives the same hash. Written out, and so are sixteen and sixty-four of them, because
// this is the library's speed: a fold from byte to byte takes 3.5 instructions a byte in place of 2.9.
fn four(h: u32, s: &[u8], i: usize) -> u32
    requires { i + 4 ≤ length s.now }
    ensures { hash_from result (drop (i + 4) s.now) ≡ hash_from h (drop i s.now) }
{
    step(step(step(step(h, s[i]), s[i + 1]), s[i + 2]), s[i + 3])
}

// Sixteen bytes, likewise.
fn sixteen(h: u32, s: &[u8], i: usize) -> u32
    requires { i + 16 ≤ length s.now }
    ensures { hash_from result (drop (i + 16) s.now) ≡ hash_from h (drop i s.now) }
{
    four(four(four(four(h, s, i), s, i + 4), s, i + 8), s, i + 12)
}

// All bytes of a slice, sixty-four at a turn so that the loop's own work is small beside theirs.
pub fn hash(s: &[u8]) -> u32
    ensures { result ≡ hash s.now }
{
    let turns = s.len() / 64;
    let mut h = START;
    for k in 0..turns {
        let i = 64 * k;
        h = sixteen(sixteen(h, s, i), s, i + 16);
        h = sixteen(sixteen(h, s, i + 32), s, i + 48);
    }
    for b in &s[64 * turns..] {
        h = step(h, *b);
    }
    h
}

// The same of the 508 bytes of a block: their number is known, and what is left after seven turns is written out. It stands beside `hash`,
// which knows no length, since so a byte takes 3.05 instructions in place of 3.84 (docs/DECISIONS.md, "The verdict").
fn hash_block(s: &[u8]) -> u32
    requires { length s.now ≡ 508 }
    ensures { result ≡ hash s.now }
{
    let mut h = START;
    for k in 0..7 {
        let i = 64 * k;
        h = sixteen(sixteen(h, s, i), s, i + 16);
        h = sixteen(sixteen(h, s, i + 32), s, i + 48);
    }
    h = sixteen(sixteen(sixteen(h, s, 448), s, 464), s, 480);
    four(four(four(h, s, 496), s, 500), s, 504)
}

// The check of a block: bytes 0 to 507, or as many of them as there are.
pub fn check(block: &[u8]) -> u32
    ensures { result ≡ hash (take 508 block.now) }
{
    if 508 <= block.len() {
        return hash_block(&block[..508]);
    }
    hash(block)
}
