// Words of a command line: which there are, and which number a word says.
#![tactic(auto)]

ghost use Rattle.std.specs.Prelude.{◌≡◌};
ghost use Rattle.words.specs.Said.{said, with_digit};

pub mod arguments;

// What digits that say v say with one more behind them, if it is a digit, and a number that 64 bits hold.
fn with_digit(v: u64, b: u8) -> Option<u64>
    ensures { result ≡ with_digit v b }
{
    match b {
        b'0'..=b'9' => v.checked_mul(10)?.checked_add(u64::from(b - b'0')),
        _ => None,
    }
}

#[tactic(auto, using(crate::proofs::Digits::digit_more, crate::proofs::Digits::digit_none, crate::proofs::Digits::digits_end, crate::proofs::Digits::said_some))]
pub fn number(word: &[u8]) -> Option<u64>
    ensures { result ≡ said word.now }
{
    if word.is_empty() {
        return None;
    }
    let mut v = 0;
    for b in word {
        v = with_digit(v, *b)?;
    }
    Some(v)
}
