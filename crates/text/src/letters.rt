// The letters of a line, and its words.
ghost use Rattle.std.specs.Prelude.{◌≡◌, ◌≤◌, ◌<◌, IfSome, min, length};
ghost use Rattle.text.specs.Letters.{number_of, kind_of, past, word_end};
ghost use Rattle.text.specs.Letters.{hex as digit};

// A part of a line, from `start` up to `end`: two places and no slice, since `word` promises these places (docs/TEXT.md).
#[derive(Clone, Copy)]
pub struct Span {
    pub start: usize,
    pub end: usize,
}

#[derive(Clone, Copy, PartialEq, Eq)]
enum Kind {
    Blank,
    // a word by itself
    Single,
    // the start of a comment
    Comment,
    // a letter of a longer word
    Letter,
}

fn kind_of(b: u8) -> Kind
    ensures { number_of result ≡ kind_of b }
{
    match b {
        b' ' | b'\t' | b'\r' => Kind::Blank,
        b'[' | b',' | b')' => Kind::Single,
        b'#' => Kind::Comment,
        _ => Kind::Letter,
    }
}

// Past all bytes of one kind, from `at` on.
#[tactic(auto, using(crate::proofs::Runs::run_on, crate::proofs::Runs::run_stops, crate::proofs::Runs::run_ends))]
fn past(line: &[u8], at: usize, k: Kind) -> usize
    ensures { (result ≡ past line.now at (number_of k)) × (min at (length line.now) ≤ result) × (result ≤ length line.now) }
{
    for i in at..line.len() {
        if kind_of(line[i]) != k {
            return i;
        }
    }
    line.len()
}

// The next word, from `at` on; an empty one at the end of the line or the start of a comment.
#[tactic(auto, using(crate::proofs::Runs::ends_with_line, crate::proofs::Runs::ends_after_one, crate::proofs::Runs::ends_after_run, crate::proofs::Runs::ends_at_once))]
pub fn word(line: &[u8], at: usize) -> Span
    ensures { (result.start ≡ past line.now at 0) × (result.end ≡ word_end line.now result.start) × (result.start ≤ result.end) × (result.end ≤ length line.now) }
{
    let start = past(line, at, Kind::Blank);
    if line.len() <= start {
        return Span { start, end: start };
    }
    let end = match kind_of(line[start]) {
        Kind::Single => start + 1,
        Kind::Letter => past(line, start, Kind::Letter),
        _ => start,
    };
    Span { start, end }
}

// What a hexadecimal digit says.
pub(crate) fn hex(b: u8) -> Option<u8>
    ensures said { result ≡ digit b }
    ensures small { IfSome result (λ d. d < 16) }
{
    match b {
        b'0'..=b'9' => Some(b - b'0'),
        b'a'..=b'f' => Some(b - b'a' + 10),
        b'A'..=b'F' => Some(b - b'A' + 10),
        _ => None,
    }
}
