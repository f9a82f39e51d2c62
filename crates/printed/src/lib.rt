// What `lower` and `list` print for a whole file, which is judged once.
// Here any writer takes it, and may refuse; `output` has the same for an output, which takes every text.
#![tactic(auto)]

ghost use Rattle.printed.specs.Opens.{Opens};

mod output;

pub use output::{print_last_listed, print_listed, print_lowered};
use std::fmt;
use std::fmt::Write;
use verdict::Opening;

// A component has at most 1,105 rows of sixteen bytes: one of its own, 64 invocations of 16 inputs each, 16 outputs.
const MOST_ROWS: usize = 17680;
// A listing has at most 4,096 rows of eight bytes.
const MOST_STARTS: usize = 32768;

// The control rows of every built component, or the refusal.
pub fn lowered<W: fmt::Write>(out: &mut W, file: &[u8]) -> fmt::Result {
    let o = verdict::open_alone(file);
    let counts = match o.verdict {
        Ok(counts) => counts,
        Err(r) => return writeln!(out, "{r}"),
    };
    let mut rows = [0u8; MOST_ROWS];
    for c in 0..counts.components {
        // A leaf prints nothing.
        if let Ok(k) = lowering::lower_judged(file, o, c, &mut rows) {
            lines::lowered_rows(out, file, c, &rows, k)?;
        }
    }
    writeln!(out, "end")
}

// Of a file that has been judged, the unit starts of component c, or the refusal.
fn starts<W: fmt::Write>(out: &mut W, file: &[u8], o: Opening, c: usize) -> fmt::Result
    requires { Opens file.now o }
{
    let mut rows = [0u8; MOST_STARTS];
    match listing::list_judged(file, o, c, &mut rows) {
        Ok(k) => {
            lines::started_rows(out, &rows, k)?;
            writeln!(out, "end")
        }
        Err(r) => writeln!(out, "{r}"),
    }
}

// The unit starts of component c, or the refusal.
pub fn listed<W: fmt::Write>(out: &mut W, file: &[u8], c: usize) -> fmt::Result {
    starts(out, file, verdict::open_alone(file), c)
}

// The unit starts of the last component, or the refusal.
pub fn last_listed<W: fmt::Write>(out: &mut W, file: &[u8]) -> fmt::Result {
    let o = verdict::open_alone(file);
    match o.verdict {
        // There is one at least.
        Ok(counts) if 0 < counts.components => starts(out, file, o, counts.components - 1),
        Ok(_) => Ok(()),
        Err(r) => writeln!(out, "{r}"),
    }
}
