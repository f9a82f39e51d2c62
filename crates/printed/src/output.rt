// The same on an output, which takes every text; so do `lower` and `list` print.
ghost use Rattle.printed.specs.Opens.{Opens};

use crate::{MOST_ROWS, MOST_STARTS};
use answers::Refusal;
use pieces::Output;
use std::fmt::Write;
use verdict::Opening;

// An output takes every text, so there is nothing to answer for.
fn print_refusal(out: &mut Output, r: Refusal) {
    let _ = writeln!(out, "{r}");
}

// The control rows of every built component, or the refusal.
pub fn print_lowered(out: &mut Output, file: &[u8]) {
    let o = verdict::open_alone(file);
    let counts = match o.verdict {
        Ok(counts) => counts,
        Err(r) => return print_refusal(out, r),
    };
    let mut rows = [0u8; MOST_ROWS];
    for c in 0..counts.components {
        // A leaf prints nothing.
        if let Ok(k) = lowering::lower_judged(file, o, c, &mut rows) {
            lines::print_lowered_rows(out, file, c, &rows, k);
        }
    }
    out.text("end\n");
}

// Of a file that has been judged, the unit starts of component c, or the refusal.
fn print_starts(out: &mut Output, file: &[u8], o: Opening, c: usize)
    requires { Opens file.now o }
{
    let mut rows = [0u8; MOST_STARTS];
    match listing::list_judged(file, o, c, &mut rows) {
        Ok(k) => {
            lines::print_started_rows(out, &rows, k);
            out.text("end\n");
        }
        Err(r) => print_refusal(out, r),
    }
}

// The unit starts of component c, or the refusal.
pub fn print_listed(out: &mut Output, file: &[u8], c: usize) {
    print_starts(out, file, verdict::open_alone(file), c);
}

// The unit starts of the last component, or the refusal.
pub fn print_last_listed(out: &mut Output, file: &[u8]) {
    let o = verdict::open_alone(file);
    match o.verdict {
        // There is one at least.
        Ok(counts) if 0 < counts.components => print_starts(out, file, o, counts.components - 1),
        Ok(_) => {}
        Err(r) => print_refusal(out, r),
    }
}
