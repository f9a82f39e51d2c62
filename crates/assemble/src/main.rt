// The text of a design on standard input; its list of records on standard output. Where the text stops making sense, one line on standard
// error says which line of it that is and what was expected there, and nothing goes to standard output.
#![tactic(auto)]

use assembly::Assembly;
use pieces::Output;
use report::{STDERR, STDIN, STDOUT};
use std::fmt::Write;
use text::Expected;

// At most 1,024 reads. A short one is the end of the text.
fn read(text: &mut Assembly) -> Result<(), Expected> {
    let mut chunk = io::large_buffer();
    for _ in 0..1024 {
        let n = io::read_full(STDIN, &mut chunk);
        text.feed(&chunk[..n])?;
        if n < chunk.len() {
            return text.end();
        }
    }
    Err(Expected::Length)
}

fn main() {
    let mut text = Assembly::new();
    match read(&mut text) {
        Ok(()) => {
            io::write_all(STDOUT, text.list.as_slice());
        }
        Err(expected) => {
            let line = text.line;
            let mut out = Output::to(STDERR);
            let _ = writeln!(out, "line {line}: expected {expected}");
            out.end();
        }
    }
}
