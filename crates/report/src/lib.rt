// How the programs take the file and say their answers: the words of document 01 and the user's numbers.
#![tactic(auto)]

ghost use Rattle.std.specs.Prelude.{List, ℕ, ◌≤◌, length, []};
ghost use Rattle.std.specs.Fn.{FnOnceReturnsAt, FnOnceReturnsAtMut};
ghost use Rattle.pieces.specs.declared.Output.{Output};
ghost use Rattle.pieces.specs.Gathered.{Holds};

use answers::{Counts, Refusal};
use pieces::Output;
use std::fmt::Write;

// The numbers under which a program finds its input and its outputs open.
pub const STDIN: i32 = 0;

pub const STDOUT: i32 = 1;

pub const STDERR: i32 = 2;

// The file on standard input is handed on.
pub fn on_input<R, F: FnOnce(&[u8]) -> R>(f: F) -> R
    requires { F.IsAlwaysCallable f }
    ensures { (file : List ℕ) × (length file ≤ 65537) × FnOnceReturnsAt F.FnOnce f file result }
{
    // One byte more than any file has: whatever is longer is refused for its length.
    let mut file = [0u8; 65537];
    let n = io::read_full(STDIN, &mut file);
    f(&file[..n])
}

// What is printed goes to one stream, in as few parts as it has room for.
pub fn print<R, F: FnOnce(&mut Output) -> R>(fd: i32, f: F) -> R
    requires { F.IsAlwaysCallable f }
    ensures { (fresh : Output) × (last : Output) × Holds fd [] fresh × FnOnceReturnsAtMut F.FnOnce f fresh result last }
{
    let mut out = Output::to(fd);
    let result = f(&mut out);
    out.end();
    result
}

// "A refusal prints only `refused 11 at 12`, with its numbers."
pub fn refusal(fd: i32, r: Refusal) {
    // An output takes every text, so there is nothing to answer for.
    let _ = print(fd, |out| writeln!(out, "{r}"));
}

// `accepted`, the component and record counts; or the refusal.
pub fn verdict(fd: i32, v: Result<Counts, Refusal>) {
    match v {
        Ok(counts) => {
            let _ = print(fd, |out| {
                writeln!(out, "accepted {} {}", counts.components, counts.records)
            });
        }
        Err(r) => refusal(fd, r),
    }
}
