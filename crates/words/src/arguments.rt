// The words themselves, as a program was given them. Word 0 is the program's name.
ghost use Rattle.std.specs.Prelude.{◌≤◌, length};

use std::env::{Env, FillError};

// Whether there is a word i, however long it is.
pub fn given(rt: &impl Env, i: usize) -> bool {
    !matches!(rt.arg(i, &mut [0; 1]), Err(FillError::NotPresent))
}

// Word i, which is put at the start of `space`. One that is absent, or too long for it, is an empty word:
// this cannot fail, and `given` says which words there are.
pub fn argument<'a>(rt: &impl Env, i: usize, space: &'a mut [u8]) -> &'a [u8]
    ensures { length result.now ≤ length space.old }
{
    let n = rt.arg(i, space).unwrap_or(0);
    &space[..n]
}
