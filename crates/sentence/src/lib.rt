// One line of text as a record: the sentences that docs/TEXT.md lists.
#![tactic(auto)]

ghost use Rattle.std.specs.Prelude.{◌≡◌, ◌↔◌, [], IsOkAnd, IsNone};
ghost use Rattle.text.specs.Words.{next_word};

mod parts;
mod raw;

use places::Place;
use text::{Cursor, Expected};

// Behind a kind's name, the rest of its sentence, as sixteen bytes.
fn by_kind(c: Cursor, p: Place) -> Result<([u8; 16], Cursor), Expected> {
    if c.sees(b"raw") {
        return raw::raw_bytes(c);
    }
    let (record, next) = if c.sees(b"component") {
        parts::component(c, p.components)?
    } else if c.sees(b"input") {
        parts::input(c, p.inputs)?
    } else if c.sees(b"output") {
        parts::output(c, p.outputs)?
    } else if c.sees(b"instance") {
        parts::instance(c, p.instances)?
    } else if c.sees(b"invocation") {
        parts::invocation(c, p.invocations)?
    } else if c.sees(b"argument") {
        parts::argument(c, p.arguments)?
    } else if c.sees(b"connection") {
        parts::connection(c, p.connections)?
    } else {
        return Err(Expected::Kind);
    };
    Ok((encoding::encode(record), next))
}

// The record that a line says at this place of a list; none where it has nothing but blanks and a comment.
pub fn read(line: &[u8], p: Place) -> Result<Option<[u8; 16]>, Expected>
    ensures { IsOkAnd result (λ r. IsNone r) ↔ (next_word line.now 0 ≡ []) }
{
    let c = Cursor::new(line);
    if c.ends() {
        return Ok(None);
    }
    let (bytes, c) = by_kind(c.margin(), p)?;
    c.end()?;
    Ok(Some(bytes))
}
