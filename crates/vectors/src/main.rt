// Published vectors of 32-bit FNV-1a: each line has the text, its hash, and the hash that the publication gives.
#![tactic(auto)]

use pieces::Output;
use report::STDOUT;
use std::fmt;
use std::fmt::Write;

fn vector<W: fmt::Write>(out: &mut W, text: &str, published: u32) -> fmt::Result {
    let hash = fnv::hash(text.as_bytes());
    writeln!(out, "\"{text}\" {hash:08x} {published:08x}")
}

fn vectors<W: fmt::Write>(out: &mut W) -> fmt::Result {
    vector(out, "", 0x811c9dc5)?;
    vector(out, "a", 0xe40c292c)?;
    vector(out, "b", 0xe70c2de5)?;
    vector(out, "c", 0xe60c2c52)?;
    vector(out, "fo", 0x6222e842)?;
    vector(out, "foo", 0xa9f37ed7)?;
    vector(out, "foob", 0x3f5076ef)?;
    vector(out, "fooba", 0x39aaa18a)?;
    vector(out, "foobar", 0xbf9cf968)?;
    vector(out, "chongo was here!\n", 0xd49930d5)
}

fn main() {
    let mut out = Output::to(STDOUT);
    let _ = vectors(&mut out);
    out.end();
}
