// Text, read: the words of a line one after the other, and what was expected where it stops making sense. (docs/TEXT.md)
#![tactic(auto)]

mod cursor;
mod expected;
mod letters;

pub use cursor::Cursor;
pub use expected::Expected;
pub use letters::{Span, word};
