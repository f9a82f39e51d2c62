// Two uses of one instance that are too close, or too far apart.
ghost use Rattle.std.specs.Prelude.{ℕ};

use crate::standing::Standing;
use parts::Use;
use std::fmt;

// What is said of an invocation that is not there, in a list whose verdict is another one.
const ABSENT: Use = Use {
    instance: 65535,
    offset: 0,
    record: 65535,
};

// The first earlier use of the same instance, of the first 64, that is so far apart that it breaks the rule.
fn other_use<F: Fn(u16) -> bool>(s: Standing<'_>, own: Use, breaks: F) -> Option<Use>
    requires { (gap : ℕ) → F.pre breaks gap }
{
    let component = s.component?;
    for j in 0..s.invocation.min(64) {
        if let Some(u) = component.invocation(j) {
            if (u.instance == own.instance) && breaks(u.offset.abs_diff(own.offset)) {
                return Some(u);
            }
        }
    }
    None
}

// The use, and the other one.
fn pair<W: fmt::Write>(out: &mut W, own: Use, other: Option<Use>) -> fmt::Result {
    let instance = own.instance;
    let offset = own.offset;
    write!(out, "instance {instance} is used at offset {offset}")?;
    if let Some(other) = other {
        let offset = other.offset;
        let record = other.record;
        write!(out, ", and at offset {offset} by record {record}")?;
    }
    Ok(())
}

// The delay of the component that it is an instance of; 0 where that is absent.
fn delay_of(s: Standing<'_>, own: Use) -> u16 {
    match s.component {
        Some(component) => match component.named(usize::from(own.instance)) {
            Some(made) => made.delay,
            None => 0,
        },
        None => 0,
    }
}

// 10
pub(crate) fn spacing<W: fmt::Write>(out: &mut W, s: Standing<'_>) -> fmt::Result {
    let own = s.call().unwrap_or(ABSENT);
    let d = delay_of(s, own);
    pair(out, own, other_use(s, own, |gap| gap < d))?;
    write!(out, ": less than its delay {d} apart")
}

// 11
pub(crate) fn span<W: fmt::Write>(out: &mut W, s: Standing<'_>) -> fmt::Result {
    let own = s.call().unwrap_or(ABSENT);
    let d = delay_of(s, own);
    let delay = s.delay();
    let component = s.number;
    pair(
        out,
        own,
        other_use(s, own, |gap| (delay < d) || (delay - d < gap)),
    )?;
    write!(
        out,
        ": with its delay {d} that is longer than the delay {delay} of component {component}"
    )
}
