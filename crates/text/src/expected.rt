// What should have stood at a place of the text.
use std::error::Error;
use std::fmt;

#[derive(Clone, Copy, Debug, PartialEq, Eq)]
pub enum Expected {
    Kind,
    // this number, which follows from the place
    Own(u64),
    Class,
    Delay,
    Interval,
    Width,
    Component,
    Instance,
    Offset,
    Source,
    Input,
    Output,
    Constant,
    Byte,
    End,
    // what a text as a whole may hold
    Line,
    Some,
    Fewer,
    Length,
}

impl fmt::Display for Expected {
    fn fmt<W: fmt::Write>(&self, f: &mut fmt::Formatter<W>) -> fmt::Result {
        match self {
            Expected::Kind => write!(
                f,
                "component, input, output, instance, invocation, argument, connection or raw"
            ),
            Expected::Own(n) => write!(f, "the number that follows from the place, {n}"),
            Expected::Class => write!(f, "'leaf' or 'built'"),
            Expected::Delay => write!(f, "'delay' and a number from 1 to 1024"),
            Expected::Interval => write!(
                f,
                "an interval '[s, e)', s less than e and e at most 1024"
            ),
            Expected::Width => write!(f, "'width' and a number from 1 to 64"),
            Expected::Component => write!(f, "'of component' and a number from 0 to 63"),
            Expected::Instance => write!(f, "'of instance' and a number from 0 to 31"),
            Expected::Offset => write!(f, "'at' and an offset from 0 to 1023"),
            Expected::Source => write!(f, "a source: 'own', 'inv' or 'const'"),
            Expected::Input => write!(f, "an own input's number from 0 to 15"),
            Expected::Output => write!(
                f,
                "an invocation's number from 0 to 63 and its output's from 0 to 15"
            ),
            Expected::Constant => write!(f, "a constant from 0 to 18446744073709551615"),
            Expected::Byte => write!(f, "sixteen bytes, two hexadecimal digits each"),
            Expected::End => write!(f, "the end of the line"),
            Expected::Line => write!(f, "a line of at most 4096 bytes"),
            Expected::Some => write!(f, "a record"),
            Expected::Fewer => write!(f, "at most 3968 records"),
            Expected::Length => write!(f, "a text of at most 67108864 bytes"),
        }
    }
}

impl Error for Expected {}
