// Why the program ends before the script does.
use std::{fmt, io};

#[derive(Clone, Copy, PartialEq, Eq)]
pub(crate) enum Stop {
    // a line that is no order
    BadLine,
    // standard input cannot be read
    Input,
    // standard output cannot be written
    Output,
}

impl fmt::Display for Stop {
    fn fmt<W: fmt::Write>(&self, f: &mut fmt::Formatter<W>) -> fmt::Result {
        f.write_str(match self {
            Stop::BadLine => "bad line",
            Stop::Input => "standard input cannot be read",
            Stop::Output => "standard output cannot be written",
        })
    }
}

// What `?` makes of an error: standard output is written in many places, and standard input read in one.
impl From<io::Error> for Stop {
    fn from(_: io::Error) -> Stop {
        Stop::Output
    }
}
