// What keeps the program from printing a plan.
use std::fmt::InlineText;
use std::{fmt, io};

// What could not be read or written, with the reason.
#[derive(Clone, Copy)]
pub(crate) enum Failure {
    Pool(io::Error),
    Limits(io::Error),
    Output(io::Error),
}

impl fmt::Display for Failure {
    fn fmt<W: fmt::Write>(&self, f: &mut fmt::Formatter<W>) -> fmt::Result {
        let (what, error) = match self {
            Failure::Pool(error) => ("pool.bin", error),
            Failure::Limits(error) => ("limits.bin", error),
            Failure::Output(error) => ("standard output", error),
        };
        write!(f, "{what}: {}", Reason(*error))
    }
}

// The system's reason, without the number that std puts behind it.
#[derive(Clone, Copy)]
struct Reason(io::Error);

impl fmt::Display for Reason {
    fn fmt<W: fmt::Write>(&self, f: &mut fmt::Formatter<W>) -> fmt::Result {
        let text = InlineText::<320>::of(self.0);
        let text = text.as_str();
        let reason = match text.split_once(" (os error ") {
            Some((reason, _)) => reason,
            None => text,
        };
        f.write_str(reason)
    }
}
