// Why a stream is not answered to its end, and where.
ghost use Rattle.std.specs.Prelude.{◌≡◌};
ghost use Rattle.stream.specs.declared.fault.Cause.TheVariants.{NoChoice, TooLarge};

use std::alloc::{AllocError, AllocFailed};
use std::num::TryFromIntError;
use std::{fmt, io};

// What a number may choose.
#[derive(Clone, Copy)]
pub enum Choice {
    Shape,
    Call,
    Position,
    Entry,
}

#[derive(Drop)]
pub enum Cause {
    // The text ends where a number is due.
    End,
    // Something else stands where a number, a blank or a line feed is due.
    Byte(u8),
    // The number is larger than what may stand there.
    TooLarge,
    // There is nothing of this number to choose.
    NoChoice(Choice),
    // The graph is of another kind than its shape has there.
    Misfit,
    // Something follows the last case.
    Rest,
    Memory,
    Transfer(io::Error),
}

// Counted from 1: the line, and the number in the whole text.
#[derive(Clone, Copy)]
pub struct Place {
    pub line: usize,
    pub number: usize,
}

#[derive(Drop)]
pub struct Fault {
    pub place: Place,
    pub cause: Cause,
}

impl From<Choice> for Cause {
    ghost from_gives = { λ choice cause. cause ≡ NoChoice choice };

    fn from(choice: Choice) -> Cause {
        Cause::NoChoice(choice)
    }
}

impl From<TryFromIntError> for Cause {
    ghost from_gives = { λ _ cause. cause ≡ TooLarge };

    fn from(_error: TryFromIntError) -> Cause {
        Cause::TooLarge
    }
}

impl From<AllocError> for Cause {
    fn from(_error: AllocError) -> Cause {
        Cause::Memory
    }
}

impl<T: Drop> From<AllocFailed<T>> for Cause {
    fn from(_refused: AllocFailed<T>) -> Cause {
        Cause::Memory
    }
}

impl From<io::Error> for Cause {
    fn from(error: io::Error) -> Cause {
        Cause::Transfer(error)
    }
}

// What fails before the first number is read.
impl From<io::Error> for Fault {
    fn from(error: io::Error) -> Fault {
        Fault {
            place: Place { line: 1, number: 1 },
            cause: Cause::Transfer(error),
        }
    }
}

impl fmt::Display for Choice {
    fn fmt<W: fmt::Write>(&self, f: &mut fmt::Formatter<W>) -> fmt::Result {
        f.write_str(match self {
            Choice::Shape => "shape",
            Choice::Call => "call",
            Choice::Position => "kind of position",
            Choice::Entry => "kind of entry",
        })
    }
}

impl fmt::Display for Cause {
    fn fmt<W: fmt::Write>(&self, f: &mut fmt::Formatter<W>) -> fmt::Result {
        match self {
            Cause::End => write!(f, "the stream ends where a number is due"),
            Cause::Byte(byte) => write!(f, "byte {byte} where a number is due"),
            Cause::TooLarge => write!(f, "the number is too large"),
            Cause::NoChoice(choice) => write!(f, "there is no such {choice}"),
            Cause::Misfit => write!(f, "the shape has another kind of graph here"),
            Cause::Rest => write!(f, "something follows the last case"),
            Cause::Memory => write!(f, "no memory for what follows"),
            Cause::Transfer(error) => write!(f, "{error}"),
        }
    }
}

impl fmt::Display for Fault {
    fn fmt<W: fmt::Write>(&self, f: &mut fmt::Formatter<W>) -> fmt::Result {
        let Place { line, number } = self.place;
        write!(f, "line {line}, number {number}: {}", self.cause)
    }
}
