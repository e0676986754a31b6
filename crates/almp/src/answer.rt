// What is printed for a line of a script: what a command answers, or why it is not carried out.
use plans::fault::Refusal;
use scripts::command::LineFault;
use std::alloc::AllocError;
use std::fmt;
use thiserror::Error;

// What is printed for a command that is carried out.
#[derive(Drop)]
pub enum Answer {
    Done,
    // the readings
    Cells(Vec<u16>),
    // what the readings stand for, with how many cells drifted and how far in all
    Contents {
        drifted: u32,
        risen: u32,
        symbols: Vec<u16>,
        heights: Vec<u16>,
    },
    // how many cells drifted, and how far in all
    Counted {
        drifted: u32,
        risen: u32,
    },
    // how many bytes were saved, and the check of each block
    Saved {
        size: usize,
        checks: Vec<u32>,
    },
    // the bytes of the image, in hexadecimal digits
    Image(String),
    // what a function for hosts answers
    Host(u64),
}

// Why a command is not carried out.
#[derive(Clone, Copy, PartialEq, Eq, Debug, Error)]
pub enum Failure {
    // the call on the page is refused
    #[error("refused {0}")]
    Refused(Refusal),
    // the line cannot be carried out
    #[error("error: {0}")]
    Line(#[from] LineFault),
}

impl fmt::Display for Answer {
    fn fmt<W: fmt::Write>(&self, f: &mut fmt::Formatter<W>) -> fmt::Result {
        match self {
            Answer::Done => f.write_str("ok"),
            Answer::Cells(cells) => {
                f.write_str("cells")?;
                show_all(cells.as_slice(), f)
            }
            Answer::Contents {
                drifted,
                risen,
                symbols,
                heights,
            } => {
                write!(f, "ok {drifted} {risen} /")?;
                show_all(symbols.as_slice(), f)?;
                f.write_str(" /")?;
                show_all(heights.as_slice(), f)
            }
            Answer::Counted { drifted, risen } => write!(f, "ok {drifted} {risen}"),
            Answer::Saved { size, checks } => {
                write!(f, "ok {size}")?;
                show_all(checks.as_slice(), f)
            }
            Answer::Image(digits) => write!(f, "image {digits}"),
            Answer::Host(answer) => write!(f, "answer {answer}"),
        }
    }
}

// Each number after a space.
fn show_all<T: fmt::Display, W: fmt::Write>(
    numbers: &[T],
    f: &mut fmt::Formatter<W>,
) -> fmt::Result {
    for number in numbers {
        write!(f, " {number}")?;
    }
    Ok(())
}

impl From<AllocError> for Failure {
    fn from(error: AllocError) -> Failure {
        Failure::Line(error.into())
    }
}

pub(crate) fn refused<F: Into<Refusal>>(fault: F) -> Failure {
    Failure::Refused(fault.into())
}
