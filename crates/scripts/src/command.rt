// The commands of a page script, and what can be wrong with a line of one.
ghost use Rattle.std.specs.Prelude.{◌≡◌, ◌≢◌, ◌+◌, ◌<◌, ◌^◌, ◌∷◌, length, count_by, MatchResult, Some, None, Ok};
ghost use Rattle.std.specs.Option.{MatchOption};
ghost use Rattle.hex.specs.Hex.{decode_of};
ghost use Rattle.scripts.specs.Script.{words_of, number_of};
ghost use Rattle.scripts.specs.Commands.{texts, slash_here, FirstSlash, InTwo, AreNumbers, BadNumber, BadBytes, Understood, Parsed, word_of};
ghost use Rattle.scripts.specs.declared.command.Name.{Name};
ghost use Rattle.scripts.specs.declared.command.Name.TheVariants as name;
ghost use Rattle.scripts.specs.declared.command.LineFault.TheVariants.{Form, NoMemory, NoNumber};

use crate::words;
use hex::FromHexError;
use plans::numbers::Numbers;
use std::alloc::{AllocError, AllocFailed, Global};
use std::fmt;
use thiserror::Error;

// What a line asks for.
#[derive(Drop)]
pub enum Command {
    // a new page of a kind
    Order {
        kind: u16,
        numbers: Numbers,
    },
    // the cells are shown
    Cells,
    // these readings take the place of the cells
    SetCells(Vec<u16>),
    // a page's contents are written
    Write {
        symbols: Vec<u16>,
        heights: Vec<u16>,
    },
    // a column is marked
    Mark {
        column: u16,
    },
    // a cell is raised
    Raise {
        row: u16,
        column: u16,
        amount: u16,
    },
    // a marked cell is set
    Jolt {
        row: u16,
        column: u16,
        reading: u16,
    },
    // the cells are read into buffers that fit
    Read,
    // the cells are read into buffers of these lengths
    ReadInto {
        symbols: u16,
        heights: u16,
    },
    // the cells are set to the page that they decode to
    Scrub,
    // the page and the cells become the image
    Save,
    // the image is shown
    Image,
    // these bytes take the place of the image
    SetImage(Vec<u8>),
    // one byte of the image is set
    Poke {
        at: u16,
        byte: u8,
    },
    // the image's page and cells take the place of those held
    Open,
    // the host's check on the image
    HostCheck,
    // the host's scrub on the image
    HostScrub,
}

// The first word of a command.
#[derive(Clone, Copy, PartialEq, Eq, Debug)]
pub enum Name {
    Order,
    Cells,
    Write,
    Mark,
    Raise,
    Jolt,
    Read,
    Scrub,
    Save,
    Image,
    Poke,
    Open,
    HostCheck,
    HostScrub,
}

// Why a line cannot be carried out.
#[derive(Clone, Copy, PartialEq, Eq, Debug, Error)]
pub enum LineFault {
    #[error("the first word is no command")]
    NoCommand,
    // the command has other words after it than it takes
    #[error("{0}")]
    Form(Name),
    // the word in this place, counted from 1
    #[error("word {0} is no number from 0 to 65535")]
    NoNumber(usize),
    #[error("word 3 is no byte from 0 to 255")]
    NoByte,
    #[error("word 2 is no bytes of two hexadecimal digits each")]
    NoBytes,
    #[error("no page has been ordered")]
    NoPage,
    #[error("no image has been saved or given")]
    NoImage,
    #[error("the image has no such byte")]
    NoPlace,
    #[error("no memory is left for this line")]
    NoMemory,
}

// What each command takes after its first word.
impl fmt::Display for Name {
    fn fmt<W: fmt::Write>(&self, f: &mut fmt::Formatter<W>) -> fmt::Result {
        f.write_str(match self {
            Name::Order => "order takes six numbers: KIND N R ROWS H D",
            Name::Cells => "cells takes any readings",
            Name::Write => "write takes symbols, one / and heights",
            Name::Mark => "mark takes one number: COLUMN",
            Name::Raise => "raise takes three numbers: ROW COLUMN AMOUNT",
            Name::Jolt => "jolt takes three numbers: ROW COLUMN READING",
            Name::Read => "read takes nothing, or two numbers: NSYMBOLS NHEIGHTS",
            Name::Scrub => "scrub takes nothing",
            Name::Save => "save takes nothing",
            Name::Image => "image takes nothing, or one word: HEX",
            Name::Poke => "poke takes two numbers: AT BYTE",
            Name::Open => "open takes nothing",
            Name::HostCheck => "hostcheck takes nothing",
            Name::HostScrub => "hostscrub takes nothing",
        })
    }
}

impl From<AllocError> for LineFault {
    ghost from_gives = { λ _ r. r ≡ NoMemory };

    fn from(_error: AllocError) -> LineFault {
        LineFault::NoMemory
    }
}

impl<T: Drop> From<AllocFailed<T>> for LineFault {
    ghost from_gives = { λ _ r. r ≡ NoMemory };

    fn from(_error: AllocFailed<T>) -> LineFault {
        LineFault::NoMemory
    }
}

// What a line asks for, and nothing where it has no words.
pub fn parse(heap: Global, line: &[u8]) -> Result<Option<Command>, LineFault>
    ensures { Parsed (words_of line.now) result }
{
    let words = words::words(heap, line)?;
    match words.as_slice() {
        [] => Ok(None),
        [word, arguments @ ..] => Ok(Some(understand(heap, word, arguments)?)),
    }
}

// The command that a word calls.
fn named(word: &[u8]) -> Option<Name>
    ensures { MatchOption result ((n : Name) → word.now ≢ word_of n) (λ n. word.now ≡ word_of n) }
{
    Some(match word {
        b"order" => Name::Order,
        b"cells" => Name::Cells,
        b"write" => Name::Write,
        b"mark" => Name::Mark,
        b"raise" => Name::Raise,
        b"jolt" => Name::Jolt,
        b"read" => Name::Read,
        b"scrub" => Name::Scrub,
        b"save" => Name::Save,
        b"image" => Name::Image,
        b"poke" => Name::Poke,
        b"open" => Name::Open,
        b"hostcheck" => Name::HostCheck,
        b"hostscrub" => Name::HostScrub,
        _ => return None,
    })
}

// What a line asks for that begins with `word`, and goes on with `arguments`.
fn understand(heap: Global, word: &[u8], arguments: &[&[u8]]) -> Result<Command, LineFault>
    ensures { Understood (word.now ∷ texts arguments.now) result }
{
    let name = named(word).ok_or(LineFault::NoCommand)?;
    match name {
        Name::Order => order(arguments),
        Name::Cells => cells(heap, arguments),
        Name::Write => write(heap, arguments),
        Name::Mark => mark(arguments),
        Name::Raise => raise(arguments),
        Name::Jolt => jolt(arguments),
        Name::Read => read(arguments),
        Name::Scrub => alone(name, arguments, Command::Scrub),
        Name::Save => alone(name, arguments, Command::Save),
        Name::Image => image(heap, arguments),
        Name::Poke => poke(arguments),
        Name::Open => alone(name, arguments, Command::Open),
        Name::HostCheck => alone(name, arguments, Command::HostCheck),
        Name::HostScrub => alone(name, arguments, Command::HostScrub),
    }
}

// The number that the word in this place of a line is.
fn number(place: usize, word: &[u8]) -> Result<u16, LineFault>
    ensures { MatchResult result (λ n. number_of word.now ≡ Some n) (λ fault. (fault ≡ NoNumber place) × (number_of word.now ≡ None)) }
{
    words::number(word).ok_or(LineFault::NoNumber(place))
}

// The numbers that words are, of which the first has this place in the line.
fn numbers(heap: Global, place: usize, words: &[&[u8]]) -> Result<Vec<u16>, LineFault>
    requires { place + length words.now < 2 ^ 64 }
    ensures { MatchResult result (λ v. AreNumbers (texts words.now) v.items) (BadNumber place (texts words.now)) }
{
    let mut all = Vec::new(heap);
    for (i, word) in words.iter().enumerate() {
        all.push(number(place + i, word)?)?;
    }
    Ok(all)
}

// The command of a line that begins with `order`.
fn order(arguments: &[&[u8]]) -> Result<Command, LineFault>
    ensures { Understood (word_of name.Order ∷ texts arguments.now) result }
{
    let [kind, columns, checks, rows, heights, drift] = arguments else {
        return Err(LineFault::Form(Name::Order));
    };
    Ok(Command::Order {
        kind: number(2, kind)?,
        numbers: Numbers {
            columns: number(3, columns)?,
            checks: number(4, checks)?,
            rows: number(5, rows)?,
            heights: number(6, heights)?,
            drift: number(7, drift)?,
        },
    })
}

// The command of a line that begins with `cells`.
fn cells(heap: Global, arguments: &[&[u8]]) -> Result<Command, LineFault>
    ensures { Understood (word_of name.Cells ∷ texts arguments.now) result }
{
    match arguments {
        [] => Ok(Command::Cells),
        readings => Ok(Command::SetCells(numbers(heap, 2, readings)?)),
    }
}

fn is_slash(word: &[u8]) -> bool
    ensures { result ≡ slash_here word.now }
{
    matches!(word, b"/")
}

// The place of the first slash among words.
fn slash_in(words: &[&[u8]]) -> Option<usize>
    ensures { FirstSlash words.now result }
{
    words.iter().position(|word| is_slash(word))
}

// The words before and after the one slash among words; none where there is no slash, or more than one.
fn sides<'a, 'b>(words: &'a [&'b [u8]]) -> Option<(&'a [&'b [u8]], &'a [&'b [u8]])>
    ensures { MatchOption result (count_by slash_here (texts words.now) ≢ 1) (λ s. InTwo (texts words.now) (texts s.0.now) (texts s.1.now)) }
{
    let slash = slash_in(words)?;
    let after = &words[slash + 1..];
    if slash_in(after).is_some() {
        return None;
    }
    Some((&words[..slash], after))
}

// The command of a line that begins with `write`.
fn write(heap: Global, arguments: &[&[u8]]) -> Result<Command, LineFault>
    ensures { Understood (word_of name.Write ∷ texts arguments.now) result }
{
    let Some((symbols, heights)) = sides(arguments) else {
        return Err(LineFault::Form(Name::Write));
    };
    Ok(Command::Write {
        symbols: numbers(heap, 2, symbols)?,
        heights: numbers(heap, symbols.len() + 3, heights)?,
    })
}

// The command of a line that begins with `mark`.
fn mark(arguments: &[&[u8]]) -> Result<Command, LineFault>
    ensures { Understood (word_of name.Mark ∷ texts arguments.now) result }
{
    let [column] = arguments else {
        return Err(LineFault::Form(Name::Mark));
    };
    Ok(Command::Mark {
        column: number(2, column)?,
    })
}

// The command of a line that begins with `raise`.
fn raise(arguments: &[&[u8]]) -> Result<Command, LineFault>
    ensures { Understood (word_of name.Raise ∷ texts arguments.now) result }
{
    let [row, column, amount] = arguments else {
        return Err(LineFault::Form(Name::Raise));
    };
    Ok(Command::Raise {
        row: number(2, row)?,
        column: number(3, column)?,
        amount: number(4, amount)?,
    })
}

// The command of a line that begins with `jolt`.
fn jolt(arguments: &[&[u8]]) -> Result<Command, LineFault>
    ensures { Understood (word_of name.Jolt ∷ texts arguments.now) result }
{
    let [row, column, reading] = arguments else {
        return Err(LineFault::Form(Name::Jolt));
    };
    Ok(Command::Jolt {
        row: number(2, row)?,
        column: number(3, column)?,
        reading: number(4, reading)?,
    })
}

// The command of a line that begins with `read`.
fn read(arguments: &[&[u8]]) -> Result<Command, LineFault>
    ensures { Understood (word_of name.Read ∷ texts arguments.now) result }
{
    match arguments {
        [] => Ok(Command::Read),
        [symbols, heights] => Ok(Command::ReadInto {
            symbols: number(2, symbols)?,
            heights: number(3, heights)?,
        }),
        _ => Err(LineFault::Form(Name::Read)),
    }
}

// The bytes that hexadecimal digits write.
fn bytes(heap: Global, word: &[u8]) -> Result<Vec<u8>, LineFault>
    ensures { MatchResult result (λ v. decode_of word.now ≡ Ok v.items) (BadBytes word.now) }
{
    hex::decode(heap, word).map_err(|error| match error {
        FromHexError::OutOfMemory => LineFault::NoMemory,
        _ => LineFault::NoBytes,
    })
}

// The command of a line that begins with `image`.
fn image(heap: Global, arguments: &[&[u8]]) -> Result<Command, LineFault>
    ensures { Understood (word_of name.Image ∷ texts arguments.now) result }
{
    match arguments {
        [] => Ok(Command::Image),
        [digits] => Ok(Command::SetImage(bytes(heap, digits)?)),
        _ => Err(LineFault::Form(Name::Image)),
    }
}

// The command of a line that begins with `poke`.
fn poke(arguments: &[&[u8]]) -> Result<Command, LineFault>
    ensures { Understood (word_of name.Poke ∷ texts arguments.now) result }
{
    let [at, byte] = arguments else {
        return Err(LineFault::Form(Name::Poke));
    };
    let at = number(2, at)?;
    let byte = number(3, byte)?;
    match u8::try_from(byte) {
        Ok(byte) => Ok(Command::Poke { at, byte }),
        Err(_) => Err(LineFault::NoByte),
    }
}

// A command that takes no words after its name.
fn alone(name: Name, arguments: &[&[u8]], command: Command) -> Result<Command, LineFault>
    ensures { MatchResult result (λ r. (r ≡ command) × (length arguments.now ≡ 0)) (λ fault. (fault ≡ Form name) × (length arguments.now ≢ 0)) }
{
    if arguments.is_empty() {
        Ok(command)
    } else {
        Err(LineFault::Form(name))
    }
}
