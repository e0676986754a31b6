// Takes a line of a script apart: a comment is cut off, words stand apart by spaces, and a word may be a number.
ghost use Rattle.std.specs.Prelude.{◌≡◌, ◌&&◌, map, IfOk, if◌then◌else◌, Some, None, nat_le};
ghost use Rattle.std.specs.Char.{is_ascii_digit};
ghost use Rattle.scripts.specs.Script.{text_of, words_of, next_value, number_of};

use std::alloc::{AllocError, Global};

// A line without its comment.
fn text(line: &[u8]) -> &[u8]
    ensures { result.now ≡ text_of line.now }
{
    let end = line.iter().position(|b| *b == b'#').unwrap_or(line.len());
    &line[..end]
}

// The words of a line, without its comment.
pub fn words<'a>(heap: Global, line: &'a [u8]) -> Result<Vec<&'a [u8]>, AllocError>
    ensures { IfOk result (λ v. map (λ w. w.now) v.items ≡ words_of line.now) }
{
    text(line)
        .split(|b| *b == b' ')
        .filter(|word| !word.is_empty())
        .collect(heap)
}

// The number that the digits of `value` and then `digit` write in decimal, if it is one and at most 65535.
fn with_digit(value: u16, digit: u8) -> Option<u16>
    ensures { result ≡ (if is_ascii_digit digit && nat_le (next_value value digit) 65535 then Some (next_value value digit) else None) }
{
    if digit.is_ascii_digit() {
        value.checked_mul(10)?.checked_add(u16::from(digit - b'0'))
    } else {
        None
    }
}

// The number that a word is: one to five decimal digits, at most 65535.
pub fn number(word: &[u8]) -> Option<u16>
    ensures { result ≡ number_of word.now }
{
    if word.is_empty() || word.len() > 5 {
        return None;
    }
    word.iter()
        .try_fold(0, |value, &digit| with_digit(value, digit))
}
