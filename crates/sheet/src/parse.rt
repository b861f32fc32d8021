//! Taking one line of a sheet apart.
ghost use Rattle.std.specs.Prelude.{◌≡◌, [], ◌∷◌};
ghost use Rattle.sheet.specs.Entries.{entry, Parses};
ghost use Rattle.sheet.specs.Fields.{Collects, positive, shape, Shapes};
ghost use Rattle.sheet.specs.Numeral.{digits_from, Numbered};

use crate::line::{Line, Numbers};
use terms::{Gate, Kind, Wire};

/// The number that the digits `bytes` make, if it is at most 4,096.
fn digits(bytes: &[u8]) -> Option<u16>
    ensures { result ≡ digits_from 0 bytes.now }
{
    let mut n = 0;
    let mut rest = bytes;
    // No `for`: by a rule of this project the bytes of a field are taken apart as first byte and rest, by slice patterns with
    // guards.
    loop {
        match rest {
            [] => return Some(n),
            [d, after @ ..] if d.is_ascii_digit() => {
                n = n * 10 + (*d - b'0') as u16;
                if n > 4096 {
                    return None;
                }
                rest = after;
            }
            _ => return None,
        }
    }
}

/// The number that `bytes` write in base ten with no sign and no leading zero, if it is at most 4,096.
fn number(bytes: &[u8]) -> Option<u16>
    ensures { Numbered bytes.now result }
{
    match bytes {
        [b'0'] => Some(0),
        [] | [b'0', ..] => None,
        _ => digits(bytes),
    }
}

/// The numbers in the fields of `bytes`, if these are at most eight.
fn numbers_in(bytes: &[u8]) -> Option<Numbers>
    ensures { Collects [] (9 ∷ bytes.now) result }
{
    let mut numbers = Numbers::new();
    for field in bytes.split(|b| *b == b'\t') {
        numbers.push(number(field)?)?;
    }
    Some(numbers)
}

/// Whether each of the numbers is at least 1.
fn all_positive(numbers: &[u16]) -> bool
    ensures { result ≡ positive numbers.now }
{
    numbers.iter().all(|n| *n > 0)
}

impl Line {
    /// The line of a node that has no parts.
    fn leaf(kind: Kind) -> Line
        ensures { entry result ≡ (kind, []) }
    {
        Line {
            kind,
            parts: Numbers::new(),
        }
    }

    /// The line of a node with these parts.
    fn with(kind: Kind, parts: Numbers) -> Line
        ensures { entry result ≡ (kind, parts) }
    {
        Line { kind, parts }
    }
}

/// The line that the letter makes of the numbers.
fn shaped(letter: u8, numbers: Numbers) -> Option<Line>
    ensures { Shapes (shape letter numbers) result }
{
    match (letter, numbers.as_slice()) {
        (b'v', [up @ 0..=4095, place @ 0..=7]) => {
            let (up, place) = (*up, *place as u8);
            Some(Line::leaf(Kind::Variable { place, up }))
        }
        (b'w', [wire]) => Some(Line::leaf(Kind::Wire(Wire::new(*wire)?))),
        (b'c', [bit @ 0..=1]) => Some(Line::leaf(Kind::Constant(*bit == 1))),
        (b'n', [(1..)]) => Some(Line::with(Kind::New, numbers)),
        (b'b', [(1..)]) => Some(Line::with(Kind::Bang, numbers)),
        (b'a', [(1..), (1..)]) => Some(Line::with(Kind::Application, numbers)),
        (b't', parts @ [_, _, ..]) if all_positive(parts) => {
            let count = parts.len() as u8;
            Some(Line::with(Kind::Tuple(count), numbers))
        }
        (b'l', [pattern @ 0..=8, body @ (1..)]) => {
            Some(Line::with(Kind::Binder(*pattern as u8), Numbers::one(*body)))
        }
        _ => None,
    }
}

/// What a line says, which stands here without its line feed; none if it follows no form.
pub(crate) fn line_of(line: &[u8]) -> Option<Line>
    ensures { Parses line.now result }
{
    match line {
        [b'g', b'\t', name @ ..] => Some(Line::leaf(Kind::Gate(Gate::named(name)?))),
        [letter, b'\t', rest @ ..] => shaped(*letter, numbers_in(rest)?),
        _ => None,
    }
}
