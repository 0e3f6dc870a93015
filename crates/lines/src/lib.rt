// Reads a line word by word, from its first byte to its last, with no copy of it.
#![tactic(auto)]

ghost use Rattle.std.specs.Prelude.{not, [], ◌∷◌, ◌≡◌, ◌==◌, length, drop, unwrap_or};
ghost use Rattle.std.specs.List.{prefix_len};
ghost use Rattle.names.specs.Names.{name_of};
ghost use Rattle.rehearsal.specs.Line.{space, up_to, behind, starts_well, row_for, asked, not_understood, command_of};
ghost use Rattle.lines.specs.Places.{digits_in, number_in, number_at, row_found, shape_of};

use names::{NAME_BYTES, Name};
use rehearsal::{BASE, Command, DIGIT_ZERO, LINE_BYTES, SPACE, Verb, WORDS};

// The largest number, 4,294,967,295, has so many digits.
const NUMBER_DIGITS: usize = 10;

// A row of the table of commands: so many words behind the letter, and which of them is the name, if one is.
#[derive(Clone, Copy)]
struct Shape {
    verb: Verb,
    words: usize,
    name: Option<usize>,
}

// How long the first word of these bytes is: it ends at a space, or with them.
fn word_len(bytes: &[u8]) -> usize
    ensures { result ≡ prefix_len (λ b. not (b == space)) bytes.now }
{
    bytes.iter().take_while(|b| **b != SPACE).count()
}

// The word that begins at this place: no byte, where a space stands there or the line has ended.
fn word_at(line: &[u8], from: usize) -> &[u8]
    ensures { result.now ≡ up_to space (drop from line.now) }
{
    let rest = &line[from.min(line.len())..];
    &rest[..word_len(rest)]
}

// A decimal does not start with 0, unless that is all of it.
fn starts_well(word: &[u8]) -> bool
    ensures { result ≡ starts_well word.now }
{
    match word {
        [] => false,
        [first, rest @ ..] => *first != DIGIT_ZERO || rest.is_empty(),
    }
}

// The value of digits: none, where a byte is no digit, and where a number of the type cannot hold it.
fn digits_in(word: &[u8]) -> Option<u32>
    ensures { result ≡ digits_in word.now }
{
    let mut value: u32 = 0;
    for b in word {
        if !b.is_ascii_digit() {
            return None;
        }
        value = value
            .checked_mul(BASE)?
            .checked_add(u32::from(*b - DIGIT_ZERO))?;
    }
    Some(value)
}

fn number_in(word: &[u8]) -> Option<u32>
    ensures { result ≡ number_in word.now }
{
    if !starts_well(word) {
        return None;
    }
    digits_in(word)
}

// The number that a word is, and the place behind the word. A word longer than any number is none, and is not read to its end.
pub fn number_at(line: &[u8], from: usize) -> Option<(u32, usize)>
    ensures { result ≡ number_at line.now from }
{
    let near = &line[..line.len().min(from.saturating_add(NUMBER_DIGITS + 1))];
    let word = word_at(near, from);
    let value = number_in(word)?;
    Some((value, from + word.len()))
}

// A name of more than eight bytes keeps the first eight, and its length says that it is too long.
fn name_in(word: &[u8]) -> Name
    ensures { result ≡ name_of word.now }
{
    let mut bytes = [0; NAME_BYTES];
    let kept = word.len().min(NAME_BYTES);
    bytes[..kept].copy_from_slice(&word[..kept]);
    Name {
        len: word.len().min(NAME_BYTES + 1) as u8,
        bytes,
    }
}

fn row(verb: Verb, words: usize, name: Option<usize>) -> Shape
    ensures { result ≡ record { verb = verb; words = words; name = name } }
{
    Shape { verb, words, name }
}

// The table of commands.
fn shape_of(letter: u8) -> Option<Shape>
    ensures { result ≡ row_found (letter ∷ []) }
{
    let row = match letter {
        b'P' => row(Verb::Open, 1, None),
        b'L' => row(Verb::Link, 5, Some(2)),
        b'C' => row(Verb::Create, 5, Some(2)),
        b'U' => row(Verb::Unlink, 3, Some(2)),
        b'A' => row(Verb::Advance, 2, None),
        b'D' => row(Verb::Deliver, 2, None),
        b'B' => row(Verb::Cut, 2, None),
        b'K' => row(Verb::Crash, 1, None),
        b'R' => row(Verb::Recover, 1, None),
        b'Z' => row(Verb::Settle, 1, None),
        b'S' => row(Verb::Totals, 0, None),
        b'Q' => row(Verb::Square, 0, None),
        _ => return None,
    };
    Some(row)
}

fn not_understood() -> Command
    ensures { result ≡ not_understood }
{
    Command {
        verb: Verb::NotUnderstood,
        name: names::zero(),
        numbers: [0; WORDS],
    }
}

// The words behind the letter, one after the other. A word ends at a space or at the end of the line.
fn arguments(line: &[u8], shape: Shape) -> Option<Command>
    requires letter { length (up_to space line.now) ≡ 1 }
    requires row { shape ≡ shape_of (row_for (up_to space line.now)) }
    ensures { unwrap_or result not_understood ≡ asked (row_for (up_to space line.now)) (behind space line.now) }
{
    let mut numbers = [0; WORDS];
    let mut name = names::zero();
    let mut at = 1;
    for k in 0..shape.words {
        if line.len() <= at {
            return None;
        }
        let word = word_at(line, at + 1);
        if shape.name == Some(k) {
            if word.is_empty() {
                return None;
            }
            name = name_in(word);
        } else {
            numbers[k] = number_in(word)?;
        }
        at += 1 + word.len();
    }
    if at < line.len() {
        return None;
    }
    Some(Command {
        verb: shape.verb,
        name,
        numbers,
    })
}

fn understood(line: &[u8]) -> Option<Command>
    ensures { unwrap_or result not_understood ≡ command_of line.now }
{
    if LINE_BYTES < line.len() {
        return None;
    }
    let [letter] = word_at(line, 0) else {
        return None;
    };
    arguments(line, shape_of(*letter)?)
}

// What a line asks, whatever its bytes; the LF that ends it is not among them.
pub fn command_of(line: &[u8]) -> Command
    ensures { result ≡ command_of line.now }
{
    understood(line).unwrap_or(not_understood())
}
