// Writes a line of numbers into a lent buffer: decimals without leading zeros, one space between two, and LF.
ghost use Rattle.std.specs.Prelude.{[], ◌∷◌, ◌≡◌, ◌*◌, ◌+◌, ◌-◌, ◌<◌, ◌≤◌, leb, length};
ghost use Rattle.rehearsal.specs.Line.{base, digit_zero, space};
ghost use Rattle.rehearsal.specs.Answers.{numbers_of, max_numbers};
ghost use Rattle.rehearsal.specs.Text.{decimal_of, spaced, rest_text, line_text, most_digits, written, Puts, Adds};

use rehearsal::{DIGIT_ZERO, LF, Numbers, SPACE};

const BASE: u64 = rehearsal::BASE as u64;

// Digits are divided off the number: there is no list to go through.
fn digit_count(n: u64) -> usize
    ensures { (result ≡ length (decimal_of n)) × (result ≤ most_digits) }
{
    let mut count = 1;
    let mut rest = n;
    while BASE <= rest {
        rest /= BASE;
        count += 1;
    }
    count
}

fn digit_of(n: u64) -> u8
    requires { n < base }
    ensures { result ≡ digit_zero + n }
{
    DIGIT_ZERO + n as u8
}

// The digits of n, the last of them right before a place.
fn put_digits(out: &mut [u8], end: usize, n: u64)
    requires { (length (decimal_of n) ≤ end) × (end ≤ length out.old) }
    ensures { out.new ≡ written out.old (end - length (decimal_of n)) (decimal_of n) }
{
    let mut at = end - 1;
    let mut rest = n;
    while BASE <= rest {
        out[at] = digit_of(rest % BASE);
        at -= 1;
        rest /= BASE;
    }
    out[at] = digit_of(rest);
}

fn has_room(len: usize, at: usize, size: usize) -> bool
    ensures { result ≡ leb (at + size) len }
{
    at <= len && size <= len - at
}

// A number's text; where the room is too short, nothing.
pub fn put_number(out: &mut [u8], at: usize, n: u64) -> usize
    ensures { Puts (decimal_of n) out.old at out.new result }
{
    let size = digit_count(n);
    if !has_room(out.len(), at, size) {
        return at;
    }
    put_digits(out, at + size, n);
    at + size
}

// A byte, where there is room.
fn put_byte(out: &mut [u8], at: usize, b: u8) -> usize
    requires { at < length out.old }
    ensures { Adds (b ∷ []) out.old at out.new result }
{
    out[at] = b;
    at + 1
}

// A number behind a space, where there is room.
fn put_next(out: &mut [u8], at: usize, n: u32) -> usize
    requires { at + length (space ∷ decimal_of n) ≤ length out.old }
    ensures { Adds (space ∷ decimal_of n) out.old at out.new result }
{
    let next = put_byte(out, at, SPACE);
    put_number(out, next, u64::from(n))
}

fn spaced_size(numbers: &[u32]) -> usize
    requires { length numbers.now ≤ max_numbers }
    ensures { (result ≡ length (spaced numbers.now)) × (result ≤ max_numbers * (most_digits + 1)) }
{
    let mut size = 0;
    for n in numbers {
        size += 1 + digit_count(u64::from(*n));
    }
    size
}

fn put_spaced(out: &mut [u8], at: usize, numbers: &[u32]) -> usize
    requires { at + length (spaced numbers.now) ≤ length out.old }
    ensures { Adds (spaced numbers.now) out.old at out.new result }
{
    let mut next = at;
    for n in numbers {
        next = put_next(out, next, *n);
    }
    next
}

fn put_rest(out: &mut [u8], at: usize, numbers: &[u32]) -> usize
    requires { at + length (rest_text numbers.now) ≤ length out.old }
    ensures { Adds (rest_text numbers.now) out.old at out.new result }
{
    let next = put_spaced(out, at, numbers);
    put_byte(out, next, LF)
}

// A line of the output: its own number, what it answers, and LF; where the room is too short, nothing.
pub fn put_line(out: &mut [u8], at: usize, line: u64, x: Numbers) -> usize
    ensures { Puts (line_text (line ∷ numbers_of x)) out.old at out.new result }
{
    let numbers = x.listed();
    let size = digit_count(line) + spaced_size(numbers) + 1;
    if !has_room(out.len(), at, size) {
        return at;
    }
    let next = put_number(out, at, line);
    put_rest(out, next, numbers)
}
