// A picture read back and written again (document 01, 'The picture'). Standard input has the picture of a partition; it is loaded
// into fresh tables, and written from them as many times as the argument says. Standard output has what the last time left, the same
// bytes. One time shows that; many are for measuring one (bench/). Where something is refused, its number stands there instead: so
// is a back-pointer of another partition's (16), since in fresh tables the others have given no number.
#![tactic(auto)]

ghost use Rattle.std.specs.Prelude.{◌≡◌, ◌≤◌, length, IfOk};
ghost use Rattle.loading.specs.Loaded.{loaded};
ghost use Rattle.writing.specs.Written.{after};
ghost use Rattle.rewrite.specs.Again.{Counts, again, awaiting, times_of};

use answers::Answered;
use lines::number_at;
use numbers::refusal_number;
use picture::Head;
use protocol::Refusal;
use reading::read_picture;
use std::io::{self, Read, Write};
use std::rt::Env;
use tables::Tables;
use writing::write_picture;

// More bytes than the largest picture has, 2,620: a picture that fills a buffer is refused.
const BUFFER: usize = 4096;

// How many times, as a decimal says it; of anything else none, and then nothing is written.
fn times_of(word: &[u8]) -> u32
    ensures { result ≡ times_of word.now }
{
    let Some((times, next)) = number_at(word, 0) else {
        return 0;
    };
    if next < word.len() {
        return 0;
    }
    times
}

// Fresh tables of as many partitions as a header says, with the header's own down: only such a one is loaded. Those that are lent
// to `open` are not looked at.
fn awaiting(head: Head) -> Tables
    ensures { result ≡ awaiting head }
{
    let opened = events::open(tables::fresh::fresh(0), u32::from(head.count));
    events::crash(opened.tables, u32::from(head.partition)).tables
}

fn load_alone(head: Head, bytes: &[u8]) -> Answered
    ensures { result ≡ loaded (awaiting head) head.partition bytes.now }
{
    loading::load(awaiting(head), u32::from(head.partition), bytes)
}

// Each time the whole of the picture is written over what the time before it left.
fn write_times(t: Tables, p: u32, times: u32, room: &mut [u8]) -> Result<usize, Refusal>
    ensures room_after { after result room.new ≡ again t p times room.old }
    ensures prefix_len { IfOk result (λ size. Counts size room.new) }
{
    let mut told = Ok(0);
    for _time in 0..times {
        told = write_picture(t, p, room);
    }
    told
}

// The picture's size in the room, once it is loaded and written, or why it is not.
fn rewritten(bytes: &[u8], times: u32, room: &mut [u8]) -> Result<usize, Refusal>
    ensures { IfOk result (λ size. Counts size room.new) }
{
    let head = read_picture(bytes)?.head;
    let loaded = load_alone(head, bytes);
    if loaded.answer.refusal != Refusal::Accepted {
        return Err(loaded.answer.refusal);
    }
    write_times(loaded.tables, u32::from(head.partition), times, room)
}

// The picture where it was written, or else the number of the refusal.
fn rewrite(rt: &HostRuntime, bytes: &[u8], times: u32, room: &mut [u8]) -> io::Result<()> {
    match rewritten(bytes, times, room) {
        Ok(size) => rt.stdout().write_all(&room[..size]),
        Err(why) => {
            let number = refusal_number(why);
            println!(rt; "{number}")
        }
    }
}

// Reads until the buffer is full, the input ends or a read fails, and says how many bytes it has then.
fn read_full<R: Read>(from: &mut R, bytes: &mut [u8]) -> usize
    ensures { result ≤ length bytes.new }
{
    let mut size: usize = 0;
    // Each read says how much it filled, so no iterator has the turns.
    while size < bytes.len() {
        match from.read(&mut bytes[size..]) {
            Ok(0) => return size,
            Ok(read) => size += read,
            Err(_) => return size,
        }
    }
    size
}

// How many times the first argument says; none where there is none, or one that is longer than the buffer.
fn times_told(rt: &HostRuntime) -> u32 {
    let mut word = [0; BUFFER];
    match rt.arg(1, &mut word) {
        Ok(length) => times_of(&word[..length]),
        Err(_) => 0,
    }
}

fn main(rt: HostRuntime) -> io::Result<()> {
    let mut bytes = [0; BUFFER];
    let size = read_full(&mut rt.stdin(), &mut bytes);
    let times = times_told(&rt);
    let mut room = [0; BUFFER];
    rewrite(&rt, &bytes[..size], times, &mut room)
}
