// A rehearsal from a reader to a writer (document 01, 'The rehearsal program'), of which the programs are made.
// `blocks` answers the bytes of a block; here blocks are read and their answers written, and that is all.
#![tactic(auto)]

ghost use Rattle.std.specs.Prelude.{◌≡◌, ◌*◌, ◌≤◌, length, take};
ghost use Rattle.rehearsal.specs.Text.{Adds};
ghost use Rattle.feeding.specs.Feed.{block_bytes, fed, longest_answer, said, said_last};
ghost use Rattle.feeding.specs.Sessions.{sessions};
ghost use Rattle.stream.specs.Keeping.{midway_of};

use blocks::Kept;
use rehearsal::LF;
use std::io::{Read, Write};

mod blocks;

// So many bytes are read at once.
const BLOCK: usize = 4096;

// Room for the answers to any block: each of its bytes may end a line, and have the longest answer.
const ROOM: usize = 851968;

// The lent room, with its length said once: a proof that looks into so long an array takes long.
fn empty_room() -> [u8; ROOM]
    ensures { block_bytes * longest_answer ≡ length result }
{
    [0; ROOM]
}

// What a turn leaves: so many bytes were read, their answers end at this place, and whether they could be written.
#[derive(Clone, Copy)]
struct Turn {
    read: usize,
    place: usize,
    written: bool,
}

// How many bytes were read into the block: none where the read failed.
fn read_block<R: Read>(from: &mut R, block: &mut [u8]) -> usize
    ensures { result ≤ length block.new }
{
    from.read(block).unwrap_or(0)
}

// Whether all of the answers could be written.
fn write_answers<W: Write>(to: &mut W, answers: &[u8]) -> bool {
    to.write_all(answers).is_ok()
}

// Reads a block, answers it and writes the answers at once.
fn take_turn<R: Read, W: Write>(
    from: &mut R,
    to: &mut W,
    k: &mut Kept,
    block: &mut [u8],
    out: &mut [u8],
) -> Turn
    requires { length block.old * longest_answer ≤ length out.old }
    ensures kept_value { midway_of k.new ≡ fed sessions (midway_of k.old) (take result.read block.new) }
    ensures adds { Adds (said sessions (midway_of k.old) (take result.read block.new)) out.old 0 out.new result.place }
{
    let read = read_block(from, block);
    let place = blocks::feed(k, &block[..read], out);
    let written = write_answers(to, &out[..place]);
    Turn {
        read,
        place,
        written,
    }
}

// The last line may lack its LF: the answer to it, if there is one, ends at the place that is given back.
fn finish<W: Write>(to: &mut W, k: &mut Kept, out: &mut [u8]) -> usize
    requires { longest_answer ≤ length out.old }
    ensures { Adds (said_last sessions (midway_of k.old)) out.old 0 out.new result }
{
    if !blocks::has_begun(k) {
        return 0;
    }
    let place = blocks::feed(k, &[LF], out);
    write_answers(to, &out[..place]);
    place
}

// A whole rehearsal: the schedule is read to its end, and its answers written. What a file holds no contract can say.
// A proved loop has to end, and nothing says that the input does: no run takes so many turns.
pub fn run<R: Read, W: Write>(from: &mut R, to: &mut W) {
    let mut bytes = [0; BLOCK];
    let block: &mut [u8] = &mut bytes;
    let mut room = empty_room();
    let out: &mut [u8] = &mut room;
    let mut kept = blocks::start();
    for _ in 0..u64::MAX {
        let turn = take_turn(from, to, &mut kept, block, out);
        // The input has ended where nothing was read; and where the output is closed, there is no use in reading on.
        if turn.read == 0 || !turn.written {
            break;
        }
    }
    finish(to, &mut kept, out);
}
