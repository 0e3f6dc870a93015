// The input in blocks of any size: bytes are gathered to lines, and each line is answered where it ends.
ghost use Rattle.std.specs.Prelude.{◌≡◌, ◌+◌, ◌*◌, ◌<◌, ◌≤◌, [], ◌∷◌, length};
ghost use Rattle.lists.specs.Lists.{is_some};
ghost use Rattle.rehearsal.specs.Answers.{numbers_of};
ghost use Rattle.rehearsal.specs.Line.{command_of};
ghost use Rattle.rehearsal.specs.Text.{Adds, line_text};
ghost use Rattle.deeds.specs.Deeds.{Fits, left_by};
ghost use Rattle.feeding.specs.Feed.{begun_with, fed, longest_answer, next_line, said};
ghost use Rattle.feeding.specs.Sessions.{at_start, sessions};
ghost use Rattle.stream.specs.Keeping.{line_of, midway_of};

use answers::changes::{Change, sent_if, taken_if};
use deeds::Deed;
use lists::Bounded;
use losses::{Loss, partitions_after, queues_after};
use rehearsal::{Command, LF, LINE_BYTES, Numbers};
use sessions::Session;
use tables::{MAX_PARTITIONS, Tables};
use texts::text;

// One byte more than a line may have stands for any more.
const LINE_ROOM: usize = LINE_BYTES + 1;

// A line that has begun.
pub type Line = Bounded<u8, LINE_ROOM>;

// What is kept between two blocks: the line that has begun, how many lines were answered, and the session.
#[derive(Clone, Copy)]
pub struct Kept {
    pub line: Line,
    pub lines: u64,
    pub session: Session,
}

fn no_bytes() -> Line
    ensures { line_of result ≡ [] }
{
    Bounded {
        count: 0,
        items: [0; LINE_ROOM],
    }
}

fn with_byte(l: Line, b: u8) -> Line
    ensures { line_of result ≡ begun_with (line_of l) b }
{
    if LINE_ROOM <= l.count {
        return l;
    }
    let mut items = l.items;
    items[l.count] = b;
    Bounded {
        count: l.count + 1,
        items,
    }
}

fn command_in(l: Line) -> Command
    ensures { result ≡ command_of (line_of l) }
{
    lines::command_of(l.listed())
}

fn next_line(lines: u64) -> u64
    ensures { result ≡ next_line lines }
{
    std::num::wrapping_add_u64(lines, 1)
}

// An answer, where there is room for the longest.
fn put_answer(out: &mut [u8], at: usize, lines: u64, x: Numbers) -> usize
    requires { at + longest_answer ≤ length out.old }
    ensures adds { Adds (line_text (lines ∷ numbers_of x)) out.old at out.new result }
    ensures upper_bound { result ≤ at + longest_answer }
{
    text::put_line(out, at, lines, x)
}

pub fn start() -> Kept
    ensures { midway_of result ≡ at_start }
{
    Kept {
        line: no_bytes(),
        lines: 0,
        session: sessions::closed(),
    }
}

pub fn has_begun(k: &Kept) -> bool
    ensures { result ≡ is_some (line_of k.now.line) }
{
    !k.line.listed().is_empty()
}

// A change of one partition, stored in its place.
fn store(t: &mut Tables, change: Change)
    requires { Fits (Deed.Changes change) t.old }
    ensures { t.new ≡ left_by (Deed.Changes change) t.old }
{
    t.partitions[change.at] = change.partition;
    let from = change.other * MAX_PARTITIONS + change.at;
    let rest = taken_if(change.takes, t.queues[from]);
    t.queues[from] = rest;
    let to = change.at * MAX_PARTITIONS + change.other;
    let more = sent_if(change.sends, t.queues[to]);
    t.queues[to] = more;
}

// What a cut or a crash loses, taken out.
fn lose(t: &mut Tables, loss: Loss)
    requires { Fits (Deed.Loses loss) t.old }
    ensures { t.new ≡ left_by (Deed.Loses loss) t.old }
{
    let partitions = partitions_after(loss, *t, t.partitions);
    t.partitions = partitions;
    let queues = queues_after(loss, t.queues);
    t.queues = queues;
}

fn carry_out(t: &mut Tables, deed: Deed)
    requires { Fits deed t.old }
    ensures { t.new ≡ left_by deed t.old }
{
    match deed {
        Deed::Changes(change) => store(t, change),
        Deed::Loses(loss) => lose(t, loss),
        Deed::Says(_) => {}
    }
}

// Every byte of a block, in order; the answers stand in the lent room from its start, and end at the place that is given back. The
// tables stay a variable of this function, lent to the deed and stored into: to hand them on by value, or back, takes longer than the
// command.
pub fn feed(k: &mut Kept, block: &[u8], out: &mut [u8]) -> usize
    requires { length block.now * longest_answer ≤ length out.old }
    ensures kept_value { midway_of k.new ≡ fed sessions (midway_of k.old) block.now }
    ensures adds { Adds (said sessions (midway_of k.old) block.now) out.old 0 out.new result }
{
    let mut line = k.line;
    let mut lines = k.lines;
    let mut running = k.session.open;
    let mut tables = k.session.tables;
    let mut place = 0;
    for b in block {
        if *b != LF {
            line = with_byte(line, *b);
            continue;
        }
        lines = next_line(lines);
        let command = command_in(line);
        line = no_bytes();
        if let Some(deed) = deeds::deed_of(running, &tables, command) {
            carry_out(&mut tables, deed);
            place = put_answer(out, place, lines, deeds::numbers_said(deed));
        } else {
            let response = sessions::respond(
                Session {
                    open: running,
                    tables,
                },
                command,
            );
            running = response.session.open;
            tables = response.session.tables;
            place = put_answer(out, place, lines, response.numbers);
        }
    }
    *k = Kept {
        line,
        lines,
        session: Session {
            open: running,
            tables,
        },
    };
    place
}
