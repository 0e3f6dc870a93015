// Link, create and unlink: an ask opens a ready record (document 01, 'The nine events', 1 to 3).
#![tactic(auto)]

ghost use Rattle.std.specs.Prelude.{◌∷◌, [], ◌≡◌, ◌<◌, ◌≤◌, ltb};
ghost use Rattle.lists.specs.Lists.{every, keep, is_none};
ghost use Rattle.protocol.specs.Answers.{accept};
ghost use Rattle.protocol.specs.Ask.{ask, ask_tables, open_ask, asked, unlink, unlink_found, unlink_of};
ghost use Rattle.protocol.specs.declared.Reply.TheVariants.{None};
ghost use Rattle.protocol.specs.Bounds.{max_records};
ghost use Rattle.protocol.specs.Tables.{is_directory, is_object, open_record, partition, record_bears, stands_under};
ghost use Rattle.tables.specs.View.{view, entries_of, records_of, partition_at};
ghost use Rattle.answers.specs.Called.{Ready, stored, tested};
ghost use Rattle.answers.specs.Change.{Applies, applied};
ghost use Rattle.asks.specs.Asked.{Opens, Placed};

use answers::changes::{Change, apply};
use answers::here::Here;
use answers::{Answered, is_there, refused, small};
use names::Name;
use protocol::{Entry, Kind, Record, Refusal, Reply, Stage};
use tables::{
    DIRECTORIES, Entries, LARGEST_NUMBER, MAX_ENTRIES, MAX_RECORDS, OBJECTS, Records, Tables,
    reads, writes,
};

// ---- link and create

// The naming that they ask for: the name in the directory, for the object of the partition.
#[derive(Clone, Copy)]
pub struct Naming {
    pub kind: Kind,
    pub directory: u32,
    pub name: Name,
    pub partition: u32,
    pub object: u32,
}

impl Naming {
    // Whether its directory, its partition and its object are there, of n partitions.
    fn is_in_range(self, n: usize) -> bool
        ensures { result ≡ every (is_directory self.directory ∷ ltb self.partition n ∷ is_object self.object ∷ []) }
    {
        self.directory < DIRECTORIES as u32
            && (self.partition as usize) < n
            && self.object < OBJECTS as u32
    }

    // The record that it opens.
    fn record(self, number: u32) -> Record
        requires { (self.directory < 256) × (self.partition < 256) × (self.object < 256) }
        ensures { result ≡ asked self.kind self.directory self.name self.partition self.object number }
    {
        Record {
            kind: self.kind,
            directory: small(self.directory),
            name: self.name,
            partition: small(self.partition),
            object: small(self.object),
            number,
            stage: Stage::Ready,
        }
    }
}

fn is_free(l: &Entries, directory: u8, name: Name) -> bool
    ensures { result ≡ is_none (keep (stands_under directory name) (entries_of l.now)) }
{
    reads::find_name(l, directory, name).is_none()
}

// An ask of the partition that is here; all that it names is there.
#[derive(Clone, Copy)]
struct Asked<'a> {
    here: Here<'a>,
    naming: Naming,
    ghost placed: { Placed here.tables.now naming.directory naming.partition naming.object },
}

impl Asked<'_> {
    // The number is given, and the record opened.
    fn open(self) -> Change
        requires { Opens self.here.tables.now self.here.at }
        ensures result_value { let t = self.entry.here.tables.now in let a = self.entry.naming in applied t result ≡ stored t (open_ask a.kind (view t) self.entry.here.at a.directory a.name a.partition a.object) }
        ensures applies { Applies self.entry.here.tables.now result }
    {
        let mut own = *self.here.own();
        own.last += 1;
        writes::add(&mut own.records, self.naming.record(own.last));
        self.here.changes(own, own.last, Reply::None)
    }

    // The refusals that look into the partition's tables.
    fn look(self) -> Change
        ensures result_value { let t = self.entry.here.tables.now in let a = self.entry.naming in applied t result ≡ stored t (ask_tables a.kind (view t) self.entry.here.at a.directory a.name a.partition a.object) }
        ensures applies { Applies self.entry.here.tables.now result }
    {
        let own = self.here.own();
        if !is_free(&own.entries, self.naming.directory as u8, self.naming.name) {
            return self.here.keeps(Refusal::NameExists);
        }
        if own.last >= LARGEST_NUMBER {
            return self.here.keeps(Refusal::NumbersSpent);
        }
        if own.records.count >= MAX_RECORDS {
            return self.here.keeps(Refusal::LogFull);
        }
        if reads::claimed(&own.entries, &own.records) >= MAX_ENTRIES {
            return self.here.keeps(Refusal::EntriesFull);
        }
        self.open()
    }

    // The refusals that come before those.
    fn start(self) -> Change
        ensures result_value { let t = self.entry.here.tables.now in let a = self.entry.naming in applied t result ≡ stored t (ask a.kind (view t) self.entry.here.at a.directory a.name a.partition a.object) }
        ensures applies { Applies self.entry.here.tables.now result }
    {
        if !names::good(self.naming.name) {
            return self.here.keeps(Refusal::BadName);
        }
        if !self.here.own().up {
            return self.here.keeps(Refusal::Down);
        }
        self.look()
    }
}

// What link or create does to the partition: it is stored by who holds the tables.
pub fn ask_change(here: Here, naming: Naming) -> Change
    ensures result_value { let t = here.entry.tables.now in applied t result ≡ stored t (ask naming.kind (view t) here.entry.at naming.directory naming.name naming.partition naming.object) }
    ensures applies { Applies here.entry.tables.now result }
{
    if !naming.is_in_range(here.tables.count) {
        return here.keeps(Refusal::OutOfRange);
    }
    Asked { here, naming }.start()
}

fn ask_in_order(t: Tables, p: u32, naming: Naming) -> Answered
    requires { Ready t }
    ensures { result ≡ stored t (ask naming.kind (view t) p naming.directory naming.name naming.partition naming.object) }
{
    if !is_there(t.count, p) {
        return refused(t, Refusal::OutOfRange);
    }
    let here = Here {
        tables: &t,
        at: p as usize,
    };
    apply(t, ask_change(here, naming))
}

// Link or create, on any tables.
pub fn ask(kind: Kind, t: Tables, p: u32, d: u32, name: Name, q: u32, o: u32) -> Answered
    ensures { result ≡ tested t (ask kind (view t) p d name q o) }
{
    if !order::in_order(t) {
        return refused(t, Refusal::OutOfOrder);
    }
    let naming = Naming {
        kind,
        directory: d,
        name,
        partition: q,
        object: o,
    };
    ask_in_order(t, p, naming)
}

// ---- unlink

fn is_unopened(l: &Records, number: u32) -> bool
    ensures { result ≡ is_none (keep (record_bears number) (records_of l.now)) }
{
    reads::find_record(l, number).is_none()
}

fn unlink_record(e: Entry) -> Record
    ensures { result ≡ unlink_of e }
{
    Record {
        kind: Kind::Unlink,
        directory: e.directory,
        name: e.name,
        partition: e.partition,
        object: e.object,
        number: e.number,
        stage: Stage::Ready,
    }
}

fn open_unlink(here: Here, e: Entry) -> Change
    requires { (partition_at here.tables.now here.at).records.count < max_records }
    ensures result_value { let t = here.entry.tables.now in applied t result ≡ stored t (accept e.number None (open_record (view t) here.entry.at (unlink_of e))) }
    ensures applies { Applies here.entry.tables.now result }
{
    let mut own = *here.own();
    writes::add(&mut own.records, unlink_record(e));
    here.changes(own, e.number, Reply::None)
}

// The entry that stands under the name.
fn unlink_entry(here: Here, e: Entry) -> Change
    ensures result_value { let t = here.entry.tables.now in applied t result ≡ stored t (unlink_found (view t) here.entry.at (e ∷ [])) }
    ensures applies { Applies here.entry.tables.now result }
{
    let own = here.own();
    if !is_unopened(&own.records, e.number) {
        return here.keeps(Refusal::RecordOpen);
    }
    if own.records.count >= MAX_RECORDS {
        return here.keeps(Refusal::LogFull);
    }
    open_unlink(here, e)
}

fn unlink_name(here: Here, d: u8, name: Name) -> Change
    ensures result_value { let t = here.entry.tables.now in let p = here.entry.at in applied t result ≡ stored t (unlink_found (view t) p (keep (stands_under d name) (partition (view t) p).entries)) }
    ensures applies { Applies here.entry.tables.now result }
{
    let entries = &here.own().entries;
    match reads::find_name(entries, d, name) {
        Some(i) => unlink_entry(here, entries.items[i]),
        None => here.keeps(Refusal::NameAbsent),
    }
}

// What unlink does to the partition: it is stored by who holds the tables.
pub fn unlink_change(here: Here, d: u32, name: Name) -> Change
    ensures result_value { let t = here.entry.tables.now in applied t result ≡ stored t (unlink (view t) here.entry.at d name) }
    ensures applies { Applies here.entry.tables.now result }
{
    if d >= DIRECTORIES as u32 {
        return here.keeps(Refusal::OutOfRange);
    }
    if !names::good(name) {
        return here.keeps(Refusal::BadName);
    }
    if !here.own().up {
        return here.keeps(Refusal::Down);
    }
    unlink_name(here, small(d), name)
}

pub fn unlink_in_order(t: Tables, p: u32, d: u32, name: Name) -> Answered
    requires { Ready t }
    ensures { result ≡ stored t (unlink (view t) p d name) }
{
    if !is_there(t.count, p) {
        return refused(t, Refusal::OutOfRange);
    }
    let here = Here {
        tables: &t,
        at: p as usize,
    };
    apply(t, unlink_change(here, d, name))
}
