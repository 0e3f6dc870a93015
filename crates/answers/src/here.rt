// A partition of tables that have passed the test, and what an event makes of it.
ghost use Rattle.std.specs.Prelude.{◌≡◌, ◌*◌, ◌+◌, ◌<◌};
ghost use Rattle.protocol.specs.Bounds.{max_partitions};
ghost use Rattle.tables.specs.View.{Sized, partition_at, queue_at};
ghost use Rattle.answers.specs.Called.{Ready, refused_with};
ghost use Rattle.answers.specs.Change.{Applies, applied, changes_with, exchanges_with};

use crate::changes::{Change, changes, exchanges, keeps};
use crate::queues::queue;
use protocol::{Message, Refusal, Reply};
use tables::{Partition, Queue, Tables};

// The partition `at` is there, and the tables are in order. They are lent, so that no layer of an event copies them. It is built where
// that was tested.
#[derive(Clone, Copy)]
pub struct Here<'a> {
    pub tables: &'a Tables,
    pub at: usize,
    pub ghost sized: { Sized tables.now },
    pub ghost ready: { Ready tables.now },
    pub ghost there: { at < tables.now.count },
    pub ghost four: { at < max_partitions },
}

impl<'a> Here<'a> {
    // The partition itself.
    pub fn own(&self) -> &'a Partition
        ensures { result.now ≡ partition_at self.now.tables.now self.now.at }
    {
        &self.tables.partitions[self.at]
    }

    // The queue to it from partition s.
    pub fn queue_from(&self, s: usize) -> &'a Queue
        requires { s < max_partitions }
        ensures { result.now ≡ queue_at self.now.tables.now (s * max_partitions + self.now.at) }
    {
        queue(self.tables, s, self.at)
    }

    // A refusal: it stays as it is.
    pub fn keeps(&self, why: Refusal) -> Change
        ensures result_value { applied self.now.tables.now result ≡ refused_with self.now.tables.now why }
        ensures applies { Applies self.now.tables.now result }
    {
        keeps(self.at, *self.own(), why)
    }

    // It becomes x; no message is taken or sent.
    pub fn changes(&self, x: Partition, number: u32, reply: Reply) -> Change
        ensures { result ≡ changes_with self.now.at x number reply }
    {
        changes(self.at, x, number, reply)
    }

    // It becomes x; a message from q is taken, one is sent there, or both.
    pub fn exchanges(
        &self,
        q: usize,
        x: Partition,
        number: u32,
        takes: bool,
        sends: Option<Message>,
    ) -> Change
        ensures { result ≡ exchanges_with self.now.at q x number takes sends }
    {
        exchanges(self.at, q, x, number, takes, sends)
    }
}
