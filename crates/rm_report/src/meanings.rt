ghost use Rattle.std.specs.Prelude.{◌≡◌};
ghost use Rattle.rm_report.specs.Meanings.{issued_meaning, kept_meaning, reply_meaning, cause_meaning, opened_meaning, meaning};

use rm_types::{Cause, Entry, Op, Reply};

/// What the line of an entry means, in half a line.
pub(crate) fn meaning(entry: &Entry) -> &'static [u8]
    ensures { result.now ≡ meaning entry.now }
{
    match entry {
        Entry::Opened { landed, .. } => opened_meaning(*landed),
        Entry::Issued { op } => issued_meaning(op.get()),
        Entry::Handed => b"",
        Entry::Kept { op } => kept_meaning(op.get()),
        Entry::Blown { .. } => b"the store's device refused a call: this life keeps nothing more",
        Entry::Served { reply, .. } => reply_meaning(reply.get()),
        Entry::Accepted { .. } => b"the application is accepted, and an attempt is to follow",
        Entry::Queued { .. } => b"the attempt asks for its master's container",
        Entry::Absorbed { .. } =>
            b"the node's report is absorbed: what it runs is taken in again, or ended",
        Entry::Pass { .. } => b"the node's beat is answered with grants",
        Entry::Ordered { .. } => b"the master's container is ordered on its node",
        Entry::Ended { cause, .. } => cause_meaning(*cause),
        Entry::Settled => b"all was worked off",
        Entry::Down => b"the manager goes down",
        Entry::Quiet { .. } => b"",
    }
}

/// How a life begins.
fn opened_meaning(landed: u32) -> &'static [u8]
    ensures { result.now ≡ opened_meaning landed }
{
    if landed == 0 {
        b"a life begins; landed=0: no operation on its way was kept"
    } else {
        b"a life begins; landed=1: the operation on its way was kept"
    }
}

/// What it means that an operation is issued.
fn issued_meaning(op: &Op) -> &'static [u8]
    ensures { result.now ≡ issued_meaning op.now }
{
    match op {
        Op::Epoch { .. } => b"the life's epoch is on its way to the store",
        Op::App { .. } => b"the submission is on its way to the store",
        Op::Attempt { .. } => b"the attempt's master and its node are on their way to the store",
        Op::AttemptEnd { .. } => b"the end of the attempt is on its way to the store",
        Op::AppEnd { .. } => b"the end of the application is on its way to the store",
        Op::Remove { .. } => b"that the application is forgotten is on its way to the store",
    }
}

/// What it means that an operation is kept.
fn kept_meaning(op: &Op) -> &'static [u8]
    ensures { result.now ≡ kept_meaning op.now }
{
    match op {
        Op::Epoch { .. } => b"the life's epoch is kept, and the life answers from here on",
        Op::App { .. } => b"the submission is kept: no crash takes it back",
        Op::Attempt { .. } => b"the attempt is kept, and its master may be ordered",
        Op::AttemptEnd { .. } => b"the end of the attempt is kept",
        Op::AppEnd { .. } => b"the end of the application is kept: it has its final state",
        Op::Remove { .. } => b"the application is forgotten, and its id retired",
    }
}

/// What a reply means.
fn reply_meaning(reply: &Reply) -> &'static [u8]
    ensures { result.now ≡ reply_meaning reply.now }
{
    match reply {
        Reply::NotOpen => b"the life hasn't kept its epoch yet; to be said again later",
        Reply::New(_) => b"the id is the client's, to submit under",
        Reply::Submitted => b"the submission is taken, and isn't kept yet",
        Reply::BadId => b"the id was never given",
        Reply::Retired => b"that application was forgotten",
        Reply::NoQueue => b"the queue isn't there, or has queues below it",
        Reply::Denied(_) => b"no right: none of the lists that are named admits the user",
        Reply::TooLarge => b"a container is greater than the greatest",
        Reply::Full => b"as many applications or asks go on as may",
        Reply::Unknown => b"the manager knows of none such",
        Reply::Report(_) => b"the client is told how the application stands",
        Reply::Killing => b"the kill is wished; a wish falls with the life",
        Reply::AppEnded => b"the application had ended before the kill",
        Reply::MasterRegistered => b"this life knows the master",
        Reply::Took { .. } =>
            b"this life knows the master, which is handed the containers of attempts before",
        Reply::Already => b"the master had registered in this life",
        Reply::Gone => b"the attempt is over, or isn't kept",
        Reply::Resync => b"this life doesn't know it, or lost count: it has to register again",
        Reply::WrongId => b"the id is neither the last nor the one before",
        Reply::NotRegistered => b"the master has to register first",
        Reply::Finishing => b"the master's end is on its way to the store",
        Reply::Finished => b"the master's end is kept",
        Reply::Allocated { .. } => b"the master is told its grants, and the containers that ended",
        Reply::NodeRegistered { .. } => b"the node's report waits to be absorbed",
        Reply::Beat { .. } => b"the node is told which masters to launch, and what to end",
        Reply::Ok => b"the time went on, or the lease ran out",
    }
}

/// Why containers ended.
fn cause_meaning(cause: Cause) -> &'static [u8]
    ensures { result.now ≡ cause_meaning cause }
{
    match cause {
        Cause::Done => b"the containers ended: their node reported them done",
        Cause::Released => b"the containers ended: their master released them",
        Cause::Node => b"the containers ended: their node was lost",
        Cause::Attempt => b"the containers ended: their attempt is over",
        Cause::Gone =>
            b"the containers ended: their node didn't report them, or they weren't taken",
    }
}
