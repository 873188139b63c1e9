ghost use Rattle.std.specs.Prelude.{◌≡◌};
ghost use Rattle.rm_report.specs.Summaries.{longest, longest_in, longest_said, longest_answered};

use rm_types::{Entry, MasterAsk, Message, NodeAsk, Reply};

/// How many items the longest list of all lines has.
pub(crate) fn longest(entries: &[Entry]) -> usize
    ensures { result ≡ longest entries.now }
{
    let mut most: usize = 0;
    let mut rest = entries;
    'entries: while let [entry, more @ ..] = rest {
        most = most.max(longest_in(entry));
        rest = more;
    }
    most
}

/// The same of one line.
fn longest_in(entry: &Entry) -> usize
    ensures { result ≡ longest_in entry.now }
{
    match entry {
        Entry::Served { message, reply, .. } => {
            longest_said(message.get()).max(longest_answered(reply.get()))
        }
        Entry::Absorbed { taken, ended, .. } => taken.get().len().max(ended.get().len()),
        Entry::Pass { grants, .. } => grants.get().len(),
        Entry::Ended { list, .. } => list.len(),
        _ => 0,
    }
}

fn longest_said(message: &Message) -> usize
    ensures { result ≡ longest_said message.now }
{
    match message {
        Message::Master(_, MasterAsk::Allocate { asks, release, .. }) => {
            asks.len().max(release.len())
        }
        Message::Node(_, NodeAsk::Register { running, .. }) => running.len(),
        Message::Node(_, NodeAsk::Beat { running, done, .. }) => running.len().max(done.len()),
        _ => 0,
    }
}

fn longest_answered(reply: &Reply) -> usize
    ensures { result ≡ longest_answered reply.now }
{
    match reply {
        Reply::Denied(denial) => denial.lists.len(),
        Reply::Took { kept } => kept.len(),
        Reply::Allocated { grants, ended, .. } => grants.len().max(ended.len()),
        Reply::Beat { launch, clean, .. } => launch.len().max(clean.len()),
        _ => 0,
    }
}
