//! A node beats.
ghost use Rattle.std.specs.Prelude.{◌≡◌, ◌+◌, ◌<◌, ◌^◌, [], ◌∷◌, ◌++◌, IfOk, OnOk, OnErr};
ghost use Rattle.rm_types.specs.declared.containers.ContainerState.{ContainerState as Stage};
ghost use Rattle.rm_types.specs.declared.messages.NodeAsk.{NodeAsk as Ask};
ghost use Rattle.rm_types.specs.Records.{is_some_and};
ghost use Rattle.rm_book.specs.Books.{IsBook, book_row};
ghost use Rattle.rm_model.specs.NodeReplies.{reported};
ghost use Rattle.rm_model.specs.Facts.{has_container};
ghost use Rattle.rm_tables.specs.declared.events.SchedEvent.{SchedEvent as Event};
ghost use Rattle.rm_tables.specs.Nodes.{node_row};
ghost use Rattle.rm_tracker.specs.Answers.{after_node, beat_events, beaten_with, brought_all, brought_one, is_row_on, is_untold_row};
ghost use Rattle.rm_tracker.specs.Told.{beat_told, lives_at, new_beat_told, strangers_in};

use rm_book::Book;
use rm_states::node::{NodeState, is_registered};
use rm_tables::{NodeRow, SchedEvent, Tables};
use rm_types::{
    Boxed, ContainerId, ContainerState, Duplicate, Held, Items, NoMemory, Queue, Reply, Text,
};
use std::alloc::Global;

/// Whether a container's row is on a node.
fn is_on(book: &Book, name: &Text, id: ContainerId) -> bool
    ensures { result ≡ is_some_and (is_row_on name.now) (book_row book.now id) }
{
    match book.get(id) {
        Some(row) => row.node.is_same(name),
        None => false,
    }
}

/// Whether a container lives on a node.
fn lives_on(book: &Book, name: &Text, id: ContainerId) -> bool
    requires { IsBook book.now }
    ensures { result ≡ lives_at book.now name.now id }
{
    is_on(book, name, id)
}

/// Whether a container is one of these.
fn is_among(ids: &[ContainerId], id: ContainerId) -> bool
    ensures { result ≡ has_container ids.now id }
{
    ids.iter().any(|one| *one == id)
}

/// The containers that a node reports as running and that don't live on it, each once.
fn strangers(
    alloc: Global,
    book: &Book,
    name: &Text,
    running: &[Held],
) -> Result<Items<ContainerId>, NoMemory>
    requires { IsBook book.now }
    ensures { IfOk result (λ ids. ids ≡ strangers_in book.now name.now running.now) }
{
    let mut ids = Items::new(alloc);
    'running: for held in running {
        if !lives_on(book, name, held.id) && !is_among(ids.as_slice(), held.id) {
            ids.push(held.id)?;
        }
    }
    Ok(ids)
}

/// What a new beat is answered.
fn answer_new(
    t: &Tables,
    name: &Text,
    row: &NodeRow,
    id: u32,
    running: &Items<Held>,
) -> Result<Reply, NoMemory>
    requires id { id + 1 < 2 ^ 32 }
    requires book { IsBook t.now.book }
    ensures { IfOk result (λ reply. reply ≡ new_beat_told t.now.book name.now id running.now row.now) }
{
    let id = id + 1;
    if row.state != NodeState::Ready {
        return Ok(Reply::Beat {
            id,
            launch: Items::new(t.alloc),
            clean: Items::new(t.alloc),
        });
    }
    let launch = row.launches.copy()?;
    let clean = strangers(t.alloc, &t.book, name, running.as_slice())?;
    Ok(Reply::Beat { id, launch, clean })
}

/// Whether a container's row is on a node, and nobody was told of it yet.
fn is_untold(book: &Book, name: &Text, id: ContainerId) -> bool
    ensures { result ≡ is_some_and (is_untold_row name.now) (book_row book.now id) }
{
    match book.get(id) {
        Some(row) => row.node.is_same(name) && row.state == ContainerState::Granted,
        None => false,
    }
}

/// A container that a node reports runs there.
fn run_one(book: &mut Book, name: &Text, id: ContainerId)
    ensures { book.new ≡ brought_one (is_row_on name.now) Stage.Running book.old id }
{
    if is_on(book, name, id) {
        book.run(id);
    }
}

fn run_all(book: &mut Book, name: &Text, running: &[Held])
    ensures { book.new ≡ brought_all (is_row_on name.now) Stage.Running book.old (reported running.now) }
{
    'running: for held in running {
        run_one(book, name, held.id);
    }
}

/// A container that a node is told to launch is acquired.
fn acquire_one(book: &mut Book, name: &Text, id: ContainerId)
    ensures { book.new ≡ brought_one (is_untold_row name.now) Stage.Acquired book.old id }
{
    if is_untold(book, name, id) {
        book.tell(id);
    }
}

fn acquire_all(book: &mut Book, name: &Text, launched: &[ContainerId])
    ensures { book.new ≡ brought_all (is_untold_row name.now) Stage.Acquired book.old launched.now }
{
    'launched: for id in launched {
        acquire_one(book, name, *id);
    }
}

/// What a beat posts: what is done, if anything is, and the pass that answers it.
fn posts(
    alloc: Global,
    name: &Text,
    done: &Items<ContainerId>,
) -> Result<Items<SchedEvent>, NoMemory>
    ensures { IfOk result (λ posts. posts ≡ beat_events name.now done.now) }
{
    let mut posts = Items::new(alloc);
    if !done.is_empty() {
        let node = name.copy()?;
        let list = done.copy()?;
        posts.push(SchedEvent::NodeDone { node, list })?;
    }
    posts.push(SchedEvent::NodeUpdate(name.copy()?))?;
    Ok(posts)
}

/// A new beat of a node, which was answered so. `NoMemory` changes nothing.
fn take_beat(
    t: &mut Tables,
    name: &Text,
    id: u32,
    running: &Items<Held>,
    done: &Items<ContainerId>,
    reply: &Reply,
) -> Result<(), NoMemory>
    requires { id + 1 < 2 ^ 32 }
    ensures ok { OnOk result (t.new ≡ beaten_with name.now id running.now done.now reply.now t.old) }
    ensures err { OnErr result (t.new ≡ t.old) }
{
    let kept = reply.copy()?;
    let kept = Boxed::new(t.alloc, kept)?;
    let posts = posts(t.alloc, name, done)?;
    t.sched.append(posts)?;
    if let Reply::Beat { launch, .. } = reply {
        acquire_all(&mut t.book, name, launch.as_slice());
    }
    run_all(&mut t.book, name, running.as_slice());
    t.nodes.beat(name, id + 1, kept, Items::new(t.alloc));
    Ok(())
}

/// A beat is answered; where it is new, it is taken.
pub fn beat(
    t: &mut Tables,
    name: &Text,
    id: u32,
    running: &Items<Held>,
    done: &Items<ContainerId>,
) -> Result<Reply, NoMemory>
    requires id { id + 1 < 2 ^ 32 }
    requires book { IsBook t.old.book }
    ensures reply { IfOk result (λ reply. reply ≡ beat_told t.old.book name.now id running.now (node_row t.old.nodes name.now)) }
    ensures changed { IfOk result (λ reply. t.new ≡ after_node name.now (Ask.Beat id running.now done.now) reply t.old) }
    ensures err { OnErr result (t.new ≡ t.old) }
{
    let Some(row) = t.nodes.find(name) else {
        return Ok(Reply::Resync);
    };
    if !is_registered(row.state) {
        return Ok(Reply::Resync);
    }
    if id + 1 == row.last_id {
        return row.last_reply.get().copy();
    }
    if id != row.last_id {
        return Ok(Reply::Resync);
    }
    let reply = answer_new(t, name, row, id, running)?;
    take_beat(t, name, id, running, done, &reply)?;
    Ok(reply)
}
