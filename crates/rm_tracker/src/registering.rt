//! A node registers.
ghost use Rattle.std.specs.Prelude.{◌≡◌, [], ◌∷◌, ◌++◌, None, IfOk, OnOk, OnErr};
ghost use Rattle.rm_tables.specs.declared.events.SchedEvent.{SchedEvent as Event};
ghost use Rattle.rm_tables.specs.Nodes.{node_row};
ghost use Rattle.rm_tracker.specs.Answers.{registered_by, registered_first, registered_later};
ghost use Rattle.rm_tracker.specs.Told.{node_register_told};

use rm_tables::{NodeRow, Nodes, Registration, SchedEvent, Tables};
use rm_types::{Boxed, Duplicate, Held, Items, NoMemory, Queue, Reply, Resource, Text};
use std::alloc::Global;

/// What a registration says, and what it is answered, as they are kept.
fn registration(
    alloc: Global,
    turn: u32,
    capability: Resource,
    running: &Items<Held>,
    epoch: u32,
) -> Result<(Registration, Boxed<Reply>), NoMemory>
    ensures turn { IfOk result (λ made. (made.0.turn ≡ turn) × (made.0.capability ≡ capability) × (made.0.running ≡ running.now)) }
    ensures reply { IfOk result (λ made. made.1 ≡ Reply.NodeRegistered turn epoch) }
{
    let running = running.copy()?;
    let reply = Boxed::new(alloc, Reply::NodeRegistered { turn, epoch })?;
    let registration = Registration {
        turn,
        capability,
        running,
    };
    Ok((registration, reply))
}

/// The report of a node is to be absorbed.
fn post_added(sched: &mut Queue<SchedEvent>, name: &Text, turn: u32) -> Result<(), NoMemory>
    ensures ok { OnOk result (sched.new ≡ sched.old ++ Event.NodeAdded name.now turn ∷ []) }
    ensures err { OnErr result (sched.new ≡ sched.old) }
{
    let node = name.copy()?;
    sched.push(SchedEvent::NodeAdded { node, turn })
}

/// A node registers that has no row.
fn register_first(
    t: &mut Tables,
    name: &Text,
    turn: u32,
    capability: Resource,
    running: &Items<Held>,
) -> Result<(), NoMemory>
    requires { node_row t.old.nodes name.now ≡ None }
    ensures ok { OnOk result (t.new ≡ registered_first name.now turn capability running.now (Reply.NodeRegistered turn t.old.epoch) t.old) }
    ensures err { OnErr result (t.new ≡ t.old) }
{
    let (registration, reply) = registration(t.alloc, turn, capability, running, t.epoch)?;
    let row = NodeRow::new(registration, reply, Items::new(t.alloc));
    let (key, node) = (name.copy()?, name.copy()?);
    t.sched.push_made(
        &mut t.nodes,
        |nodes: &mut Nodes| -> Result<SchedEvent, NoMemory>
            requires { node_row nodes.old key ≡ None }
            ensures event { IfOk result (λ made. made ≡ Event.NodeAdded node turn) }
            ensures ok { OnOk result (nodes.new ≡ nodes.old ++ (key, row) ∷ []) }
            ensures err { OnErr result (nodes.new ≡ nodes.old) }
        {
            nodes.add(key, row)?;
            Ok(SchedEvent::NodeAdded { node, turn })
        },
    )
}

/// A node registers that has a row.
fn register_later(
    t: &mut Tables,
    name: &Text,
    turn: u32,
    capability: Resource,
    running: &Items<Held>,
) -> Result<(), NoMemory>
    ensures ok { OnOk result (t.new ≡ registered_later name.now turn capability running.now (Reply.NodeRegistered turn t.old.epoch) t.old) }
    ensures err { OnErr result (t.new ≡ t.old) }
{
    let (registration, reply) = registration(t.alloc, turn, capability, running, t.epoch)?;
    post_added(&mut t.sched, name, turn)?;
    t.nodes.register(name, registration, reply);
    Ok(())
}

/// A registration is answered; where its turn is later than the last one, it is taken.
pub fn register(
    t: &mut Tables,
    name: &Text,
    turn: u32,
    capability: Resource,
    running: &Items<Held>,
) -> Result<Reply, NoMemory>
    ensures reply { IfOk result (λ reply. reply ≡ node_register_told t.old.epoch turn (node_row t.old.nodes name.now)) }
    ensures changed { IfOk result (λ reply. t.new ≡ registered_by (node_row t.old.nodes name.now) name.now turn capability running.now reply t.old) }
    ensures err { OnErr result (t.new ≡ t.old) }
{
    let epoch = t.epoch;
    match t.nodes.find(name) {
        None => register_first(t, name, turn, capability, running)?,
        Some(row) => {
            let last = row.turn;
            if turn <= last {
                return Ok(Reply::NodeRegistered { turn: last, epoch });
            }
            register_later(t, name, turn, capability, running)?;
        }
    }
    Ok(Reply::NodeRegistered { turn, epoch })
}
