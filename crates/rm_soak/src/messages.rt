ghost use Rattle.std.specs.Prelude.{◌≡◌, [], ◌∷◌, codes, IfOk};
ghost use Rattle.rm_types.specs.declared.messages.MasterAsk.TheVariants as masters;
ghost use Rattle.rm_soak.specs.Scripts.{beat, client_asks, registration, soak_submission, two_containers, user_of};

use itoa::Buffer;
use rm_types::{
    Ask, AttemptId, ClientAsk, Items, MasterAsk, Message, NoMemory, NodeAsk, Resource, Submission,
    Text,
};
use std::alloc::Global;

/// The size of a container.
const CONTAINER_SIZE: Resource = Resource {
    memory_mb: 1024,
    vcores: 1,
};

/// The user of the k-th application.
fn user_of(alloc: Global, k: u32) -> Result<Text, NoMemory>
    ensures { IfOk result (λ user. user ≡ user_of k) }
{
    let mut buffer = Buffer::new();
    let mut bytes = Vec::from_slice(alloc, b"u")?;
    bytes.extend_from_slice(buffer.format(k % 7).as_bytes())?;
    Text::from_bytes(alloc, bytes.as_slice())
}

/// The user of the k-th application asks.
pub fn client_asks(alloc: Global, k: u32, ask: ClientAsk) -> Result<Message, NoMemory>
    ensures { IfOk result (λ message. message ≡ client_asks k ask) }
{
    let user = user_of(alloc, k)?;
    Ok(Message::Client(user, ask))
}

/// What is submitted for the k-th application.
pub fn submission_of(alloc: Global, k: u32) -> Result<Submission, NoMemory>
    ensures { IfOk result (λ submission. submission ≡ soak_submission k) }
{
    let user = user_of(alloc, k)?;
    let queue = Text::from_bytes(alloc, b"root.default")?;
    let name = Text::from_bytes(alloc, b"job")?;
    Ok(Submission {
        user,
        queue,
        name,
        master: CONTAINER_SIZE,
        ..Submission::empty()
    })
}

/// The node registers.
pub fn registration(alloc: Global) -> Result<Message, NoMemory>
    ensures { IfOk result (λ message. message ≡ registration) }
{
    let node = Text::from_bytes(alloc, b"n1")?;
    Ok(Message::Node(
        node,
        NodeAsk::Register {
            turn: 1,
            capability: Resource {
                memory_mb: 8192,
                vcores: 8,
            },
            running: Items::new(alloc),
        },
    ))
}

/// The node beats, with nothing to report.
pub fn beat(alloc: Global, id: u32) -> Result<Message, NoMemory>
    ensures { IfOk result (λ message. message ≡ beat id) }
{
    let node = Text::from_bytes(alloc, b"n1")?;
    Ok(Message::Node(
        node,
        NodeAsk::Beat {
            id,
            running: Items::new(alloc),
            done: Items::new(alloc),
        },
    ))
}

/// A master asks for two containers, by the first response id.
pub fn first_ask(alloc: Global) -> Result<MasterAsk, NoMemory>
    ensures { IfOk result (λ ask. ask ≡ masters.Allocate 0 (two_containers ∷ []) []) }
{
    let mut asks = Items::new(alloc);
    asks.push(Ask {
        priority: 1,
        count: 2,
        size: CONTAINER_SIZE,
    })?;
    Ok(MasterAsk::Allocate {
        id: 0,
        asks,
        release: Items::new(alloc),
    })
}

/// A master asks for nothing more, by the second response id.
pub fn second_ask(alloc: Global) -> MasterAsk
    ensures { result ≡ masters.Allocate 1 [] [] }
{
    MasterAsk::Allocate {
        id: 1,
        asks: Items::new(alloc),
        release: Items::new(alloc),
    }
}

/// A master says that it is done.
pub fn finish(alloc: Global) -> Result<MasterAsk, NoMemory>
    ensures { IfOk result (λ ask. ask ≡ masters.Finish (codes "done")) }
{
    let text = Text::from_bytes(alloc, b"done")?;
    Ok(MasterAsk::Finish { text })
}
