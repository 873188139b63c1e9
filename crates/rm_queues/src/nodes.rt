ghost use Rattle.std.specs.Prelude.{◌≡◌, IfOk};
ghost use Rattle.rm_types.specs.Rights.{is_below, acl_of};
ghost use Rattle.rm_queues.specs.Places.{AreFirstPlaces};
ghost use Rattle.rm_queues.specs.Trees.{any_below, queue_node, node_allows};

use crate::acls::Acl;
use crate::places::Places;
use rm_types::{AclOp, NoMemory, QueueSpec, Text};
use std::alloc::Global;

/// A queue of the tree: the place of its nearest parent there, whether no queue is below it, and its
/// lists as they count where they are absent.
#[derive(Drop)]
pub struct Node {
    pub parent: Option<usize>,
    pub is_leaf: bool,
    pub submit: Acl,
    pub admin: Acl,
}

impl Node {
    /// The node of a queue among all, whose places are known.
    pub(crate) fn of_queue(
        alloc: Global,
        places: &Places,
        queues: &[QueueSpec],
        queue: &QueueSpec,
    ) -> Result<Node, NoMemory>
        requires { AreFirstPlaces (λ one. one.name) queues.now places.now }
        ensures { IfOk result (λ node. node ≡ queue_node queues.now queue.now) }
    {
        let name = queue.name.bytes();
        let submit = Acl::read(alloc, acl_text(name, &queue.submit))?;
        let admin = Acl::read(alloc, acl_text(name, &queue.admin))?;
        let parent = places.nearest_parent(name);
        let is_leaf = !any_below(queues, name);
        Ok(Node {
            parent,
            is_leaf,
            submit,
            admin,
        })
    }

    /// Whether the node's lists admit a user who is in these groups.
    pub(crate) fn admits(&self, op: AclOp, user: &[u8], groups: &[Text]) -> bool
        ensures { result ≡ node_allows op self.now user.now groups.now }
    {
        match op {
            AclOp::Submit => self.submit.allows(user, groups) || self.admin.allows(user, groups),
            AclOp::Kill => self.admin.allows(user, groups),
        }
    }
}

/// Whether a name is another, a dot and what follows it.
fn is_below(name: &[u8], other: &[u8]) -> bool
    ensures { result ≡ is_below name.now other.now }
{
    name.starts_with(other) && name.get(other.len()) == Some(&b'.')
}

/// Whether one of the queues is below a name.
fn any_below(queues: &[QueueSpec], name: &[u8]) -> bool
    ensures { result ≡ any_below queues.now name.now }
{
    queues
        .iter()
        .any(|queue| is_below(queue.name.bytes(), name))
}

/// The text of a queue's list as it counts: where it is absent, the root's admits everyone and
/// another's no one.
fn acl_text<'a>(name: &[u8], list: &'a Option<Text>) -> &'a [u8]
    ensures { result.now ≡ acl_of name.now list.now }
{
    match list {
        Some(text) => text.bytes(),
        None if name == b"root".as_slice() => b"*",
        None => b" ",
    }
}
