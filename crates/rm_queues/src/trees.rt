ghost use Rattle.std.specs.Prelude.{◌≡◌, ◌↔◌, IsTrue, IfOk, map};
ghost use Rattle.std.specs.List.{list_any};
ghost use Rattle.rm_types.specs.Rights.{path_of, is_leaf, home, denial, groups_of_user, admits_at, may_submit, may_administer, may_kill};
ghost use Rattle.rm_queues.specs.Rules.{KeepsRules};
ghost use Rattle.rm_queues.specs.Places.{AreFirstPlaces};
ghost use Rattle.rm_queues.specs.Trees.{queue_node, is_user_allowed, denial_from};

use crate::acls::Acl;
use crate::nodes::Node;
use crate::paths::path_of;
use crate::places::Places;
use rm_types::{AclOp, Denial, Duplicate, NoMemory, QueueSpec, Settings, Submission, Text};
use std::alloc::Global;
use std::marker::Model;

/// The queues of a cluster, and who may do what there. Contracts see the settings that the tree was
/// made of.
#[derive(Drop)]
pub struct QueueTree {
    settings: Settings,
    places: Places,
    users: Places,
    nodes: Vec<Node>,
    admin: Acl,
}

impl Model for QueueTree {
    ghost use Rattle.rm_types.specs.declared.settings.Settings.{Settings};

    ghost Value = { Settings };

    ghost use Rattle.rm_queues.specs.Trees.{IsTreeOf};

    ghost view = { λ t. t.settings };

    ghost invariant = { λ t. IsTreeOf t.settings t.places t.users t.nodes.items t.admin };
}

impl QueueTree {
    /// The tree of these settings, whose first queue must be the root, as `starts_at_root` says.
    pub fn new(alloc: Global, settings: &Settings) -> Result<QueueTree, NoMemory>
        requires { KeepsRules settings.now }
        ensures { IfOk result (λ tree. tree ≡ settings.now) }
    {
        let places = Places::of_queues(alloc, settings.queues.as_slice())?;
        let users = Places::of_users(alloc, settings.groups.as_slice())?;
        let nodes = nodes_of(alloc, &places, settings.queues.as_slice())?;
        let admin = Acl::read(alloc, settings.admin_acl.bytes())?;
        let settings = settings.copy()?;
        Ok(QueueTree {
            settings,
            places,
            users,
            nodes,
            admin,
        })
    }

    /// Whether the queue is in the tree and has no queues below it.
    pub fn is_leaf(&self, queue: &[u8]) -> bool
        ensures { result ≡ is_leaf self.now.queues queue.now }
    {
        match self.places.place(queue) {
            Some(place) => self.nodes[place].is_leaf,
            None => false,
        }
    }

    /// Whether a user may submit to a queue. A queue that isn't in the tree has its parents' rights.
    pub fn may_submit(&self, user: &[u8], queue: &[u8]) -> bool
        ensures { result ≡ may_submit self.now user.now queue.now }
    {
        self.is_allowed(AclOp::Submit, user, queue)
    }

    /// Whether a user may administer a queue. A queue that isn't in the tree has its parents' rights.
    pub fn may_administer(&self, user: &[u8], queue: &[u8]) -> bool
        ensures { result ≡ may_administer self.now user.now queue.now }
    {
        self.is_allowed(AclOp::Kill, user, queue)
    }

    /// Whether a user may kill an application: its owner may, who may administer its home, and whom
    /// its `modify` list admits.
    pub fn may_kill(&self, user: &[u8], submission: &Submission) -> Result<bool, NoMemory>
        ensures { IfOk result (λ answer. answer ≡ may_kill self.now user.now submission.now) }
    {
        if user == submission.user.bytes() {
            return Ok(true);
        }
        if self.may_administer(user, self.home(submission.queue.bytes())) {
            return Ok(true);
        }
        let modify = Acl::read(*self.nodes.allocator(), submission.modify.bytes())?;
        Ok(modify.allows(user, self.groups_of(user)))
    }

    /// What a refusal says: the queue that was consulted first, which for a kill is the home of the
    /// application's queue, and all that was consulted.
    pub fn denial(&self, op: AclOp, queue: &[u8]) -> Result<Denial, NoMemory>
        ensures { IfOk result (λ one. one ≡ denial op self.now.queues queue.now) }
    {
        let alloc = *self.nodes.allocator();
        match op {
            AclOp::Submit => denial_from(alloc, op, queue),
            AclOp::Kill => denial_from(alloc, op, self.home(queue)),
        }
    }

    /// Whether rights aren't checked, or a list along the queue's path or the admin list admits.
    fn is_allowed(&self, op: AclOp, user: &[u8], queue: &[u8]) -> bool
        ensures { result ≡ is_user_allowed op self.now user.now queue.now }
    {
        if !self.settings.acl_enable {
            return true;
        }
        let groups = self.groups_of(user);
        self.is_admitted_along(op, user, groups, queue) || self.admin.allows(user, groups)
    }

    /// Whether a list along the queue's path admits a user, who is in these groups.
    fn is_admitted_along(&self, op: AclOp, user: &[u8], groups: &[Text], queue: &[u8]) -> bool
        requires { groups.now ≡ groups_of_user self.now.groups user.now }
        ensures { result ≡ list_any (λ name. admits_at op self.now user.now name) (path_of queue.now) }
    {
        let mut next = self.places.nearest(queue);
        while let Some(place) = next {
            let node = &self.nodes[place];
            if node.admits(op, user, groups) {
                return true;
            }
            next = node.parent;
        }
        false
    }

    /// The queue itself or its nearest parent in the tree, and else the root.
    fn home(&self, queue: &[u8]) -> &[u8]
        ensures { result.now ≡ home self.now.queues queue.now }
    {
        let place = self.places.nearest(queue).unwrap_or(0);
        self.settings.queues.at(place).name.bytes()
    }

    /// The groups that a user is in.
    fn groups_of(&self, user: &[u8]) -> &[Text]
        ensures { result.now ≡ groups_of_user self.now.groups user.now }
    {
        match self.users.place(user) {
            Some(place) => self.settings.groups.at(place).groups.as_slice(),
            None => &[],
        }
    }
}

/// Whether a tree can be made of the settings: their first queue is the root.
pub fn starts_at_root(settings: &Settings) -> bool
    ensures { IsTrue result ↔ KeepsRules settings.now }
{
    match settings.queues.as_slice() {
        [first, ..] => first.name.bytes() == b"root".as_slice(),
        [] => false,
    }
}

/// The nodes of all queues, whose places are known.
fn nodes_of(alloc: Global, places: &Places, queues: &[QueueSpec]) -> Result<Vec<Node>, NoMemory>
    requires { AreFirstPlaces (λ one. one.name) queues.now places.now }
    ensures { IfOk result (λ nodes. nodes.items ≡ map (queue_node queues.now) queues.now) }
{
    let mut nodes = Vec::with_capacity(alloc, queues.len())?;
    for queue in queues {
        nodes.push(Node::of_queue(alloc, places, queues, queue)?)?;
    }
    Ok(nodes)
}

/// What a refusal says, by the queue that was consulted first.
fn denial_from(alloc: Global, op: AclOp, first: &[u8]) -> Result<Denial, NoMemory>
    ensures { IfOk result (λ one. one ≡ denial_from op first.now) }
{
    let mut lists = path_of(alloc, first)?;
    lists.push(Text::from_bytes(alloc, b"admin")?)?;
    if op == AclOp::Kill {
        lists.push(Text::from_bytes(alloc, b"modify")?)?;
    }
    let queue = Text::from_bytes(alloc, first)?;
    Ok(Denial { op, queue, lists })
}
