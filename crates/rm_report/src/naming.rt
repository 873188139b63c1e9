ghost use Rattle.std.specs.Prelude.{◌≡◌};
ghost use Rattle.std.specs.List.{list_any};
ghost use Rattle.rm_report.specs.Naming.{names_subject, names_op, names_client, names_master, names_node, names_clock, names_message, names_grant, names_reply, covers};
ghost use Rattle.rm_report.specs.declared.subjects.Subject.TheVariants as subjects;

use crate::subjects::Subject;
use rm_types::{
    ClientAsk, ClockAsk, Closing, Entry, Grant, Held, MasterAsk, Message, NodeAsk, Op, Reply,
};

impl Subject {
    /// Whether the line of the entry names it: whether it tells an id that is about it.
    pub(crate) fn is_named_by(&self, entry: &Entry) -> bool
        ensures { result ≡ names_subject self.now entry.now }
    {
        match entry {
            Entry::Issued { op } | Entry::Kept { op } => self.is_in_op(op.get()),
            Entry::Served { message, reply, .. } => {
                self.is_in_message(message.get()) || self.is_in_reply(reply.get())
            }
            Entry::Accepted { app } => self.covers_app(*app),
            Entry::Queued { attempt } => self.covers_attempt(*attempt),
            Entry::Absorbed { node, taken, ended } => {
                self.covers_node(node.get())
                    || self.is_in_held(taken.get().as_slice())
                    || self.covers_any(ended.get().as_slice())
            }
            Entry::Pass { node, grants } => {
                self.covers_node(node.get()) || self.is_in_listed_grants(grants.get().as_slice())
            }
            Entry::Ordered { container, node } => {
                self.covers_container(*container.get()) || self.covers_node(node.get())
            }
            Entry::Ended { cause: _, list } => self.covers_any(list.as_slice()),
            _ => false,
        }
    }

    fn is_in_op(&self, op: &Op) -> bool
        ensures { result ≡ names_op self.now op.now }
    {
        match op {
            Op::Epoch { .. } => false,
            Op::App { id, .. } | Op::AppEnd { id, .. } | Op::Remove { id } => self.covers_app(*id),
            Op::Attempt { id, master, node } => {
                self.covers_attempt(*id) || self.covers_container(*master) || self.covers_node(node)
            }
            Op::AttemptEnd { id, .. } => self.covers_attempt(*id),
        }
    }

    fn is_in_message(&self, message: &Message) -> bool
        ensures { result ≡ names_message self.now message.now }
    {
        match message {
            Message::Client(_, ask) => self.is_in_client_ask(ask),
            Message::Master(attempt, ask) => {
                self.covers_attempt(*attempt) || self.is_in_master_ask(ask)
            }
            Message::Node(node, ask) => self.covers_node(node) || self.is_in_node_ask(ask),
            Message::Clock(ask) => self.is_in_clock_ask(ask),
        }
    }

    fn is_in_client_ask(&self, ask: &ClientAsk) -> bool
        ensures { result ≡ names_client self.now ask.now }
    {
        match ask {
            ClientAsk::New => false,
            ClientAsk::Submit(id, _) | ClientAsk::Report(id) | ClientAsk::Kill(id) => {
                self.covers_app(*id)
            }
        }
    }

    fn is_in_master_ask(&self, ask: &MasterAsk) -> bool
        ensures { result ≡ names_master self.now ask.now }
    {
        match ask {
            MasterAsk::Allocate { release, .. } => self.covers_any(release.as_slice()),
            _ => false,
        }
    }

    fn is_in_node_ask(&self, ask: &NodeAsk) -> bool
        ensures { result ≡ names_node self.now ask.now }
    {
        match ask {
            NodeAsk::Register { running, .. } => self.is_in_held(running.as_slice()),
            NodeAsk::Beat { running, done, .. } => {
                self.is_in_held(running.as_slice()) || self.covers_any(done.as_slice())
            }
        }
    }

    fn is_in_clock_ask(&self, ask: &ClockAsk) -> bool
        ensures { result ≡ names_clock self.now ask.now }
    {
        match ask {
            ClockAsk::Tick(_) => false,
            ClockAsk::ExpireNode(node) => self.covers_node(node),
            ClockAsk::ExpireMaster(attempt) => self.covers_attempt(*attempt),
        }
    }

    fn is_in_reply(&self, reply: &Reply) -> bool
        ensures { result ≡ names_reply self.now reply.now }
    {
        match reply {
            Reply::New(id) => self.covers_app(*id),
            Reply::Took { kept } => self.is_in_grants(kept.as_slice()),
            Reply::Allocated { grants, ended, .. } => {
                self.is_in_grants(grants.as_slice()) || self.is_in_closings(ended.as_slice())
            }
            Reply::Beat { launch, clean, .. } => {
                self.covers_any(launch.as_slice()) || self.covers_any(clean.as_slice())
            }
            _ => false,
        }
    }

    fn is_in_held(&self, list: &[Held]) -> bool
        ensures { result ≡ list_any (λ held. covers self.now (subjects.Container held.id)) list.now }
    {
        list.iter().any(|held| self.covers_container(held.id))
    }

    /// Whether a list of grants by their containers alone names it.
    fn is_in_listed_grants(&self, list: &[Grant]) -> bool
        ensures { result ≡ list_any (λ grant. covers self.now (subjects.Container grant.id)) list.now }
    {
        list.iter().any(|grant| self.covers_container(grant.id))
    }

    /// Whether a list of grants with their nodes names it.
    fn is_in_grants(&self, list: &[Grant]) -> bool
        ensures { result ≡ list_any (names_grant self.now) list.now }
    {
        list.iter().any(|grant| self.covers_container(grant.id) || self.covers_node(&grant.node))
    }

    fn is_in_closings(&self, list: &[Closing]) -> bool
        ensures { result ≡ list_any (λ closing. covers self.now (subjects.Container closing.id)) list.now }
    {
        list.iter().any(|closing| self.covers_container(closing.id))
    }
}
