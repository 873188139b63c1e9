ghost use Rattle.std.specs.Prelude.{◌≡◌, [], is_some};
ghost use Rattle.std.specs.Option.{option_copied};
ghost use Rattle.rm_types.specs.Lists.{is_nil};
ghost use Rattle.rm_model.specs.Place.{first_from, without_first};

use crate::cursors::{Cursors, next_of};
use rm_types::{Items, Message, Sender};
use std::alloc::Global;
use std::marker::Model;

/// The messages that are left of a segment. They stay in place; one cursor for each sender says which of them are taken.
#[derive(Drop)]
pub struct Feed {
    messages: Items<Message>,
    cursors: Cursors,
}

impl Model for Feed {
    ghost use Rattle.std.specs.Prelude.{List};
    ghost use Rattle.rm_types.specs.declared.messages.Message.{Message};
    ghost use Rattle.rm_desk.specs.Left.{unsent, PointsRight};

    ghost Value = { List Message };

    ghost view = { λ a. unsent a.cursors a.messages };

    ghost invariant = { λ a. PointsRight a.cursors a.messages };
}

impl Feed {
    /// No message. It takes no memory.
    pub fn new(alloc: Global) -> Feed
        ensures { result ≡ [] }
    {
        Feed {
            messages: Items::new(alloc),
            cursors: Cursors {
                client: 0,
                master: 0,
                node: 0,
                clock: 0,
            },
        }
    }

    /// These messages, none of which is taken. It takes no memory.
    pub fn from_items(messages: Items<Message>) -> Feed
        ensures { result ≡ messages }
    {
        let client = next_of(&messages, Sender::Client, 0);
        let master = next_of(&messages, Sender::Master, 0);
        let node = next_of(&messages, Sender::Node, 0);
        let clock = next_of(&messages, Sender::Clock, 0);
        Feed {
            messages,
            cursors: Cursors {
                client,
                master,
                node,
                clock,
            },
        }
    }

    /// Whether no message is left.
    pub fn is_empty(&self) -> bool
        ensures { result ≡ is_nil self.now }
    {
        !(self.has(Sender::Client)
            || self.has(Sender::Master)
            || self.has(Sender::Node)
            || self.has(Sender::Clock))
    }

    /// Whether a message of this sender is left.
    pub fn has(&self, sender: Sender) -> bool
        ensures { result ≡ is_some (first_from sender self.now) }
    {
        self.cursors.of(sender) < self.messages.len()
    }

    /// The first message that is left of this sender.
    pub fn first(&self, sender: Sender) -> Option<&Message>
        ensures { option_copied result ≡ first_from sender self.now }
    {
        let place = self.cursors.of(sender);
        if place < self.messages.len() {
            Some(self.messages.at(place))
        } else {
            None
        }
    }

    /// Takes the first message of this sender away, where one is left. The others stay, in their order.
    pub fn take(&mut self, sender: Sender)
        ensures { self.new ≡ without_first sender self.old }
    {
        let place = self.cursors.of(sender);
        if place < self.messages.len() {
            let next = next_of(&self.messages, sender, place + 1);
            self.cursors.set(sender, next);
        }
    }
}
