ghost use Rattle.std.specs.Prelude.{◌≡◌, ◌≤◌, ◌+◌, length, drop};
ghost use Rattle.rm_model.specs.Place.{is_from};
ghost use Rattle.rm_desk.specs.Left.{cursor_of, with_cursor, steps_to};

use rm_types::{Items, Message, Sender};

/// The places of the first messages that are left, one for each sender.
#[derive(Clone, Copy)]
pub struct Cursors {
    pub client: usize,
    pub master: usize,
    pub node: usize,
    pub clock: usize,
}

impl Cursors {
    /// The place of this sender.
    pub fn of(&self, sender: Sender) -> usize
        ensures { result ≡ cursor_of self.now sender }
    {
        match sender {
            Sender::Client => self.client,
            Sender::Master => self.master,
            Sender::Node => self.node,
            Sender::Clock => self.clock,
        }
    }

    /// Moves the place of this sender. The others stay.
    pub fn set(&mut self, sender: Sender, place: usize)
        ensures { self.new ≡ with_cursor sender place self.old }
    {
        match sender {
            Sender::Client => self.client = place,
            Sender::Master => self.master = place,
            Sender::Node => self.node = place,
            Sender::Clock => self.clock = place,
        }
    }
}

/// Whether the message is of this sender.
fn is_of(sender: Sender, message: &Message) -> bool
    ensures { result ≡ is_from sender message.now }
{
    match (sender, message) {
        (Sender::Client, Message::Client(_, _)) => true,
        (Sender::Master, Message::Master(_, _)) => true,
        (Sender::Node, Message::Node(_, _)) => true,
        (Sender::Clock, Message::Clock(_)) => true,
        _ => false,
    }
}

/// The place of the first message of this sender at a place or after it, or the length where there is none.
pub fn next_of(messages: &Items<Message>, sender: Sender, start: usize) -> usize
    requires { start ≤ length messages.now }
    ensures { result ≡ start + steps_to sender (drop start messages.now) }
{
    'messages: for place in start..messages.len() {
        if is_of(sender, messages.at(place)) {
            return place;
        }
    }
    messages.len()
}
