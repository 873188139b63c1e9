ghost use Rattle.std.specs.Prelude.{◌≡◌, ◌++◌, OnOk};
ghost use Rattle.rm_formats.specs.Wording.{client_words, master_words, node_words, clock_words, message_words};
ghost use Rattle.rm_page.specs.Continued.{continued};

use crate::lists::Whole;
use crate::writing::Lines;
use rm_types::{
    Ask, ClientAsk, ClockAsk, ContainerId, Held, Items, MasterAsk, Message, NoMemory, NodeAsk,
    Resource,
};

impl Lines {
    /// Writes the words of a message, with a space before each.
    pub fn message(&mut self, message: &Message) -> Result<(), NoMemory>
        ensures { OnOk result (self.new ≡ self.old ++ continued (message_words message.now)) }
    {
        match message {
            Message::Client(user, ask) => {
                self.text_field(b" client ", user.bytes())?;
                self.client_ask(ask)?;
            }
            Message::Master(attempt, ask) => {
                self.text(b" master ")?;
                self.attempt(*attempt)?;
                self.master_ask(ask)?;
            }
            Message::Node(node, ask) => {
                self.text_field(b" node ", node.bytes())?;
                self.node_ask(ask)?;
            }
            Message::Clock(ask) => {
                self.text(b" clock")?;
                self.clock_ask(ask)?;
            }
        }
        Ok(())
    }

    fn client_ask(&mut self, ask: &ClientAsk) -> Result<(), NoMemory>
        ensures { OnOk result (self.new ≡ self.old ++ continued (client_words ask.now)) }
    {
        match ask {
            ClientAsk::New => self.text(b" new")?,
            ClientAsk::Submit(id, submission) => {
                self.text(b" submit ")?;
                self.app(*id)?;
                self.submission(submission)?;
            }
            ClientAsk::Report(id) => {
                self.text(b" report ")?;
                self.app(*id)?;
            }
            ClientAsk::Kill(id) => {
                self.text(b" kill ")?;
                self.app(*id)?;
            }
        }
        Ok(())
    }

    fn master_ask(&mut self, ask: &MasterAsk) -> Result<(), NoMemory>
        ensures { OnOk result (self.new ≡ self.old ++ continued (master_words ask.now)) }
    {
        match ask {
            MasterAsk::Register => self.text(b" register"),
            MasterAsk::Finish { text } => self.text_field(b" finish ", text.bytes()),
            MasterAsk::Allocate { id, asks, release } => self.allocate_ask(*id, asks, release),
        }
    }

    fn allocate_ask(
        &mut self,
        id: u32,
        asks: &Items<Ask>,
        release: &Items<ContainerId>,
    ) -> Result<(), NoMemory>
        ensures { OnOk result
            (self.new ≡ self.old ++ continued (master_words (MasterAsk.Allocate id asks.now release.now))) }
    {
        self.number_field(b" allocate ", u64::from(id))?;
        self.list_word::<Whole, Ask>(b"ask=", asks)?;
        self.list_word::<Whole, ContainerId>(b"release=", release)?;
        Ok(())
    }

    fn node_ask(&mut self, ask: &NodeAsk) -> Result<(), NoMemory>
        ensures { OnOk result (self.new ≡ self.old ++ continued (node_words ask.now)) }
    {
        match ask {
            NodeAsk::Register {
                turn,
                capability,
                running,
            } => self.node_register_ask(*turn, *capability, running),
            NodeAsk::Beat { id, running, done } => self.node_beat_ask(*id, running, done),
        }
    }

    fn node_register_ask(
        &mut self,
        turn: u32,
        capability: Resource,
        running: &Items<Held>,
    ) -> Result<(), NoMemory>
        ensures { OnOk result
            (self.new ≡ self.old ++ continued (node_words (NodeAsk.Register turn capability running.now))) }
    {
        self.number_field(b" register ", u64::from(turn))?;
        self.number_field(b" memory=", u64::from(capability.memory_mb))?;
        self.number_field(b" vcores=", u64::from(capability.vcores))?;
        self.list_word::<Whole, Held>(b"running=", running)?;
        Ok(())
    }

    fn node_beat_ask(
        &mut self,
        id: u32,
        running: &Items<Held>,
        done: &Items<ContainerId>,
    ) -> Result<(), NoMemory>
        ensures { OnOk result
            (self.new ≡ self.old ++ continued (node_words (NodeAsk.Beat id running.now done.now))) }
    {
        self.number_field(b" beat ", u64::from(id))?;
        self.list_word::<Whole, Held>(b"running=", running)?;
        self.list_word::<Whole, ContainerId>(b"done=", done)?;
        Ok(())
    }

    fn clock_ask(&mut self, ask: &ClockAsk) -> Result<(), NoMemory>
        ensures { OnOk result (self.new ≡ self.old ++ continued (clock_words ask.now)) }
    {
        match ask {
            ClockAsk::Tick(time) => self.number_field(b" tick ", *time)?,
            ClockAsk::ExpireNode(node) => self.text_field(b" expire node ", node.bytes())?,
            ClockAsk::ExpireMaster(attempt) => {
                self.text(b" expire master ")?;
                self.attempt(*attempt)?;
            }
        }
        Ok(())
    }
}
