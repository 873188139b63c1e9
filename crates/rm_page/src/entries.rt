ghost use Rattle.std.specs.Prelude.{◌≡◌, [], ◌∷◌, ◌++◌, codes, OnOk};
ghost use Rattle.rm_formats.specs.Wording.{message_words, op_words, reply_words};
ghost use Rattle.rm_formats.specs.Page.{line, line_of, lane_letter};
ghost use Rattle.rm_types.specs.Lanes.{lane_of_entry};

use crate::lists::{ByContainer, Whole, cause_text};
use crate::writing::Lines;
use rm_types::{
    Cause, ContainerId, Entry, Grant, Held, Items, Lane, Message, NoMemory, Op, Reply, Sender, Text,
};

impl Lines {
    /// Writes the line of an entry. `Handed` and `Quiet` have none.
    pub fn entry(&mut self, entry: &Entry) -> Result<(), NoMemory>
        ensures { OnOk result (self.new ≡ self.old ++ line_of entry.now) }
    {
        match entry {
            Entry::Opened {
                landed,
                epoch,
                stamp,
            } => self.opened_line(*landed, *epoch, *stamp),
            Entry::Issued { op } => self.op_line(b"issued", op.get()),
            Entry::Handed | Entry::Quiet { .. } => Ok(()),
            Entry::Kept { op } => self.op_line(b"kept", op.get()),
            Entry::Blown { passed } => self.blown_line(*passed),
            Entry::Served { message, reply, .. } => self.served_line(message.get(), reply.get()),
            Entry::Accepted { app } => {
                self.text(b"accepted ")?;
                self.app(*app)?;
                self.text(b"\n")
            }
            Entry::Queued { attempt } => {
                self.text(b"queued ")?;
                self.attempt(*attempt)?;
                self.text(b"\n")
            }
            Entry::Absorbed { node, taken, ended } => self.absorbed_line(
                node.get(),
                taken.get(),
                ended.get(),
            ),
            Entry::Pass { node, grants } => self.pass_line(node.get(), grants.get()),
            Entry::Ordered { container, node } => self.ordered_line(*container.get(), node.get()),
            Entry::Ended { cause, list } => self.ended_line(*cause, list),
            Entry::Settled => self.text(b"settled\n"),
            Entry::Down => self.text(b"down\n"),
        }
    }

    /// Writes a line of one word and a store operation.
    pub fn op_line(&mut self, word: &[u8], op: &Op) -> Result<(), NoMemory>
        ensures { OnOk result (self.new ≡ self.old ++ line (word.now ∷ op_words op.now)) }
    {
        self.text(word)?;
        self.op(op)?;
        self.text(b"\n")?;
        Ok(())
    }

    fn opened_line(&mut self, landed: u32, epoch: u32, stamp: u64) -> Result<(), NoMemory>
        ensures { OnOk result (self.new ≡ self.old ++ line_of (Entry.Opened landed epoch stamp)) }
    {
        self.number_field(b"opened landed=", u64::from(landed))?;
        self.number_field(b" epoch=", u64::from(epoch))?;
        self.number_field(b" stamp=", stamp)?;
        self.text(b"\n")?;
        Ok(())
    }

    fn blown_line(&mut self, passed: u32) -> Result<(), NoMemory>
        ensures { OnOk result (self.new ≡ self.old ++ line_of (Entry.Blown passed)) }
    {
        self.number_field(b"blown passed=", u64::from(passed))?;
        self.text(b"\n")?;
        Ok(())
    }

    fn served_line(&mut self, message: &Message, reply: &Reply) -> Result<(), NoMemory>
        ensures { OnOk result
            (self.new ≡ self.old ++
            line (codes "served" ∷ message_words message.now ++ codes "->" ∷ reply_words reply.now)) }
    {
        self.text(b"served")?;
        self.message(message)?;
        self.text(b" ->")?;
        self.reply(reply)?;
        self.text(b"\n")?;
        Ok(())
    }

    fn absorbed_line(
        &mut self,
        node: &Text,
        taken: &Items<Held>,
        ended: &Items<ContainerId>,
    ) -> Result<(), NoMemory>
        ensures { OnOk result
            (self.new ≡ self.old ++ line_of (Entry.Absorbed node.now taken.now ended.now)) }
    {
        self.text_field(b"absorbed ", node.bytes())?;
        self.bracketed::<ByContainer, Held>(b" taken=", taken)?;
        self.bracketed::<Whole, ContainerId>(b" ended=", ended)?;
        self.text(b"\n")?;
        Ok(())
    }

    fn pass_line(&mut self, node: &Text, grants: &Items<Grant>) -> Result<(), NoMemory>
        ensures { OnOk result (self.new ≡ self.old ++ line_of (Entry.Pass node.now grants.now)) }
    {
        self.text_field(b"pass ", node.bytes())?;
        self.bracketed::<ByContainer, Grant>(b" grants=", grants)?;
        self.text(b"\n")?;
        Ok(())
    }

    fn ordered_line(&mut self, container: ContainerId, node: &Text) -> Result<(), NoMemory>
        ensures { OnOk result (self.new ≡ self.old ++ line_of (Entry.Ordered container node.now)) }
    {
        self.text(b"ordered ")?;
        self.container(container)?;
        self.text_field(b" ", node.bytes())?;
        self.text(b"\n")?;
        Ok(())
    }

    fn ended_line(&mut self, cause: Cause, list: &Items<ContainerId>) -> Result<(), NoMemory>
        ensures { OnOk result (self.new ≡ self.old ++ line_of (Entry.Ended cause list.now)) }
    {
        self.text_field(b"ended ", cause_text(cause))?;
        self.bracketed::<Whole, ContainerId>(b" ", list)?;
        self.text(b"\n")?;
        Ok(())
    }
}

/// The letter of a lane.
pub fn lane_letter(lane: Lane) -> u8
    ensures { lane_letter lane ≡ result ∷ [] }
{
    match lane {
        Lane::Client => b'c',
        Lane::Master => b'm',
        Lane::Node => b'n',
        Lane::Clock => b'k',
        Lane::Main => b'd',
        Lane::Sched => b's',
        Lane::Hand => b'h',
        Lane::Write => b'w',
        Lane::End => b'e',
        Lane::Begin => b'o',
    }
}

/// The lane whose move adds the entry.
pub fn lane_of_entry(entry: &Entry) -> Lane
    ensures { result ≡ lane_of_entry entry.now }
{
    match entry {
        Entry::Opened { .. } => Lane::Begin,
        Entry::Issued { .. } | Entry::Accepted { .. } | Entry::Ordered { .. } => Lane::Main,
        Entry::Handed => Lane::Hand,
        Entry::Kept { .. } | Entry::Blown { .. } => Lane::Write,
        Entry::Served { sender, .. } => sender.lane(),
        Entry::Queued { .. } | Entry::Absorbed { .. } | Entry::Pass { .. } | Entry::Ended { .. } =>
            Lane::Sched,
        Entry::Settled | Entry::Down => Lane::End,
        Entry::Quiet { lane } => *lane,
    }
}
