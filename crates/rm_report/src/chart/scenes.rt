use crate::chart::bars::{Bar, Line};
use crate::chart::jobs::Job;
use indexmap::IndexMap;
use rm_types::{
    AppId, AttemptId, ClientAsk, ContainerId, Duplicate, Entry, Grant, Held, How, MasterAsk,
    Message, NoMemory, Op, Reply, StateWord, Text,
};
use std::alloc::Global;

/// How many jobs have a row; of others no states are kept.
pub(crate) const MOST_JOBS: usize = 12;

/// A life of the manager: from its beginning to the line at which it went down, or to the end of the page.
#[derive(Clone, Copy)]
pub(crate) struct Life {
    pub(crate) epoch: u32,
    pub(crate) from: Line,
    pub(crate) to: Line,
    pub(crate) went_down: bool,
}

/// A store operation on a line, issued or kept.
#[derive(Clone, Copy)]
pub(crate) struct Mark {
    pub(crate) line: Line,
    pub(crate) is_kept: bool,
    pub(crate) word: &'static [u8],
}

/// What a picture shows of a page.
#[derive(Drop)]
pub(crate) struct Scene {
    alloc: Global,
    /// How many lines the page has.
    pub(crate) lines: Line,
    pub(crate) lives: Vec<Life>,
    pub(crate) jobs: IndexMap<AppId, Job>,
    pub(crate) marks: Vec<Mark>,
    /// The nodes, in the order in which they come first.
    pub(crate) nodes: IndexMap<Text, ()>,
    pub(crate) bars: IndexMap<ContainerId, Bar>,
    /// The containers that are masters of attempts.
    pub(crate) masters: IndexMap<ContainerId, ()>,
    /// The containers that this life has heard of.
    heard: Vec<ContainerId>,
}

impl Scene {
    /// What the entries of a page show, one on each line.
    pub(crate) fn of(alloc: Global, entries: &[Entry]) -> Result<Scene, NoMemory> {
        let mut scene = Scene {
            alloc,
            lines: 0,
            lives: Vec::new(alloc),
            jobs: IndexMap::new(alloc),
            marks: Vec::new(alloc),
            nodes: IndexMap::new(alloc),
            bars: IndexMap::new(alloc),
            masters: IndexMap::new(alloc),
            heard: Vec::new(alloc),
        };
        'entries: for entry in entries {
            scene.lines = scene.lines.saturating_add(1);
            scene.add(entry)?;
        }
        scene.finish()?;
        Ok(scene)
    }

    /// Adds what the entry on the last line shows.
    fn add(&mut self, entry: &Entry) -> Result<(), NoMemory> {
        match entry {
            Entry::Opened { epoch, .. } => self.begin_life(*epoch),
            Entry::Issued { op } => self.add_operation(op.get(), false),
            Entry::Kept { op } => self.add_operation(op.get(), true),
            Entry::Served { message, reply, .. } => self.add_answer(message.get(), reply.get()),
            Entry::Accepted { app } => self.enter(*app, StateWord::Accepted),
            Entry::Queued { attempt } => self.requeue(*attempt),
            Entry::Absorbed { node, taken, ended } => {
                self.absorb(node.get(), taken.get().as_slice(), ended.get().as_slice())
            }
            Entry::Pass { node, grants } => self.grant(node.get(), grants.get().as_slice()),
            Entry::Ordered { node, .. } => self.add_node(node.get()),
            Entry::Ended { cause: _, list } => self.end(list.as_slice()),
            Entry::Down => self.go_down(),
            Entry::Blown { .. } | Entry::Settled | Entry::Handed | Entry::Quiet { .. } => Ok(()),
        }
    }

    fn begin_life(&mut self, epoch: u32) -> Result<(), NoMemory> {
        self.lives.push(Life {
            epoch,
            from: self.lines,
            to: self.lines,
            went_down: false,
        })?;
        'jobs: for place in 0..self.jobs.len().min(MOST_JOBS) {
            if let Some(job) = self.jobs.get_index_mut(place) {
                job.recover(self.lines)?;
            }
        }
        Ok(())
    }

    /// The life ends: what it knew is forgotten, and what runs goes on.
    fn go_down(&mut self) -> Result<(), NoMemory> {
        let line = self.lines;
        if let Some(life) = self.lives.last_mut() {
            life.to = line;
            life.went_down = true;
        }
        'heard: for id in self.heard.as_slice() {
            if let Some(bar) = self.bars.get_mut(id) {
                bar.forget(line)?;
            }
        }
        self.heard.clear();
        'jobs: for place in 0..self.jobs.len().min(MOST_JOBS) {
            if let Some(job) = self.jobs.get_index_mut(place) {
                job.forget(line)?;
            }
        }
        Ok(())
    }

    fn add_operation(&mut self, op: &Op, is_kept: bool) -> Result<(), NoMemory> {
        self.marks.push(Mark {
            line: self.lines,
            is_kept,
            word: operation_word(op),
        })?;
        if is_kept {
            self.keep_operation(op)?;
        }
        match op {
            Op::Attempt { master, node, .. } => self.add_master(*master, node),
            _ => Ok(()),
        }
    }

    /// What a kept operation shows of its job.
    fn keep_operation(&mut self, op: &Op) -> Result<(), NoMemory> {
        match op {
            Op::App { id, .. } => {
                self.enter(*id, StateWord::Submitted)?;
                self.keep_job(*id, StateWord::Submitted)
            }
            Op::Attempt { id, .. } => self.keep_job(id.app, StateWord::Accepted),
            Op::AppEnd { id, how, .. } => self.finish_job(*id, *how),
            _ => Ok(()),
        }
    }

    fn add_master(&mut self, master: ContainerId, node: &Text) -> Result<(), NoMemory> {
        self.masters.insert(master, ())?;
        self.add_node(node)
    }

    /// What an answered message shows: a job that is submitted, a master that registers, containers that it is handed, or a node.
    fn add_answer(&mut self, message: &Message, reply: &Reply) -> Result<(), NoMemory> {
        match (message, reply) {
            (Message::Client(_, ClientAsk::Submit(id, _)), Reply::Submitted) => self.submit(*id),
            (Message::Master(attempt, MasterAsk::Register), Reply::MasterRegistered) => {
                self.enter(attempt.app, StateWord::Running)
            }
            (Message::Master(attempt, MasterAsk::Register), Reply::Took { kept }) => {
                self.enter(attempt.app, StateWord::Running)?;
                self.hand_over(*attempt, kept.as_slice())
            }
            (Message::Master(attempt, _), Reply::Allocated { grants, .. }) => {
                self.hand_over(*attempt, grants.as_slice())
            }
            (Message::Node(node, _), _) => self.add_node(node),
            _ => Ok(()),
        }
    }

    /// The job is submitted, unless it was before: then this is a repeat.
    fn submit(&mut self, id: AppId) -> Result<(), NoMemory> {
        if self.jobs.get(&id).is_some() {
            return Ok(());
        }
        self.enter(id, StateWord::NewSaving)
    }

    fn enter(&mut self, id: AppId, state: StateWord) -> Result<(), NoMemory> {
        let line = self.lines;
        self.add_job(id)?;
        match self.jobs.get_mut(&id) {
            Some(job) => job.enter(state, line),
            None => Ok(()),
        }
    }

    fn requeue(&mut self, attempt: AttemptId) -> Result<(), NoMemory> {
        let line = self.lines;
        match self.jobs.get_mut(&attempt.app) {
            Some(job) => job.requeue(line),
            None => Ok(()),
        }
    }

    /// The job's end is kept.
    fn finish_job(&mut self, id: AppId, how: How) -> Result<(), NoMemory> {
        let line = self.lines;
        self.add_job(id)?;
        match self.jobs.get_mut(&id) {
            Some(job) => job.finish(how, line),
            None => Ok(()),
        }
    }

    /// A later life finds the job in this state.
    fn keep_job(&mut self, id: AppId, state: StateWord) -> Result<(), NoMemory> {
        self.add_job(id)?;
        if let Some(job) = self.jobs.get_mut(&id) {
            job.keep(state);
        }
        Ok(())
    }

    /// Adds the job of an application, where it isn't there.
    fn add_job(&mut self, id: AppId) -> Result<(), NoMemory> {
        if self.jobs.get(&id).is_none() {
            self.jobs.insert(id, Job::new(self.alloc))?;
        }
        Ok(())
    }

    fn absorb(
        &mut self,
        node: &Text,
        taken: &[Held],
        ended: &[ContainerId],
    ) -> Result<(), NoMemory> {
        'taken: for held in taken {
            self.hear(held.id, node)?;
        }
        self.add_node(node)?;
        self.end(ended)
    }

    fn grant(&mut self, node: &Text, grants: &[Grant]) -> Result<(), NoMemory> {
        self.add_node(node)?;
        'grants: for grant in grants {
            self.hear(grant.id, node)?;
        }
        Ok(())
    }

    /// The life hears of a container on a node.
    fn hear(&mut self, id: ContainerId, node: &Text) -> Result<(), NoMemory> {
        self.add_node(node)?;
        let place = self.nodes.get_index_of(node).unwrap_or(0);
        let line = self.lines;
        self.heard.push(id)?;
        if let Some(bar) = self.bars.get_mut(&id) {
            return bar.hear(line);
        }
        let mut bar = Bar::new(self.alloc, place);
        bar.hear(line)?;
        self.bars.insert(id, bar)?;
        Ok(())
    }

    /// The master of an attempt is told of these containers: those of other attempts are handed to it.
    fn hand_over(&mut self, attempt: AttemptId, grants: &[Grant]) -> Result<(), NoMemory> {
        let line = self.lines;
        'grants: for grant in grants {
            if grant.id.attempt != attempt {
                if let Some(bar) = self.bars.get_mut(&grant.id) {
                    bar.hand_over(attempt.number, line)?;
                }
            }
        }
        Ok(())
    }

    /// Whether a container was handed over.
    pub(crate) fn has_handings(&self) -> bool {
        'bars: for place in 0..self.bars.len() {
            if let Some((_, bar)) = self.bars.get_index(place) {
                if !bar.handings.is_empty() {
                    return true;
                }
            }
        }
        false
    }

    fn end(&mut self, list: &[ContainerId]) -> Result<(), NoMemory> {
        let line = self.lines;
        'list: for id in list {
            if let Some(bar) = self.bars.get_mut(id) {
                bar.end(line)?;
            }
        }
        Ok(())
    }

    fn add_node(&mut self, node: &Text) -> Result<(), NoMemory> {
        if self.nodes.get(node).is_none() {
            self.nodes.insert(node.copy()?, ())?;
        }
        Ok(())
    }

    /// The page ends: what goes on is drawn up to its last line.
    fn finish(&mut self) -> Result<(), NoMemory> {
        let line = self.lines;
        if let Some(life) = self.lives.last_mut() {
            if !life.went_down {
                life.to = line;
            }
        }
        'bars: for place in 0..self.bars.len() {
            if let Some(bar) = self.bars.get_index_mut(place) {
                bar.end(line)?;
            }
        }
        'jobs: for place in 0..self.jobs.len() {
            if let Some(job) = self.jobs.get_index_mut(place) {
                job.end(line)?;
            }
        }
        Ok(())
    }
}

/// The word of an operation, as its line has it.
fn operation_word(op: &Op) -> &'static [u8] {
    match op {
        Op::Epoch { .. } => b"epoch",
        Op::App { .. } => b"app",
        Op::Attempt { .. } => b"attempt",
        Op::AttemptEnd { .. } => b"attempt-end",
        Op::AppEnd { .. } => b"app-end",
        Op::Remove { .. } => b"remove",
    }
}
