use crate::chart::bars::Line;
use rm_types::{How, NoMemory, StateWord};
use std::alloc::Global;

/// Along which lines a job had a state.
#[derive(Clone, Copy)]
pub(crate) struct Phase {
    pub(crate) from: Line,
    pub(crate) to: Line,
    pub(crate) state: StateWord,
}

/// The states of a job, as a page shows them.
#[derive(Drop)]
pub(crate) struct Job {
    /// The phases that are over, in order.
    pub(crate) phases: Vec<Phase>,
    /// The state that goes on, and since which line. None, where no life knows it.
    now: Option<(StateWord, Line)>,
    /// The state in which a later life finds it in the store. None, where it isn't there.
    kept: Option<StateWord>,
}

impl Job {
    /// A job of which nothing was told yet.
    pub(crate) fn new(alloc: Global) -> Job {
        Job {
            phases: Vec::new(alloc),
            now: None,
            kept: None,
        }
    }

    /// It is kept: a later life finds it in this state.
    pub(crate) fn keep(&mut self, state: StateWord) {
        self.kept = Some(state);
    }

    /// A life begins, and finds it in the store, where it is there.
    pub(crate) fn recover(&mut self, line: Line) -> Result<(), NoMemory> {
        match self.kept {
            Some(state) => self.enter(state, line),
            None => Ok(()),
        }
    }

    /// It has this state from here on, unless it has ended.
    pub(crate) fn enter(&mut self, state: StateWord, line: Line) -> Result<(), NoMemory> {
        if self.is_final() {
            return Ok(());
        }
        self.close(line)?;
        self.now = Some((state, line));
        Ok(())
    }

    /// It goes back to ACCEPTED for another attempt, if it was RUNNING.
    pub(crate) fn requeue(&mut self, line: Line) -> Result<(), NoMemory> {
        match self.now {
            Some((StateWord::Running, _since)) => self.enter(StateWord::Accepted, line),
            _ => Ok(()),
        }
    }

    /// Its end is kept.
    pub(crate) fn finish(&mut self, how: How, line: Line) -> Result<(), NoMemory> {
        let state = match how {
            How::Finished => StateWord::Finished,
            How::Failed => StateWord::Failed,
            How::Killed => StateWord::Killed,
        };
        self.enter(state, line)
    }

    /// The manager goes down: a state that isn't final goes with it.
    pub(crate) fn forget(&mut self, line: Line) -> Result<(), NoMemory> {
        if self.is_final() {
            return Ok(());
        }
        self.close(line)?;
        self.now = None;
        Ok(())
    }

    /// The page ends.
    pub(crate) fn end(&mut self, line: Line) -> Result<(), NoMemory> {
        self.close(line)?;
        self.now = None;
        Ok(())
    }

    fn is_final(&self) -> bool {
        matches!(
            self.now,
            Some((
                StateWord::Finished | StateWord::Failed | StateWord::Killed,
                _
            ))
        )
    }

    /// Adds the phase that goes on, up to a line.
    fn close(&mut self, line: Line) -> Result<(), NoMemory> {
        if let Some((state, from)) = self.now {
            self.phases.push(Phase {
                from,
                to: line,
                state,
            })?;
        }
        Ok(())
    }
}
