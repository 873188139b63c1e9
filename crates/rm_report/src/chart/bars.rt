use rm_types::NoMemory;
use std::alloc::Global;

/// Lines of a page, counted from 1.
pub(crate) type Line = u32;

/// Along which lines something lasts, and whether the life of the manager has heard of it.
#[derive(Clone, Copy)]
pub(crate) struct Stretch {
    pub(crate) from: Line,
    pub(crate) to: Line,
    pub(crate) is_heard: bool,
}

/// On which line a container was handed to a later attempt, and the number of that attempt.
#[derive(Clone, Copy)]
pub(crate) struct Handing {
    pub(crate) line: Line,
    pub(crate) attempt: u32,
}

/// How a container stands.
#[derive(Clone, Copy)]
enum Standing {
    /// The life knows of it, since this line.
    Heard { since: Line },
    /// It runs on since this line, at which the manager went down, and the new life hasn't heard of it.
    Unheard { since: Line },
    /// It ended, or was never heard of.
    Ended,
}

/// A container on a node, from its grant or absorption to its ending.
#[derive(Drop)]
pub(crate) struct Bar {
    /// The place of its node among all nodes.
    pub(crate) node: usize,
    /// The stretches of its time that are over, in order.
    pub(crate) stretches: Vec<Stretch>,
    /// When it was handed over, in order.
    pub(crate) handings: Vec<Handing>,
    standing: Standing,
}

impl Bar {
    /// A container on a node that begins to run.
    pub(crate) fn new(alloc: Global, node: usize) -> Bar {
        Bar {
            node,
            stretches: Vec::new(alloc),
            handings: Vec::new(alloc),
            standing: Standing::Ended,
        }
    }

    /// The life hears of it: it is granted, or its node's report is absorbed.
    pub(crate) fn hear(&mut self, line: Line) -> Result<(), NoMemory> {
        self.close(line)?;
        self.standing = Standing::Heard { since: line };
        Ok(())
    }

    /// It is handed to a later attempt, unless that attempt had it already: its master may be told once more.
    pub(crate) fn hand_over(&mut self, attempt: u32, line: Line) -> Result<(), NoMemory> {
        if let Some(last) = self.handings.last() {
            if last.attempt == attempt {
                return Ok(());
            }
        }
        self.handings.push(Handing { line, attempt })?;
        Ok(())
    }

    /// The manager goes down: the next life doesn't know of it yet.
    pub(crate) fn forget(&mut self, line: Line) -> Result<(), NoMemory> {
        if let Standing::Heard { .. } = self.standing {
            self.close(line)?;
            self.standing = Standing::Unheard { since: line };
        }
        Ok(())
    }

    /// It ends, or the page does.
    pub(crate) fn end(&mut self, line: Line) -> Result<(), NoMemory> {
        self.close(line)?;
        self.standing = Standing::Ended;
        Ok(())
    }

    /// Adds the stretch that goes on, up to a line.
    fn close(&mut self, line: Line) -> Result<(), NoMemory> {
        let (from, is_heard) = match self.standing {
            Standing::Heard { since } => (since, true),
            Standing::Unheard { since } => (since, false),
            Standing::Ended => return Ok(()),
        };
        self.stretches.push(Stretch {
            from,
            to: line,
            is_heard,
        })?;
        Ok(())
    }
}
