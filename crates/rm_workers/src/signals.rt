use crate::bells::Bells;
use crate::start::StartBarrier;

/// What a life's workers share beside the baton.
#[derive(Drop)]
pub(crate) struct Signals {
    pub(crate) start: StartBarrier,
    pub(crate) bells: Bells,
}

impl Signals {
    /// Nobody has come, and nothing moved. It takes no memory.
    pub(crate) fn new() -> Signals {
        Signals {
            start: StartBarrier::new(),
            bells: Bells::new(),
        }
    }
}
