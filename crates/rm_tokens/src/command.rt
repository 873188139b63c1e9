use rm_types::Text;

/// A call that is to keep a record: who asks for what, and when.
#[derive(Debug, Drop)]
pub enum Command {
    /// A token for this owner, to be renewed by this renewer.
    Issue {
        owner: Text,
        renewer: Text,
        now: u64,
    },
    /// A renewal of the token of a number.
    Renew {
        who: Text,
        number: u64,
        now: u64,
    },
    /// The cancellation of the token of a number.
    Cancel {
        who: Text,
        number: u64,
    },
}
