//! The manager that never dies: its state, what each entry of a log may say in it, and which logs it
//! could have made. It is a judge of finished logs, by plain definitions in `specs/`, told in words in
//! `docs/MODEL.md`:
//!
//! - `State`, and what is said of it: `Facts`, `Attempts`, `Containers`, `Nodes`;
//! - what each message is answered: `ClientReplies`, `MasterReplies`, `NodeReplies`, `Replies`;
//! - when each entry may come, and what it changes: `Issuing`, `Absorbing`, `Passing`, `Ending`, `Owed`,
//!   `Rules`, `Changes`;
//! - the script's part in it: `Place`; and all together: `Lawful`, `Downs`.
//!
//! It stands on `rm_types`, whose values it speaks of. It knows nothing of bytes.
#![tactic(auto)]
