use rm_tree::Tree;
use rm_types::{AppRecord, How};

/// How far a job has come, by its record.
#[derive(Clone, Copy)]
pub enum JobState {
    /// It has no attempt yet.
    Submitted,
    /// It has an attempt, and no end.
    Accepted,
    /// It ended as finished.
    Finished,
    /// It ended as failed.
    Failed,
    /// It ended as killed.
    Killed,
}

/// How far the job of a record has come.
fn state_of(app: &AppRecord) -> JobState {
    match &app.ending {
        Some((How::Finished, _)) => JobState::Finished,
        Some((How::Failed, _)) => JobState::Failed,
        Some((How::Killed, _)) => JobState::Killed,
        None => {
            if app.attempts.is_empty() {
                JobState::Submitted
            } else {
                JobState::Accepted
            }
        }
    }
}

/// Whether the job of a record has come so far.
fn is_in(app: &AppRecord, state: JobState) -> bool {
    state_of(app) as u8 == state as u8
}

/// How many jobs of a store have come so far.
pub fn jobs_in(tree: &Tree, state: JobState) -> usize {
    let mut count = 0usize;
    'jobs: for place in 0..tree.len() {
        if is_in(tree.at(place), state) {
            count = count.saturating_add(1);
        }
    }
    count
}
