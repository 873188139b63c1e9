//! What may go to other threads.
use crate::baton::{Baton, Pass};
use crate::carries::Carries;

fn is_sent<T: Send>(_value: &T) {}

fn is_shared<T: Sync>(_value: &T) {}

// Of a value that may go to another thread, the baton may go there and be shared, and so may a pass go.
fn both_cross<T: Carries + Send>(baton: &Baton<T>, pass: &Pass<T>) {
    is_sent(baton);
    is_shared(baton);
    is_sent(pass);
}
