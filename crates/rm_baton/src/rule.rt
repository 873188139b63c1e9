//! The rule of the queue, and what each of its steps does to the pass that makes it.
ghost use Rattle.std.specs.Prelude.{◌≡◌, ◌<◌, [], length};
ghost use Rattle.rm_baton.specs.Views.{HasAllParts, Meets, ended, gave, helper, joined, started, took, with_half};

use crate::carries::{Carries, Known};
use crossbeam_queue::protocol::{Join, Lesson, Outcome, Protocol, Split};

// The rule.
pub struct Carrying;

impl<T: Carries> Protocol<T, Known<T::Run, T>> for Carrying {
    ghost use Rattle.rm_baton.specs.Rule.{Carried};
    ghost use Rattle.rm_baton.specs.Views.{opening};

    ghost holds = { Carried T.run T.log };

    ghost first = { opening };
}

// The first put, which begins the run.
pub struct Starts;

impl<T: Carries> Outcome<T, Known<T::Run, T>> for Starts {
    ghost then = { λ v x w. w ≡ started T.run T.log x };
}

// A put. While a pass has the value nothing lies in the queue.
pub struct Gives;

impl<T: Carries> Outcome<T, Known<T::Run, T>> for Gives {
    ghost then = { λ v x w. w ≡ gave T.log v x };
}

impl<T: Carries> Lesson<T, Known<T::Run, T>> for Gives {
    ghost fact = { λ v items. items ≡ [] };
}

// A take. The only pass that is left meets a queue that isn't empty.
pub struct Takes;

impl<T: Carries> Outcome<T, Known<T::Run, T>> for Takes {
    ghost then = { λ v x w. (w ≡ took T.log v x) × Meets T.run T.log v x };
}

impl<T: Carries> Lesson<T, Known<T::Run, T>> for Takes {
    ghost fact = { λ v items. HasAllParts v → 0 < length items };
}

// A new pass for another worker, and the end of one.
pub struct Helps;

impl<Run, T> Split<Known<Run, T>> for Helps {
    ghost left = { with_half };

    ghost right = { helper };
}

impl<Run, T> Join<Known<Run, T>> for Helps {
    ghost both = { joined };

    ghost spent = { ended };
}
