ghost use Rattle.std.specs.Prelude.{◌≡◌, false, IfErr, IfNone, IfOk, IfSome, IsSome};
ghost use Rattle.crossbeam_queue.specs.Passes.{ruled_capacity};
ghost use Rattle.rm_baton.specs.Views.{HasAllParts, IsIdle, MayPut, Meets, IsOfRun, gave, helper, joined, started, took, view, with_half};

use crate::carries::{Carries, Known};
use crate::rule::{Carrying, Gives, Helps, Starts, Takes};
use crossbeam_queue::RuledArrayQueue;
use std::alloc::Global;
use std::sync::Wait;

/// A worker's token, which has no bytes. What it knows, its view, is a `Known`.
pub type Pass<T> = crossbeam_queue::Pass<T, Known<<T as Carries>::Run, T>>;

/// A place for one value. The worker that took the value out has the baton until it puts it back.
#[derive(Drop)]
pub struct Baton<T: Carries> {
    queue: RuledArrayQueue<T, Known<T::Run, T>, Carrying>,
    ghost one: { ruled_capacity queue ≡ 1 },
}

impl<T: Carries> Baton<T> {
    ghost use Rattle.rm_baton.specs.Passes.{IsPassOf};

    /// A baton with this value in its place, and the store's pass, which has seen the value's log and has all parts.
    ///
    /// The value comes back where no memory was found.
    pub fn new(alloc: Global, held: T) -> Result<(Baton<T>, Pass<T>), T>
        ensures of { IfOk result (λ made. IsPassOf made.0 made.1) }
        ensures pass { IfOk result (λ made. view made.1 ≡ started T.run T.log held) }
        ensures back { IfErr result (λ value. value ≡ held) }
    {
        match RuledArrayQueue::<T, Known<T::Run, T>, Carrying>::ruled(alloc, 1) {
            Ok((queue, mut pass)) => match queue.try_push_as::<Starts>(&mut pass, held) {
                Ok(()) => Ok((Baton { queue }, pass)),
                Err(held) => Err(held),
            },
            Err(_) => Err(held),
        }
    }

    /// Takes the value out. It is of the pass's run, each log that the pass has seen begins its log, and for the store's
    /// pass only common entries were added since its last log.
    ///
    /// `None` where the value was out at a moment of the call, and then the pass is as it was. The only pass that is
    /// left, which has all parts, gets the value.
    #[inline(never)]
    pub fn take<R: Wait>(&self, rt: &R, pass: &mut Pass<T>) -> Option<T>
        requires of { IsPassOf self.now pass.old }
        requires idle { IsIdle (view pass.old) }
        ensures of { IsPassOf self.now pass.new }
        ensures took { IfSome result (λ held. view pass.new ≡ took T.log (view pass.old) held) }
        ensures meets { IfSome result (Meets T.run T.log (view pass.old)) }
        ensures none { IfNone result (view pass.new ≡ view pass.old) }
        ensures alone { HasAllParts (view pass.old) → IsSome result }
    {
        self.queue.pop_as::<Takes, R>(rt, pass)
    }

    /// Puts a value in the place of the one that this pass took: it is of the same run, its log is the taken one, or that and
    /// one entry, and a pass that isn't the store's added a common entry only. It takes no memory, and is never refused.
    #[inline(never)]
    pub fn put<R: Wait>(&self, rt: &R, pass: &mut Pass<T>, held: T)
        requires of { IsPassOf self.now pass.old }
        requires may { MayPut T.run T.log (view pass.old) held }
        ensures of { IsPassOf self.now pass.new }
        ensures gave { view pass.new ≡ gave T.log (view pass.old) held }
    {
        match self.queue.push_as::<Gives, R>(rt, pass, held) {
            Ok(()) => {}
            Err(_) => unreachable!(),
        }
    }

    /// A pass for another worker. It has seen what this one has, and isn't the store's; each has half of the parts that
    /// this one had. It takes no memory and waits for nobody.
    pub fn split(&self, pass: &mut Pass<T>) -> Pass<T>
        requires of { IsPassOf self.now pass.old }
        requires stands { IsOfRun (view pass.old) }
        ensures of { IsPassOf self.now pass.new × IsPassOf self.now result }
        ensures old { view pass.new ≡ with_half (view pass.old) }
        ensures new { view result ≡ helper (view pass.old) }
    {
        self.queue.another::<Helps>(pass)
    }

    /// Ends a pass. This one takes up its parts, what it has seen, and the store's mark where it has that. It takes no
    /// memory and waits for nobody.
    pub fn join(&self, pass: &mut Pass<T>, other: Pass<T>)
        requires of { IsPassOf self.now pass.old × IsPassOf self.now other }
        requires idle { IsIdle (view pass.old) × IsIdle (view other) }
        ensures of { IsPassOf self.now pass.new }
        ensures joined { view pass.new ≡ joined (view pass.old) (view other) }
    {
        self.queue.absorb::<Helps>(pass, other);
    }
}
