ghost use Rattle.std.specs.Prelude.{◌≡◌, ◌≤◌, ◌+◌, ◌^◌, ◌∷◌, List, length, IfOk, IfErr, IfNone, IfSome, []};
ghost use Rattle.rm_plain.specs.declared.schedule.Step.{Step};
ghost use Rattle.rm_plain.specs.Schedule.{Stops, chosen, course_left, letter_at, letter_of, most_scheduled, moved_by, steps_from, used_by};

use crate::policy::first_ready;
use rm_desk::Desk;
use rm_formats::MOST_FILE_BYTES;
use rm_lives::Halt;
use rm_types::Lane;
use std::marker::Model;

/// How many bytes of a schedule may have letters. This project's own.
pub const MOST_SCHEDULED: u64 = MOST_FILE_BYTES as u64;

/// What a letter of a schedule asks for.
#[derive(Clone, Copy, PartialEq, Eq)]
pub enum Letter {
    /// The move of this lane.
    Moves(Lane),
    /// Moves of the plain policy, up to and with the next one that closes a segment.
    Plain,
    /// Nothing: the byte is no letter, or it stands past the most that may have one.
    Unknown,
}

/// A letter of a schedule, and the byte at which it stands, from 0 on.
#[derive(Clone, Copy, PartialEq, Eq)]
pub struct Step {
    pub place: u64,
    pub letter: Letter,
}

/// A schedule, and how far a run has come in it.
#[derive(Drop)]
pub struct Schedule<'a> {
    /// All its bytes.
    whole: &'a [u8],
    /// Those behind the letters that are used up.
    rest: &'a [u8],
    /// How many bytes stand before the rest.
    place: u64,
}

impl<'a> Model for Schedule<'a> {
    ghost use Rattle.std.specs.Prelude.{◌+◌, ◌≤◌, ◌^◌, length};
    ghost use Rattle.rm_plain.specs.Schedule.{Course};

    ghost Value = { Course };

    ghost view = { λ s. record { whole = s.whole.now; rest = s.rest.now; place = s.place } };

    ghost invariant = { λ s. s.place + length s.rest.now ≤ 2 ^ 63 };
}

/// The letter that a byte is, where it doesn't stand past the most that may have one.
#[tactic(auto, unfolding(crate::specs::Schedule::letter_of))]
pub fn letter_of(byte: u8) -> Letter
    ensures { result ≡ letter_of byte }
{
    match byte {
        b'p' => Letter::Plain,
        b'd' => Letter::Moves(Lane::Main),
        b's' => Letter::Moves(Lane::Sched),
        b'c' => Letter::Moves(Lane::Client),
        b'm' => Letter::Moves(Lane::Master),
        b'n' => Letter::Moves(Lane::Node),
        b'k' => Letter::Moves(Lane::Clock),
        b'h' => Letter::Moves(Lane::Hand),
        b'w' => Letter::Moves(Lane::Write),
        b'e' => Letter::Moves(Lane::End),
        b'o' => Letter::Moves(Lane::Begin),
        _ => Letter::Unknown,
    }
}

/// The letter that a byte is at its place.
#[tactic(auto, unfolding(crate::specs::Schedule::letter_at))]
fn letter_at(place: u64, byte: u8) -> Letter
    ensures { result ≡ letter_at place byte }
{
    if place >= MOST_SCHEDULED {
        Letter::Unknown
    } else {
        letter_of(byte)
    }
}

/// The lane that a letter moves, if it can.
fn moved_by(letter: Letter, d: &Desk) -> Option<Lane>
    ensures { result ≡ moved_by letter d.now }
{
    match letter {
        Letter::Moves(lane) => d.ready(lane).then_some(lane),
        Letter::Plain => {
            d.close_of()?;
            first_ready(d)
        }
        Letter::Unknown => None,
    }
}

impl<'a> Schedule<'a> {
    /// A schedule of which nothing is used up.
    pub fn new(bytes: &'a [u8]) -> Schedule<'a>
        ensures whole { result.whole ≡ bytes.now }
        ensures left { course_left result ≡ steps_from 0 bytes.now }
    {
        let mut schedule = Schedule {
            whole: bytes,
            rest: bytes,
            place: 0,
        };
        schedule.skip();
        schedule
    }

    // Drops the line feeds before the first letter that is left, so that no later look for it has to go over them again.
    #[tactic(auto, unfolding(crate::specs::Schedule::steps_from))]
    fn skip(&mut self)
        ensures whole { self.new.whole ≡ self.old.whole }
        ensures left { course_left self.new ≡ course_left self.old }
    {
        let mut rest = self.rest;
        let mut place = self.place;
        'skipped: while let [byte, more @ ..] = rest {
            if *byte != b'\n' || place >= MOST_SCHEDULED {
                break;
            }
            rest = more;
            place += 1;
        }
        self.rest = rest;
        self.place = place;
    }

    /// The first letter that is left, and the bytes behind it.
    #[tactic(auto, unfolding(crate::specs::Schedule::steps_from))]
    fn front(&self) -> Option<(Step, &'a [u8])>
        ensures none { IfNone result (course_left self.now ≡ []) }
        ensures some { IfSome result (λ front. course_left self.now ≡ front.0 ∷ steps_from (front.0.place + 1) front.1.now) }
        ensures within { IfSome result (λ front. front.0.place + 1 + length front.1.now ≤ 2 ^ 63) }
    {
        let mut rest = self.rest;
        let mut place = self.place;
        'skipped: while let [byte, more @ ..] = rest {
            if *byte != b'\n' || place >= MOST_SCHEDULED {
                let letter = letter_at(place, *byte);
                return Some((Step { place, letter }, more));
            }
            rest = more;
            place += 1;
        }
        None
    }

    /// The lane that is to move next: the first letter's or, where none is left, the policy's first that is ready. `Schedule`
    /// comes exactly where a letter is left that can move no lane, with its place.
    pub(crate) fn choice(&self, d: &Desk) -> Result<Option<Lane>, Halt>
        ensures chosen { IfOk result (λ lane. lane ≡ chosen (course_left self.now) d.now) }
        ensures over { IfOk result (λ lane. IfNone lane (course_left self.now ≡ [])) }
        ensures stops { IfErr result (Stops (course_left self.now) d.now) }
    {
        let Some((step, _)) = self.front() else {
            return Ok(first_ready(d));
        };
        match moved_by(step.letter, d) {
            Some(lane) => Ok(Some(lane)),
            None => Err(Halt::Schedule { place: step.place }),
        }
    }

    /// Where the first letter stands that is left.
    pub(crate) fn place_left(&self) -> Option<u64>
        ensures none { IfNone result (course_left self.now ≡ []) }
        ensures some { IfSome result (λ place. (step : Step) × (more : List Step) × (course_left self.now ≡ step ∷ more) × (place ≡ step.place)) }
    {
        self.front().map(|(step, _)| step.place)
    }

    /// Uses up the first letter, unless it is for more than this lane's move.
    pub(crate) fn pass(&mut self, lane: Lane)
        ensures whole { self.new.whole ≡ self.old.whole }
        ensures left { course_left self.new ≡ used_by lane (course_left self.old) }
    {
        if let Some((step, rest)) = self.front() {
            if step.letter == Letter::Plain && lane != Lane::End {
                return;
            }
            self.rest = rest;
            self.place = step.place + 1;
            self.skip();
        }
    }
}
