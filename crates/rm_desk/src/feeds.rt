ghost use Rattle.std.specs.Prelude.{◌≡◌, ◌≢◌, ◌↔◌, [], ◌∷◌, IsTrue, OnOk, OnErr};

use crate::feed::Feed;
use rm_types::{Close, Life, NoMemory, Queue, Script, Segment};
use std::alloc::Global;

/// What is left of a script: the lives that have not begun, how the current segment closes and the messages
/// left in its four feeds, and the segments of this life after it.
#[derive(Drop)]
pub struct Feeds {
    pub alloc: Global,
    pub lives: Queue<Life>,
    pub close: Option<Close>,
    pub feed: Feed,
    pub segments: Queue<Segment>,
}

impl Feeds {
    ghost use Rattle.rm_model.specs.Place.{ByLife, BySegment, IsAtEnd, place_begun, place_grown, beginning};
    ghost use Rattle.rm_desk.specs.Feeds.{IsEntered, feeds_place};

    /// A script before its first life. It takes no memory.
    pub fn new(alloc: Global, script: Script) -> Feeds
        ensures place { feeds_place result ≡ beginning script }
        ensures entered { IsEntered result }
    {
        let Script { lives } = script;
        Feeds {
            alloc,
            lives: Queue::from_items(lives),
            close: None,
            feed: Feed::new(alloc),
            segments: Queue::new(alloc),
        }
    }

    /// The next segment of the life becomes the current one, if there is one.
    pub fn enter(&mut self)
        ensures place { feeds_place self.new ≡ record { lives = self.old.lives; segments = self.old.segments } }
        ensures entered { IsEntered self.new }
    {
        match self.segments.take_first() {
            Some(segment) => self.set_current(segment),
            None => {
                self.feed = Feed::new(self.alloc);
                self.close = None;
            }
        }
    }

    /// A segment becomes the current one, with the segments that are left after it. It takes no memory.
    fn set_current(&mut self, segment: Segment)
        ensures place { feeds_place self.new ≡ record { lives = self.old.lives; segments = segment ∷ self.old.segments } }
        ensures entered { IsEntered self.new }
    {
        let Segment { messages, close } = segment;
        self.feed = Feed::from_items(messages);
        self.close = Some(close);
    }

    /// The next life begins with its first segment.
    pub fn enter_life(&mut self)
        requires { self.old.lives ≢ [] }
        ensures place { feeds_place self.new ≡ place_begun self.old.lives (feeds_place self.old) }
        ensures entered { IsEntered self.new }
    {
        match self.lives.take_first() {
            Some(life) => {
                let Life { stamp: _, segments } = life;
                self.segments = Queue::from_items(segments);
                self.enter()
            }
            None => unreachable!(),
        }
    }

    /// The script has this life more at its end, behind those that have not begun. `NoMemory` where no memory was found for it, and then
    /// nothing has changed.
    pub fn add_life(&mut self, life: Life) -> Result<(), NoMemory>
        requires { IsEntered self.old }
        ensures place { OnOk result (feeds_place self.new ≡ place_grown (ByLife life) (feeds_place self.old)) }
        ensures entered { OnOk result (IsEntered self.new) }
        ensures err { OnErr result (self.new ≡ self.old) }
    {
        self.lives.push(life)
    }

    /// The script has this segment more at its end, where nothing is left of it: it becomes the current one of its last life. It takes no
    /// memory.
    pub fn add_segment(&mut self, segment: Segment)
        requires lives { self.old.lives ≡ [] }
        requires segments { (feeds_place self.old).segments ≡ [] }
        ensures place { feeds_place self.new ≡ place_grown (BySegment segment) (feeds_place self.old) }
        ensures entered { IsEntered self.new }
    {
        self.set_current(segment)
    }

    /// Whether nothing is left of the script.
    pub fn is_at_end(&self) -> bool
        requires { IsEntered self.now }
        ensures { IsTrue result ↔ IsAtEnd (feeds_place self.now) }
    {
        self.close.is_none() && self.lives.is_empty()
    }
}
