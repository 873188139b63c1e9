ghost use Rattle.std.specs.Prelude.{◌≡◌, ◌↔◌, Contains, IsTrue};
ghost use Rattle.rm_types.specs.Counts.{risen};

use rm_types::Items;

/// The calls of a fake: the numbers, from 1, of those that fail, and how many there were.
#[derive(Drop)]
pub struct Calls {
    pub failing: Items<u64>,
    pub made: u64,
}

impl Calls {
    /// Counts one more call, and says whether it fails.
    pub fn next_fails(&mut self) -> bool
        ensures fails { IsTrue result ↔ Contains self.old.failing (risen self.old.made) }
        ensures made { self.new.made ≡ risen self.old.made }
        ensures failing { self.new.failing ≡ self.old.failing }
    {
        self.made = self.made.saturating_add(1);
        is_among(self.made, self.failing.as_slice())
    }
}

/// Whether the number is among these.
fn is_among(number: u64, numbers: &[u64]) -> bool
    ensures { IsTrue result ↔ Contains numbers.now number }
{
    numbers.contains(&number)
}
