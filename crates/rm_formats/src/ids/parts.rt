ghost use Rattle.std.specs.Prelude.{◌≡◌};
ghost use Rattle.rm_formats.specs.ids.Parts.{least_digits, greatest};

use rm_types::{EPOCHS, NUMBERS, SEQUENCES, STAMPS};

/// A number in the text of an id. Each is 1 at least: epoch 0 isn't shown.
#[derive(Clone, Copy, Debug, PartialEq, Eq)]
pub(crate) enum Part {
    Stamp,
    AppNumber,
    AttemptNumber,
    /// An attempt's number as it stands in a container's text.
    AttemptInContainer,
    Epoch,
    Sequence,
}

impl Part {
    /// How many digits are written at least: zeros stand before a shorter number.
    pub fn least_digits(self) -> usize
        ensures { result ≡ least_digits self }
    {
        match self {
            Part::Stamp => 1,
            Part::AppNumber => 4,
            Part::AttemptNumber => 6,
            Part::AttemptInContainer => 2,
            Part::Epoch => 2,
            Part::Sequence => 6,
        }
    }

    /// The greatest number.
    pub fn greatest(self) -> u64
        ensures { result ≡ greatest self }
    {
        match self {
            Part::Stamp => STAMPS - 1,
            Part::AppNumber | Part::AttemptNumber | Part::AttemptInContainer => {
                u64::from(NUMBERS - 1)
            }
            Part::Epoch => u64::from(EPOCHS - 1),
            Part::Sequence => SEQUENCES - 1,
        }
    }
}
