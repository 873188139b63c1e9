ghost use Rattle.rm_workers.specs.Began.{Began, nothing_began};

use std::marker::Brand;

/// The beginning of a life, which all that the workers know of is measured by.
pub trait Since {
    ghost began: { Began };
}

impl Since for Brand {
    ghost began = { nothing_began };
}
