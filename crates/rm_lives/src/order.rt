/// What moves the lanes of a run in an order of its own.
pub trait Ordered {
    ghost use Rattle.rm_lives.specs.Order.{Order};

    /// The order of its moves, which stays the same for a whole run.
    ghost order: { Self → Order };
}
