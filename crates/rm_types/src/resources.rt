ghost use Rattle.std.specs.Prelude.{◌≡◌, ◌↔◌, IsTrue, IsSome, IfSome};
ghost use Rattle.rm_types.specs.Resources.{Fits, fits, sum_of, difference_of, IsInRange};

/// Memory in megabytes, and virtual cores.
#[derive(Clone, Copy, Debug, PartialEq, Eq)]
pub struct Resource {
    pub memory_mb: u32,
    pub vcores: u32,
}

impl Resource {
    /// Whether both parts are at most those of `within`.
    pub fn fits(self, within: Resource) -> bool
        ensures fits { IsTrue result ↔ Fits self within }
        ensures test { result ≡ fits self within }
    {
        self.memory_mb <= within.memory_mb && self.vcores <= within.vcores
    }

    /// The sum, by part. `None` exactly where a part leaves 32 bits.
    pub fn plus(self, other: Resource) -> Option<Resource>
        ensures within { IsSome result ↔ IsInRange (sum_of self other) }
        ensures sum { IfSome result (λ sum. sum ≡ sum_of self other) }
    {
        let memory_mb = self.memory_mb.checked_add(other.memory_mb)?;
        let vcores = self.vcores.checked_add(other.vcores)?;
        Some(Resource { memory_mb, vcores })
    }

    /// The difference, by part. `None` exactly where `other` doesn't fit.
    pub fn minus(self, other: Resource) -> Option<Resource>
        ensures within { IsSome result ↔ Fits other self }
        ensures difference { IfSome result (λ rest. rest ≡ difference_of self other) }
    {
        let memory_mb = self.memory_mb.checked_sub(other.memory_mb)?;
        let vcores = self.vcores.checked_sub(other.vcores)?;
        Some(Resource { memory_mb, vcores })
    }
}
