ghost use Rattle.std.specs.Prelude.{◌≡◌, ◌<◌, ℕ, Bool, List, length, IsTrue};
ghost use Rattle.edge_io.specs.Moments.{GivesMoment};

/// Where moments come from, each in seconds since the start of 1970, UTC. `moments` is the moments
/// that are left, never none, where `tells` says that they are told. A clock cannot fail.
pub trait Clock {
    ghost tells: { Self → Bool };

    ghost moments: { Self → List ℕ };

    /// Gives the first of the moments left, in seconds since 1970. The last one stays, and is given
    /// again.
    fn now(&mut self) -> u32
        ensures tells { tells self.new ≡ tells self.old }
        ensures given { IsTrue (tells self.old)
            → GivesMoment result (moments self.old) (moments self.new) };

    ghost some_moment: { (c : Self) → IsTrue (tells c) → 0 < length (moments c) };
}
