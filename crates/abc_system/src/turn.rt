ghost use Rattle.std.specs.Prelude.{◌≡◌, ◌<◌, ◌+◌, ◌%◌};

/// A turn of the rule of places: `pick` and the number of steps made before it. It may pass 64 bits.
#[derive(Clone, Copy, Drop)]
pub struct Turn {
    pub pick: u64,
    pub made: u32,
}

impl Turn {
    /// The place of this turn among so many.
    pub fn place_among(self, count: u32) -> u32
        requires { 0 < count }
        ensures value { result ≡ (self.pick + self.made) % count }
        ensures among { result < count }
    {
        ((self.pick as u128 + self.made as u128) % count as u128) as u32
    }
}
