//! What a session counts.
ghost use Rattle.std.specs.Prelude.{◌≡◌, ◌<◌, ◌≤◌, ◌+◌, ◌-◌, ◌^◌};

/// How many entries a session has made, and how many it has seen.
#[derive(Clone, Copy)]
pub struct Counts {
    pub made: u64,
    pub seen: u64,
}

impl Counts {
    /// The session has seen the journal of this length.
    pub(crate) fn saw(&mut self, length: u64)
        ensures made { self.new.made ≡ self.old.made }
        ensures seen { self.new.seen ≡ length }
    {
        self.seen = length;
    }

    /// The session has made an entry, with which the journal has this length.
    pub(crate) fn made_one(&mut self, length: u64)
        requires { self.old.made + 1 < 2 ^ 64 }
        ensures made { self.new.made ≡ self.old.made + 1 }
        ensures seen { self.new.seen ≡ length }
    {
        self.made += 1;
        self.seen = length;
    }

    /// The session has made all by which the journal grew from one length to another.
    pub(crate) fn made_all(&mut self, from: u64, to: u64)
        requires { (from ≤ to) × (self.old.made + (to - from) < 2 ^ 64) }
        ensures made { self.new.made ≡ self.old.made + (to - from) }
        ensures seen { self.new.seen ≡ to }
    {
        self.made += to - from;
        self.seen = to;
    }
}
