ghost use Rattle.std.specs.Prelude.{◌≡◌, ◌+◌};
ghost use Rattle.eva_io.specs.Memory.{is_listed, next_count};

/// Which calls are to fail, by their number from 1, and how many calls there were.
#[derive(Drop)]
pub(crate) struct Calls {
    pub(crate) failing: Vec<u64>,
    pub(crate) made: u64,
}

impl Calls {
    /// Counts a call, and says whether it is to fail.
    pub(crate) fn next_fails(&mut self) -> bool
        ensures fails { result ≡ is_listed self.old.failing.items (self.old.made + 1) }
        ensures made { self.new.made ≡ next_count self.old.made }
        ensures failing { self.new.failing.items ≡ self.old.failing.items }
    {
        let next = u128::from(self.made) + 1;
        self.made = self.made.saturating_add(1);
        self.failing
            .iter()
            .any(|number| u128::from(*number) == next)
    }
}
