// Which calls on an object in memory are to fail.
ghost use Rattle.std.specs.Prelude.{◌≡◌, ◌≤◌, ◌↔◌, ◌+◌, ◌-◌, ◌^◌, min, Contains, IsTrue, IsFalse};
ghost use Rattle.outside.specs.Causes.{Rose};

#[derive(Drop)]
pub struct Failing {
    at: Vec<u64>,
    calls: u64,
    pub faults: u64,
}

impl Failing {
    // No calls yet. Those of these numbers are to fail.
    pub fn new(at: Vec<u64>) -> Self
        ensures at { result.at.items ≡ at.items }
        ensures calls { result.calls ≡ 0 }
        ensures faults { result.faults ≡ 0 }
    {
        Failing {
            at,
            calls: 0,
            faults: 0,
        }
    }

    // Counts a call, and says whether it is to fail.
    pub fn next(&mut self) -> bool
        ensures at { self.new.at.items ≡ self.old.at.items }
        ensures calls { self.new.calls ≡ min (self.old.calls + 1) (2 ^ 64 - 1) }
        ensures fails { IsTrue result ↔ Contains self.new.at.items self.new.calls }
        ensures later { self.old.faults ≤ self.new.faults }
        ensures failed { IsTrue result → Rose self.old.faults self.new.faults }
        ensures sound { IsFalse result → self.new.faults ≡ self.old.faults }
    {
        self.calls = self.calls.saturating_add(1);
        let fails = self.at.contains(&self.calls);
        if fails {
            self.faults = self.faults.saturating_add(1);
        }
        fails
    }
}
