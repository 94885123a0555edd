ghost use Rattle.std.specs.Prelude.{◌≡◌, ℕ, ◌<◌, ◌-◌, ◌^◌, [], vec_len};
ghost use Rattle.mb_base.specs.MemoryStreams.{fails_next, after_call};

use std::marker::Model;

/// Which calls of a source or a sink in memory fail: those whose number from 1 stands in a list.
#[derive(Drop)]
pub struct FaultPlan {
    fails: Vec<u64>,
    calls: u64,
    faults: u64,
}

impl Model for FaultPlan {
    ghost use Rattle.mb_base.specs.MemoryStreams.{FaultPlan as Plan};

    ghost Value = { Plan };

    ghost view = { λ p. record { fails = p.fails.items; calls = p.calls; faults = p.faults } };
}

impl FaultPlan {
    /// No call yet, and these are to fail.
    pub fn new(fails: Vec<u64>) -> FaultPlan
        ensures { result ≡ record { fails = fails.items; calls = 0; faults = 0 } }
    {
        FaultPlan {
            fails,
            calls: 0,
            faults: 0,
        }
    }

    /// One call more: whether it fails.
    pub fn fails_now(&mut self) -> bool
        requires { self.old.faults < 2 ^ 64 - 1 }
        ensures answer { result ≡ fails_next self.old }
        ensures after { self.new ≡ after_call self.old }
    {
        self.calls = self.calls.saturating_add(1);
        if !self.fails.contains(&self.calls) {
            return false;
        }
        self.faults += 1;
        true
    }
}
