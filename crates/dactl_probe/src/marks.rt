//! A set of rules, by their numbers.
ghost use Rattle.std.specs.Prelude.{◌≡◌, ℕ, ◌⊎◌, IsTrue};
ghost use Rattle.dactl_probe.specs.Marks.{IsMarked};

/// Some of the 256 rules with numbers from `from` on.
#[derive(Clone, Copy, Debug)]
pub struct Marks {
    from: u32,
    words: [u64; 4],
}

impl Marks {
    /// No rule.
    pub fn none() -> Marks
        ensures { (rule : ℕ) → IsMarked result rule → ⊥ }
    {
        Marks::none_from(0)
    }

    fn none_from(from: u32) -> Marks
        ensures { (rule : ℕ) → IsMarked result rule → ⊥ }
    {
        Marks {
            from,
            words: [0; 4],
        }
    }

    /// Whether the rule of the number is in the set.
    pub fn has(&self, rule: u32) -> bool
        ensures { IsTrue result → IsMarked self.now rule }
    {
        if rule < self.from {
            return false;
        }
        let distance = rule - self.from;
        let place = (distance / 64) as usize;
        place < 4 && (self.words[place] >> (distance % 64)) & 1 == 1
    }

    /// Adds the rule of the number, if there is a place for it. Where the first place is free, the
    /// set begins anew with this rule.
    pub fn add(&mut self, rule: u32)
        ensures { (other : ℕ) → IsMarked self.new other → (other ≡ rule) ⊎ IsMarked self.old other }
    {
        if self.words[0] & 1 == 0 {
            *self = Marks::none_from(rule);
        }
        self.set(rule);
    }

    fn set(&mut self, rule: u32)
        ensures { (other : ℕ) → IsMarked self.new other → (other ≡ rule) ⊎ IsMarked self.old other }
    {
        if rule < self.from {
            return;
        }
        let distance = rule - self.from;
        let place = (distance / 64) as usize;
        if place < 4 {
            self.words[place] |= 1u64 << (distance % 64);
        }
    }
}
