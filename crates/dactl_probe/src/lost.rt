//! Rules that no further reading revives.
ghost use Rattle.std.specs.Prelude.{◌≡◌, ℕ, ◌+◌, ◌^◌, ◌<◌, ◌≤◌, ◌⊎◌, All, AllPairs, IsTrue, length};
ghost use Rattle.std.specs.Prelude.{take};
ghost use Rattle.dactl_probe.specs.Lost.{IsKnownLost};

use crate::marks::Marks;

/// Rules that fail at the probe's node whatever is read further: those with numbers below `below`,
/// and those that are marked. The first `count` rules of the node's symbol have numbers below
/// `below`.
#[derive(Debug, Drop)]
pub struct Lost {
    below: u32,
    count: usize,
    marks: Marks,
}

impl Lost {
    /// No rule yet.
    pub fn none() -> Lost
        ensures { (rule : ℕ) → IsKnownLost result rule → ⊥ }
    {
        Lost {
            below: 0,
            count: 0,
            marks: Marks::none(),
        }
    }

    /// How many of the rules at the front, whose numbers ascend, are known to be lost without a look
    /// at their marks.
    pub fn among(&self, numbers: &[u32]) -> usize
        requires { AllPairs (λ a b. a < b) numbers.now }
        ensures within { result ≤ length numbers.now }
        ensures lost { All (λ r. r < self.now.below) (take result numbers.now) }
    {
        let count = self.count;
        if count == 0 || count > numbers.len() || numbers[count - 1] >= self.below {
            return 0;
        }
        count
    }

    /// Whether the rule of the number is known to be lost.
    pub fn has(&self, number: u32) -> bool
        ensures { IsTrue result → IsKnownLost self.now number }
    {
        self.marks.has(number)
    }

    /// Adds the rule of the number.
    pub fn mark(&mut self, number: u32)
        ensures { (s : ℕ) → IsKnownLost self.new s → (s ≡ number) ⊎ IsKnownLost self.old s }
    {
        self.marks.add(number);
    }

    /// Adds the rules up to this number, the last of so many rules of the node's symbol.
    pub fn pass(&mut self, number: u32, count: usize)
        requires { number < 2 ^ 31 }
        ensures { self.new ≡ record self.old { below = number + 1; count = count } }
    {
        self.below = number + 1;
        self.count = count;
    }
}
