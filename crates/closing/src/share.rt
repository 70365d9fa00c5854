// Sharing a whole number over weights, by running sums.
ghost use Rattle.std.specs.Prelude.{◌≡◌, ℕ, ◌+◌, ◌*◌, ◌^◌, ◌<◌, ◌≤◌, if◌then◌else◌, nat_eq};
ghost use Rattle.closing.specs.Sharing.{below, portion};

// What is shared, whether each weight counts 1, the sum of what the weights count, and the sum of those that are past.
#[derive(Clone, Copy)]
pub(crate) struct Share {
    total: u64,
    even: bool,
    sum: u64,
    past: u64,
}

impl Share {
    // A total to share over so many weights of this sum, of which none had its portion yet. Where they are all 0, each
    // counts 1.
    pub(crate) fn new(total: u64, weights: u64, count: u32) -> Share
        ensures total { result.total ≡ total }
        ensures even { result.even ≡ nat_eq weights 0 }
        ensures sum { result.sum ≡ (if nat_eq weights 0 then count else weights) }
        ensures past { result.past ≡ 0 }
    {
        let even = weights == 0;
        Share {
            total,
            even,
            sum: if even { u64::from(count) } else { weights },
            past: 0,
        }
    }

    // What a weight counts.
    fn counted(self, weight: u64) -> u64
        ensures { result ≡ (if self.even then 1 else weight) }
    {
        if self.even { 1 } else { weight }
    }

    // The portion of the next weight. What is lost by rounding at one weight is made up for at the next, so that
    // all portions come to the total.
    pub(crate) fn next(&mut self, weight: u64) -> u64
        requires some { 0 < self.old.sum }
        requires within { self.old.past + (if self.old.even then 1 else weight) ≤ self.old.sum }
        requires fits { self.old.total * self.old.sum < 2 ^ 64 }
        ensures value { (w : ℕ → ℕ) (n i : ℕ) → below w n ≡ self.old.sum → below w i ≡ self.old.past → w i ≡ (if self.old.even then 1 else weight) → result ≡ portion self.old.total w n i }
        ensures same { (self.new.total ≡ self.old.total) × (self.new.even ≡ self.old.even) × (self.new.sum ≡ self.old.sum) }
        ensures past { self.new.past ≡ self.old.past + (if self.old.even then 1 else weight) }
    {
        let before = self.total * self.past / self.sum;
        self.past += self.counted(weight);
        self.total * self.past / self.sum - before
    }
}
