// The numbers of a session's packets as they arrive: the highest taken, and which of the last 32 were, so that none is taken twice.
#![tactic(auto)]

ghost use Rattle.std.specs.Prelude.{◌≡◌, false, ◌||◌, eqb};
ghost use Rattle.arrivals.specs.Marks.{moved_up, bits_of, count_of, marked};
ghost use Rattle.arrivals.specs.Take.{too_old, taken, fresh};
ghost use Rattle.arrivals.specs.Promise.{TakePromise};

use refusal::Refusal;

// The highest number taken, and a mark for it and for each of the 31 below it: bit k of `seen` says that `highest - k` was taken.
#[derive(Clone, Copy)]
pub struct Arrivals {
    pub highest: u32,
    pub seen: u32,
}

// The marks of a record whose highest number rises by `d`, which is then marked itself.
#[tactic(auto, using(crate::proofs::Taking::moved_near))]
fn move_up(seen: u32, d: u32) -> u32
    ensures { result ≡ bits_of (λ k. eqb k 0 || moved_up seen d k) 32 }
{
    if d > 31 {
        return 1;
    }
    (seen << d) | 1
}

impl Arrivals {
    // The record of a session that has just been opened. By name and not by a derived `Default`: its promise is `fresh` of specs/.
    pub fn new() -> Arrivals
        ensures { result ≡ fresh }
    {
        Arrivals {
            highest: 0,
            seen: 0,
        }
    }

    // Whether a number is too old to be taken, marked or not: zero, or more than 31 below the highest.
    #[tactic(auto, unfolding(crate::specs::Take::too_old))]
    fn is_too_old(self, n: u32) -> bool
        ensures { result ≡ too_old self n }
    {
        n == 0 || self.highest.saturating_sub(n) > 31
    }

    #[tactic(auto, unfolding(crate::specs::Marks::marked, crate::specs::Marks::mark_of))]
    fn is_marked(self, n: u32) -> bool
        ensures { result ≡ marked self n }
    {
        n <= self.highest && self.highest - n <= 31 && (self.seen >> (self.highest - n)) & 1 == 1
    }

    // The record with a number that it takes.
    #[tactic(auto, using(crate::proofs::Taking::taken_above, crate::proofs::Taking::taken_below, crate::proofs::Taking::young))]
    fn mark(self, n: u32) -> Arrivals
        requires { too_old self n ≡ false }
        ensures { result ≡ taken self n }
    {
        if self.highest < n {
            return Arrivals {
                highest: n,
                seen: move_up(self.seen, n - self.highest),
            };
        }
        let k = self.highest - n;
        Arrivals {
            highest: self.highest,
            seen: self.seen | (1 << k),
        }
    }

    // The record with a number that it takes; where the number is refused the record stays as it was.
    #[tactic(auto, unfolding(crate::specs::Take::take_of, refusal::specs::Order::need))]
    pub fn take(self, n: u32) -> Result<Arrivals, Refusal>
        ensures { TakePromise self n result }
    {
        if self.is_too_old(n) {
            return Err(Refusal::TooOld);
        }
        if self.is_marked(n) {
            return Err(Refusal::AlreadyTaken);
        }
        Ok(self.mark(n))
    }

    // How many of the 32 marks are set: of a record that began as a new one, how many of the last 32 numbers were taken.
    #[tactic(auto, using(crate::proofs::Bits::ones_marks))]
    pub fn count(self) -> u32
        ensures { result ≡ count_of self }
    {
        self.seen.count_ones()
    }
}
