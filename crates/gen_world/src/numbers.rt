ghost use Rattle.std.specs.Prelude.{◌≡◌, ◌+◌, ◌*◌, ◌<◌, ◌≤◌, ◌^◌, pos, ◌-ℤ◌, ◌≤ℤ◌};
ghost use Rattle.gen_world.specs.Numbers.{number, draw, around, next_number};

/// What makes the next number of the sequence, modulo 2^64.
const FACTOR: u64 = 6_364_136_223_846_793_005;

const SUMMAND: u64 = 1_442_695_040_888_963_407;

/// The sequence of a seed, of which so many numbers were taken. The seed itself stands before the first.
#[derive(Clone, Copy)]
pub struct Numbers {
    pub seed: u64,
    pub taken: u64,
    last: u64,
    ghost stands: { last ≡ number seed taken },
}

impl Numbers {
    /// The sequence of a seed, of which nothing was taken.
    #[tactic(auto, unfolding(crate::specs::Numbers::number))]
    pub fn new(seed: u64) -> Numbers
        ensures seed { result.seed ≡ seed }
        ensures taken { result.taken ≡ 0 }
    {
        Numbers {
            seed,
            taken: 0,
            last: seed,
        }
    }

    /// The number that was taken last, or the seed where none was.
    pub fn last(&self) -> u64
        ensures { result ≡ number self.now.seed self.now.taken }
    {
        self.last
    }

    /// Takes the next number, as a draw out of `m` numbers.
    pub fn draw(&mut self, m: u64) -> u64
        requires some { 0 < m }
        requires room { self.old.taken < 2 ^ 63 }
        ensures seed { self.new.seed ≡ self.old.seed }
        ensures taken { self.new.taken ≡ self.old.taken + 1 }
        ensures drawn { result ≡ draw self.old.seed (self.old.taken + 1) m }
        ensures below { result < m }
    {
        let numbers = Numbers {
            seed: self.seed,
            taken: self.taken + 1,
            last: behind(self.last),
        };
        let drawn = numbers.latest(m);
        *self = numbers;
        drawn
    }

    /// The draw out of `m` numbers by what was taken last.
    #[tactic(auto, unfolding(crate::specs::Numbers::draw))]
    pub fn latest(&self, m: u64) -> u64
        requires some { 0 < m }
        ensures drawn { result ≡ draw self.now.seed self.now.taken m }
        ensures below { result < m }
    {
        (self.last >> 32) % m
    }

    /// Takes the next number, as a draw from `-most` to `most`, which is at most 2^29.
    pub fn around(&mut self, most: u32) -> i32
        requires some { most ≤ 2 ^ 29 }
        requires room { self.old.taken < 2 ^ 63 }
        ensures seed { self.new.seed ≡ self.old.seed }
        ensures taken { self.new.taken ≡ self.old.taken + 1 }
        ensures drawn { result ≡ around self.old.seed (self.old.taken + 1) most }
        ensures low { (pos 0 -ℤ pos most) ≤ℤ result }
        ensures high { result ≤ℤ pos most }
    {
        let n = self.draw(2 * u64::from(most) + 1);
        n as i32 - most as i32
    }
}

// The number that follows on another.
#[tactic(auto, unfolding(crate::specs::Numbers::next_number))]
fn behind(n: u64) -> u64
    ensures { result ≡ next_number n }
{
    n.wrapping_mul(FACTOR).wrapping_add(SUMMAND)
}
