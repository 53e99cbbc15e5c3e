//! A set of the numbers 0 to 255, whose least missing one and next one are found in constant time.

ghost use Rattle.std.specs.Prelude.{◌≡◌, ◌≢◌, ℕ, ◌<◌, ◌≤◌, true, false};
ghost use Rattle.pf_fds.specs.Marks.{is_marked, IsCount};

/// Which of the numbers from 0 to 255 are marked.
#[derive(Clone, Copy, Debug)]
pub struct Marks {
    words: [u64; 4],
}

impl Marks {
    /// No number is marked.
    pub fn new() -> Self
        ensures { (n : ℕ) → n < 256 → is_marked result n ≡ false }
    {
        Marks { words: [0; 4] }
    }

    /// Marks a number.
    pub fn mark(&mut self, n: usize)
        requires { n < 256 }
        ensures marked { is_marked self.new n ≡ true }
        ensures others { (m : ℕ) → m < 256 → m ≢ n → is_marked self.new m ≡ is_marked self.old m }
    {
        self.words[n / 64] |= 1 << (n % 64);
    }

    /// Takes the mark from a number.
    pub fn unmark(&mut self, n: usize)
        requires { n < 256 }
        ensures unmarked { is_marked self.new n ≡ false }
        ensures others { (m : ℕ) → m < 256 → m ≢ n → is_marked self.new m ≡ is_marked self.old m }
    {
        self.words[n / 64] &= !(1 << (n % 64));
    }

    /// The least number that is not marked, or 256 if all are.
    pub fn lowest(&self) -> usize
        ensures within { result ≤ 256 }
        ensures unmarked { result < 256 → is_marked self.now result ≡ false }
        ensures below { (k : ℕ) → k < result → is_marked self.now k ≡ true }
    {
        'words: for w in 0..4 {
            let word = self.words[w];
            if word != u64::MAX {
                return 64 * w + word.trailing_ones() as usize;
            }
        }
        256
    }

    /// The least number from this one on that is marked, or 256 if none is.
    pub fn next(&self, from: usize) -> usize
        ensures within { result ≤ 256 }
        ensures above { result < 256 → from ≤ result }
        ensures marked { result < 256 → is_marked self.now result ≡ true }
        ensures between { (k : ℕ) → from ≤ k → k < result → is_marked self.now k ≡ false }
    {
        let mut first = from;
        while first < 256 {
            let rest = self.words[first / 64] >> (first % 64);
            if rest != 0 {
                return first + rest.trailing_zeros() as usize;
            }
            // On with the first number of the next word.
            first = 64 * (first / 64 + 1);
        }
        256
    }

    /// How many numbers are marked.
    pub fn count(&self) -> usize
        ensures { IsCount self.now result }
    {
        let [first, second, third, fourth] = self.words;
        let low = first.count_ones() + second.count_ones();
        let high = third.count_ones() + fourth.count_ones();
        (low + high) as usize
    }
}
