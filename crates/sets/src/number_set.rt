// A set of numbers below 64 times its words.
ghost use Rattle.std.specs.Prelude.{◌≡◌, ℕ, ◌*◌, ◌≤◌, false, length};
ghost use Rattle.sets.specs.Sets.{holds, after_put, count, numbers};

/// Number i is a member where bit i % 64 of word i / 64 is set.
#[derive(Clone, Copy, Debug)]
pub struct NumberSet<const WORDS: usize> {
    words: [u64; WORDS],
}

impl<const WORDS: usize> NumberSet<WORDS> {
    /// No number is a member.
    pub fn new() -> NumberSet<WORDS>
        ensures { (i : ℕ) → holds result.words i ≡ false }
    {
        NumberSet { words: [0; WORDS] }
    }

    /// Whether a number is a member; past the last word none is.
    pub fn contains(&self, number: u16) -> bool
        ensures { result ≡ holds self.now.words number }
    {
        let word = self.words.get(usize::from(number / 64)).copied();
        (word.unwrap_or(0) >> (number % 64)) % 2 == 1
    }

    /// Makes a number a member, or not; a number past the last word changes nothing.
    pub fn put(&mut self, number: u16, member: bool)
        ensures { (i : ℕ) → holds self.new.words i ≡ after_put WORDS number member (holds self.old.words) i }
    {
        let word = usize::from(number / 64);
        // By its place: after a write through `get_mut` a proof knows no word.
        if word < WORDS {
            let bit = 1 << (number % 64);
            if member {
                self.words[word] |= bit;
            } else {
                self.words[word] &= !bit;
            }
        }
    }

    /// How many members there are, of the numbers that 16 bits can say.
    pub fn len(&self) -> u32
        ensures { result ≡ count (holds self.now.words) (numbers WORDS) }
    {
        ones(&self.words[..WORDS.min(1024)])
    }
}

// The ones of each word, added up.
fn ones(words: &[u64]) -> u32
    requires { length words.now ≤ 1024 }
    ensures { result ≡ count (holds words.now) (length words.now * 64) }
{
    words.iter().map(|word| word.count_ones()).sum()
}
