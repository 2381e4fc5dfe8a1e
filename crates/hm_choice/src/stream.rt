//! One stream of random words. Its key is the seed, and its number tells it from the other streams of that seed;
//! words are taken in order, and nothing is ever reseeded.
ghost use Rattle.std.specs.Prelude.{◌≡◌, ◌^◌, ◌<◌, ◌≤◌};
ghost use Rattle.hm_choice.specs.Stream.{start_of, next_word, after_word, before_word, drawn, canary_of};

use rand_chacha::ChaCha8Rng;
use rand_core::SeedableRng;
use rand_core::utils::NextWord;
use std::marker::Model;

// The last position of a stream.
const LAST_POSITION: u128 = (1 << 68) - 1;

/// A stream of 32-bit words. It repeats after 2^68 words.
#[derive(Drop)]
pub struct Stream {
    words: ChaCha8Rng,
}

impl Model for Stream {
    ghost use Rattle.hm_choice.specs.Stream.{Words};

    ghost Value = { Words };

    ghost view = { λ s. record { key = s.words.key; number = s.words.stream; place = s.words.word_pos } };
}

impl Stream {
    /// The stream of this number, of this seed.
    pub fn start(seed: u64, number: u64) -> Stream
        ensures { result ≡ start_of seed number }
    {
        let mut key = [0; 32];
        key[..8].copy_from_slice(&seed.to_le_bytes());
        let mut words = ChaCha8Rng::from_seed(key);
        words.set_stream(number);
        Stream { words }
    }

    /// Takes the next word.
    pub fn word(&mut self) -> u32
        ensures word { result ≡ next_word self.old }
        ensures taken { self.new ≡ after_word self.old }
    {
        self.words.next_word()
    }

    /// Takes one word, and gives it with the number below `n` that it draws. No word is rejected.
    pub fn draw(&mut self, n: u32) -> (u32, u32)
        requires { 1 ≤ n }
        ensures drawn { result ≡ (next_word self.old, drawn n (next_word self.old)) }
        ensures below { result.1 < n }
        ensures taken { self.new ≡ after_word self.old }
    {
        let word = self.word();
        let drawn = (u64::from(word) * u64::from(n)) >> 32;
        (word, drawn as u32)
    }

    /// Takes two words, and gives them with the canary that they make, whose lowest byte is 0.
    pub fn canary(&mut self) -> (u32, u32, u64)
        ensures canary { let low = next_word self.old in
            let high = next_word (after_word self.old) in
            result ≡ (low, high, canary_of low high) }
        ensures taken { self.new ≡ after_word (after_word self.old) }
    {
        let low = self.word();
        let high = self.word();
        let both = (u64::from(high) << 32) | u64::from(low);
        (low, high, both >> 8 << 8)
    }

    /// How many words are taken, modulo 2^68.
    pub fn place(&self) -> u128
        ensures place { result ≡ self.now.place }
        ensures bound { result < 2 ^ 68 }
    {
        self.words.get_word_pos()
    }

    /// Gives the last word back, so that it comes again.
    pub fn back(&mut self)
        ensures { self.new ≡ before_word self.old }
    {
        let position = self.words.get_word_pos();
        self.words.set_word_pos(position + LAST_POSITION);
    }
}
