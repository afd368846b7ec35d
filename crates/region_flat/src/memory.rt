// The version words that the flat walk remembers, with their flags.
ghost use Rattle.std.specs.Prelude.{◌≡◌};
ghost use Rattle.header_judge.specs.Version.{no_word};
ghost use Rattle.sieve.specs.Sieve.{Sifts};
ghost use Rattle.region_flat.specs.Steps.{Remembers, without_flags};

use header_judge::version::NO_WORD;
use sieve::Sieve;

// The last version word, and the last that was looked up in the rule table: the word of a Box comes back after those that stand inside it.
#[derive(Clone, Copy)]
pub struct Memory {
    pub word: u32,
    pub flags: u32,
    pub looked_word: u32,
    pub looked_flags: u32,
}

impl Memory {
    // Before the first word.
    pub fn none() -> Memory
        ensures { (result.word ≡ no_word) × (result.looked_word ≡ no_word) }
    {
        Memory {
            word: NO_WORD,
            flags: 0,
            looked_word: NO_WORD,
            looked_flags: 0,
        }
    }

    // With a word that has no flags.
    fn without_flags(self, word: u32) -> Memory
        ensures { result ≡ without_flags self word }
    {
        Memory {
            word,
            flags: 0,
            ..self
        }
    }

    // With the next word. Without rules it waits for no byte of it.
    pub fn recall(self, rules: &[u32], sieve: &Sieve, word: u32) -> Memory
        requires { Sifts rules.now sieve.now × Remembers rules.now self }
        ensures { Remembers rules.now result × (result.word ≡ word) }
    {
        if rules.is_empty() {
            return self.without_flags(word);
        }
        if word == self.word {
            return self;
        }
        if sieve.is_free(word) {
            return self.without_flags(word);
        }
        let flags = if word == self.looked_word {
            self.looked_flags
        } else {
            rules::flags(rules, word)
        };
        Memory {
            word,
            flags,
            looked_word: word,
            looked_flags: flags,
        }
    }
}
