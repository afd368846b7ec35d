// A receiver's rules, with the flags of the last word that was looked up: most records that follow each other have the same word.
ghost use Rattle.std.specs.Prelude.{◌*◌, ◌≤◌};
ghost use Rattle.rules.specs.Columns.{rules_in};
ghost use Rattle.header_judge.specs.Steps.{Known};

use crate::front::Front;
use header_judge::version::{NO_WORD, word_of};
use rules::columns::NUMBERS;

// The rules are the rows of some blocks of a table's columns.
#[derive(Clone, Copy)]
pub struct Lookup<'a> {
    pub rules: &'a [u32; NUMBERS],
    pub blocks: usize,
    pub word: u32,
    pub flags: u32,
    pub ghost eight_blocks: { blocks ≤ 8 },
    pub ghost flags_known: { Known (rules_in rules.now (blocks * 8)) word flags },
}

impl<'a> Lookup<'a> {
    ghost use Rattle.std.specs.Prelude.{◌≡◌};
    ghost use Rattle.header_judge.specs.Version.{word_of};
    ghost use Rattle.header_judge.specs.Head.{head_of};
    ghost use Rattle.receiver.specs.Fronts.{head_in};
    ghost use Rattle.receiver.specs.Lookups.{rules_of, SameRules};

    // One that has looked up no word.
    pub fn new(rules: &'a [u32; NUMBERS], blocks: usize) -> Lookup<'a>
        requires { blocks ≤ 8 }
        ensures { (result.rules.now ≡ rules.now) × (result.blocks ≡ blocks) }
    {
        Lookup {
            rules,
            blocks,
            word: NO_WORD,
            flags: 0,
        }
    }

    // The flags of a word. With no rules they wait for no byte of it.
    #[tactic(auto, unfolding(rules::specs::Rules::flags_of, rules::specs::Rules::with_rules, rules::specs::Rules::rules_of, rules::specs::Columns::rules_from))]
    pub fn flags_of(&self, word: u32) -> u32
        ensures { Known (rules_of self.now) word result }
    {
        if self.blocks == 0 {
            return 0;
        }
        if word == self.word {
            return self.flags;
        }
        rules::columns::flags_in(self.rules, self.blocks, word)
    }

    // Reads the header that some bytes start with.
    #[tactic(auto, using(header_judge::proofs::Heads::head_known))]
    pub fn read<'b>(&mut self, bytes: &'b [u8]) -> Front<'b>
        ensures { (head_in result ≡ head_of (rules_of self.old) bytes.now) × SameRules self.new self.old × (self.new.word ≡ word_of bytes.now) }
    {
        let word = word_of(bytes);
        let flags = self.flags_of(word);
        self.word = word;
        self.flags = flags;
        Front {
            bytes,
            word,
            flags,
            size: header_judge::size_of(bytes, word, flags),
        }
    }
}
