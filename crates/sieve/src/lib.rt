// A sieve for version words. To most of them no row of a rule table applies; the sieve tells so without a look at the rows, and takes far less
// room than a copy of them. A row can apply to a word only where its wanted number has the word's bits, among those that all rows look at.
#![tactic(auto)]

ghost use Rattle.std.specs.Prelude.{◌≡◌, ◌<◌};
ghost use Rattle.sieve.specs.Sieve.{shared_mask, slot_of, slots_of, is_free, Sifts};

// Numbers under the mask are spread over so many slots, by the highest bits of a product with 2^32 over the golden ratio.
pub const SLOTS: usize = 64;

const SPREAD: u64 = 2654435769;

// A mask, and which slots are free under it. That of a table has the bits that all its rows look at.
#[derive(Drop)]
pub struct Sieve {
    pub mask: u32,
    pub slots: [bool; SLOTS],
}

impl Sieve {
    // The sieve of a table.
    pub fn of(rules: &[u32]) -> Sieve
        ensures { Sifts rules.now result }
    {
        let mask = shared_mask(rules);
        Sieve {
            mask,
            slots: slots_of(rules, mask),
        }
    }

    // Whether a word's slot is free. In the sieve of a table no row applies to it then.
    pub fn is_free(&self, word: u32) -> bool
        ensures { result ≡ is_free self.now word }
    {
        self.slots[slot_of(word, self.mask)]
    }
}

// The bits that all rows look at.
pub fn shared_mask(rules: &[u32]) -> u32
    ensures { result ≡ shared_mask rules.now }
{
    rules::rows_of(rules)
        .iter()
        .fold(u32::MAX, |shared, [mask, _, _]| shared & mask)
}

// The slot of a number, by its bits under a mask.
fn slot_of(number: u32, mask: u32) -> usize
    ensures { (result ≡ slot_of mask number) × (result < 64) }
{
    let shared = (number & mask) as u64;
    (shared * SPREAD / 67108864 % 64) as usize
}

// Which slots are free under a mask: those that no row's wanted number has.
pub fn slots_of(rules: &[u32], mask: u32) -> [bool; SLOTS]
    ensures { result ≡ slots_of mask rules.now }
{
    let mut slots = [true; SLOTS];
    for [_, wanted, _] in rules::rows_of(rules) {
        slots[slot_of(*wanted, mask)] = false;
    }
    slots
}
