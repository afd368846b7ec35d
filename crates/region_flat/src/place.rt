// A level of the flat walk's place.
ghost use Rattle.std.specs.Prelude.{◌≡◌, ◌+◌, ◌<◌, ◌^◌};
ghost use Rattle.region_flat.specs.Steps.{past, inside};

// The position that is next in it, where it ends, and the row of the Box that it stands in. Numbers of 32 bits keep the stack small.
#[derive(Clone, Copy)]
pub struct Level {
    pub at: u32,
    pub till: u32,
    pub parent: u32,
}

impl Level {
    // What is left of it past a record.
    pub fn past(self, declared: usize) -> Level
        requires { self.at + declared < 2 ^ 32 }
        ensures { result ≡ past self declared }
    {
        Level {
            at: self.at + declared as u32,
            ..self
        }
    }

    // The level inside a Box that is next in it, from the end of its header to the end of its held bytes.
    pub fn inside(self, held: usize, size: usize, row: u32) -> Level
        requires { (self.at + held < 2 ^ 32) × (self.at + size < 2 ^ 32) }
        ensures { result ≡ inside self held size row }
    {
        Level {
            at: self.at + size as u32,
            till: self.at + held as u32,
            parent: row,
        }
    }
}
