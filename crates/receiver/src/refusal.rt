// Why a call on a receiver is refused.
ghost use Rattle.std.specs.Prelude.{◌≡◌};
ghost use Rattle.receiver.specs.Refusals.{number_of};

#[derive(Clone, Copy, Debug, PartialEq, Eq)]
pub enum Refusal {
    BadRules,
    BadPiece,
    TooLong,
    NotReceiving,
}

// The number that the caller gets for a refusal.
impl From<Refusal> for u32 {
    ghost from_gives = { λ refusal number. number ≡ number_of refusal };

    fn from(refusal: Refusal) -> u32 {
        match refusal {
            Refusal::BadRules => answers::BAD_RULES,
            Refusal::BadPiece => answers::BAD_PIECE,
            Refusal::TooLong => answers::TOO_LONG,
            Refusal::NotReceiving => answers::NOT_RECEIVING,
        }
    }
}
