// Why a call is refused: document 01's numbers 2 to 13 and document 02's 14, by what each says; 10 is unused.
#![tactic(auto)]

ghost use Rattle.std.specs.Prelude.{◌≡◌};
ghost use Rattle.refusals.specs.Refusals.{number_of, answer_number};

#[derive(Clone, Copy)]
pub enum Refusal {
    Lengths,
    Values,
    Parts,
    Measures,
    Placing,
    Extent,
    View,
    Point,
    Restarts,
    Waiting,
    Room,
    Stripes,
}

impl Refusal {
    // The number in document 01 or 02.
    pub fn number(self) -> u32
        ensures { result ≡ number_of self }
    {
        match self {
            Refusal::Lengths => 2,
            Refusal::Values => 3,
            Refusal::Parts => 4,
            Refusal::Measures => 5,
            Refusal::Placing => 6,
            Refusal::Extent => 7,
            Refusal::View => 8,
            Refusal::Point => 9,
            Refusal::Restarts => 11,
            Refusal::Waiting => 12,
            Refusal::Room => 13,
            Refusal::Stripes => 14,
        }
    }
}

// The number of the refusal, or 0 where there is a value.
pub fn answer_number<T: Copy>(answer: Result<T, Refusal>) -> u32
    ensures { result ≡ answer_number answer }
{
    match answer {
        Ok(_) => 0,
        Err(refusal) => refusal.number(),
    }
}
