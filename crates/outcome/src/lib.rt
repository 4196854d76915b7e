// Refusals and their numbers, as the definitions in specs/ and the C header have them. An answer of 0 is none.
#![tactic(auto)]

pub mod refusal;

ghost use Rattle.std.specs.Prelude.{◌≡◌};
ghost use Rattle.outcome.specs.Answer.{number_of};
ghost use Rattle.outcome.specs.Result.{number_in, length_in};

pub use refusal::Refusal;

impl Refusal {
    // The number of the table "Returned".
    pub fn number(self) -> u8
        ensures { result ≡ number_of self }
    {
        self as u8
    }
}

// What C gets: the refusal's number, or 0.
pub fn number_in(answer: Result<(), Refusal>) -> u8
    ensures { result ≡ number_in answer }
{
    match answer {
        Ok(()) => 0,
        Err(refusal) => refusal.number(),
    }
}

// The same of an answer with a length: C's variable holds it, unless a refusal leaves what it held.
pub fn store_length(answer: Result<usize, Refusal>, length: &mut usize) -> u8
    ensures number { result ≡ number_in answer }
    ensures length { length.new ≡ length_in length.old answer }
{
    match answer {
        Ok(n) => {
            *length = n;
            0
        }
        Err(refusal) => refusal.number(),
    }
}
