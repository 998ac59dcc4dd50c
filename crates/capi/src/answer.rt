// What a call answers to C.
ghost use Rattle.std.specs.Prelude.{◌≡◌, MatchResult};
ghost use Rattle.pool.specs.Refusals.{number_of};
ghost use Rattle.capi.specs.Answers.{accepted_with, refused_with};

use pool::Refusal;

// C has no Result: number is 0 where the input was accepted, and first and second are what the call gives back; else number is the refusal's, and at its spot.
#[repr(C)]
#[derive(Clone, Copy, Debug, PartialEq, Eq)]
pub struct Answer {
    pub number: u64,
    pub at: u64,
    pub first: u64,
    pub second: u64,
}

impl Answer {
    pub(crate) fn accepted(first: u64, second: u64) -> Answer
        ensures { result ≡ accepted_with first second }
    {
        Answer {
            number: 0,
            at: 0,
            first,
            second,
        }
    }
}

impl From<Refusal> for Answer {
    ghost from_gives = { λ refusal answer. answer ≡ refused_with (number_of refusal.cause) refusal.at };

    fn from(refusal: Refusal) -> Answer {
        let number = refusal.cause.number();
        Answer {
            number: u64::from(number),
            at: refusal.at as u64,
            first: 0,
            second: 0,
        }
    }
}

// A call that gives back two numbers answers with them, and one that refuses with its refusal.
impl From<Result<(u64, u64), Refusal>> for Answer {
    ghost from_gives = { λ ended answer. MatchResult ended (λ numbers. answer ≡ accepted_with numbers.0 numbers.1) (λ refusal. answer ≡ refused_with (number_of refusal.cause) refusal.at) };

    fn from(ended: Result<(u64, u64), Refusal>) -> Answer {
        match ended {
            Ok((first, second)) => Answer::accepted(first, second),
            Err(refusal) => refusal.into(),
        }
    }
}
