// What a call or a query answers: done, done with a figure, or refused.
#![tactic(auto, unfolding(crate::specs::Answers::of_call, crate::specs::Answers::of_query))]

ghost use Rattle.std.specs.Prelude.{◌≡◌};
ghost use Rattle.records.specs.Answers.{of_call, of_query};

use crate::refusal::Refusal;

// The answers of both: a query's has a figure.
pub type Answer = Result<Option<u64>, Refusal>;

// A call's answer has no figure.
pub fn of_call(called: Result<(), Refusal>) -> Answer
    ensures { result ≡ of_call called }
{
    called.map(|()| None)
}

// A query's answer has its figure.
pub fn of_query(queried: Result<u64, Refusal>) -> Answer
    ensures { result ≡ of_query queried }
{
    queried.map(Some)
}
