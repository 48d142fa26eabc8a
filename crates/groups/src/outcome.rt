// What a group comes to.
#![tactic(auto, unfolding(crate::specs::Outcome::of_one_line))]

ghost use Rattle.std.specs.Prelude.{◌≡◌};
ghost use Rattle.records.specs.Answers.{of_call, of_query};
ghost use Rattle.groups.specs.Outcome.{of_one_line};

use records::answers::{Answer, of_call, of_query};
use records::refusal::Refusal;

// What a group is answered, and how many bytes it takes of the script.
#[derive(Clone, Copy)]
pub struct GroupOutcome {
    pub answer: Answer,
    pub consumed: usize,
}

// A head that counts no lines takes none of what stands after it.
pub fn of_one_line(answer: Answer) -> GroupOutcome
    ensures { result ≡ of_one_line answer }
{
    GroupOutcome {
        answer,
        consumed: 0,
    }
}

// A call on one line.
pub fn of_call_line(called: Result<(), Refusal>) -> GroupOutcome
    ensures { result ≡ of_one_line (of_call called) }
{
    of_one_line(of_call(called))
}

// A query on one line.
pub fn of_query_line(queried: Result<u64, Refusal>) -> GroupOutcome
    ensures { result ≡ of_one_line (of_query queried) }
{
    of_one_line(of_query(queried))
}
