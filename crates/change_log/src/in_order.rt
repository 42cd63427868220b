// Whether each caller's answers follow one another.
ghost use Rattle.std.specs.Prelude.{◌≡◌, ◌≤◌, All, AllPairs, Decides};

use crate::call::Answer;

// Each of the caller's later calls began after this one was answered.
fn precedes_own(first: &Answer, later: &[Answer]) -> bool
    ensures { Decides result (All (λ b. first.entry.now.who ≡ b.who → first.entry.now.ended ≤ b.begun) later.now) }
{
    later
        .iter()
        .all(|b| b.who != first.who || first.ended <= b.begun)
}

pub(crate) fn are_in_order(answers: &[Answer]) -> bool
    ensures { Decides result (AllPairs (λ a b. a.who ≡ b.who → a.ended ≤ b.begun) answers.now) }
{
    for (i, answer) in answers.iter().enumerate() {
        if !precedes_own(answer, &answers[i + 1..]) {
            return false;
        }
    }
    true
}
