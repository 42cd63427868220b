// What a step came to.
use opener::Stop;

/// What the step of an opener came to.
#[derive(Clone, Copy, Debug, PartialEq, Eq)]
pub enum Moved {
    /// No opener of that number lives.
    NoOpener,
    /// No call of it runs.
    Idle,
    /// Its call goes on.
    Going,
    /// This opener holds a lock that stands against the call. The step is to be made again.
    Blocked(u32),
    /// The call is over. Its answer has this place among the answers, from 0.
    Answered(usize),
    /// The call is over, without an answer.
    Stopped(Stop),
}
