//! Calls, their answers, and the changes that they make.
#![tactic(auto)]

mod call;
mod change;
mod check;
mod effects;
mod followed;
mod in_order;
mod laws;
mod made;
mod owned;
mod placed;
mod seat;
mod sound;
mod weaving;
mod woven;

pub use call::{Answer, Call, Reply};
pub use change::{Act, Change, Changes};
pub use check::check_legal;
pub use effects::{apply, replay};
pub use laws::{
    a_caller_is_settled_after_each_answer, a_settled_caller_is_legal,
    legal_answers_are_those_of_one_thread, legal_callers_are_one_history,
};
pub use sound::are_sound;
pub use weaving::weave;
pub use woven::{Entry, WeaveStop, Woven};
