// Laws of histories, each the contract of a function that does nothing.
ghost use Rattle.change_log.specs.Laws.{IsSettledFirst, StaysSettled, IsSettledByARead, IsSettledByAWrite, SettledIsLegal, CutIsLegal, EachIsLegal, EachOfSomeIsLegal};
ghost use Rattle.change_log.specs.OneThread.{AsOneThread};

/// Legal answers are those that a map of one thread gives, asked the calls in the woven order.
pub fn legal_answers_are_those_of_one_thread()
    ensures { AsOneThread }
{}

/// A caller that did nothing yet is settled. It stays so while others make changes, and is so again with each of its answers.
pub fn a_caller_is_settled_after_each_answer()
    ensures first { IsSettledFirst }
    ensures others { StaysSettled }
    ensures read { IsSettledByARead }
    ensures write { IsSettledByAWrite }
{}

/// A settled caller's answers are legal, also where its next call was cut off after some of its changes.
pub fn a_settled_caller_is_legal()
    ensures whole { SettledIsLegal }
    ensures cut { CutIsLegal }
{}

/// Where each caller's answers are legal, all of them are one legal history.
pub fn legal_callers_are_one_history()
    ensures each { EachIsLegal }
    ensures some { EachOfSomeIsLegal }
{}
