// Laws of an opener's answers, each the contract of a function that does nothing.
ghost use Rattle.opener.specs.Quick.{KeptValuesAnswer};
ghost use Rattle.opener.specs.Settles.{IsSettledFirst, StaysSettled, IsLegalSoFar};

/// A caller that made nothing yet is settled, it stays so while others go on, and its answers are legal.
pub fn an_opener_that_is_settled_is_legal()
    ensures first { IsSettledFirst }
    ensures others { StaysSettled }
    ensures legal { IsLegalSoFar }
{}

/// Where a look found the words of the image that is kept, a value of that image is the answer of a quick read.
pub fn kept_values_answer_after_a_look()
    ensures { KeptValuesAnswer }
{}
