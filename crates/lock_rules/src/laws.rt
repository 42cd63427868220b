// Laws of the definitions, each the contract of a function that does nothing.
ghost use Rattle.lock_rules.specs.Moves.{CountsTellTheLock};

/// An opener that does on the table what its counts ask for holds exclusive exactly where its exclusive count is
/// positive, and shared exactly where only its shared count is. Between the two events of an upgrade or of a way back
/// it holds nothing.
pub fn an_opener_holds_what_it_counts()
    ensures { CountsTellTheLock }
{}
