// Laws of the definitions, each the contract of a function that does nothing.
ghost use Rattle.meta_record.specs.Laws.{ReadsBack, FreshIsWhole};

/// A word that was stored is read back, and every other word stands.
pub fn a_stored_word_is_read()
    ensures { ReadsBack }
{}

/// A store in which nothing was ever written shows the empty image.
pub fn a_fresh_store_shows_nothing()
    ensures { FreshIsWhole }
{}
