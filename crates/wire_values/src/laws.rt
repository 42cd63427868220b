// Laws of the spellings, each the contract of a function that does nothing.
ghost use Rattle.wire_values.specs.Laws.{ReadsBack, SpellsOne, IsShortest, WordReadsBack, WordSpellsOne};

/// The bytes that a value is written as spell it: what `encode` writes, `decode` reads.
pub fn a_value_is_read_back()
    ensures { ReadsBack }
{}

/// Bytes spell one value of a kind: what `decode` reads is the value that was written.
pub fn bytes_spell_one_value()
    ensures { SpellsOne }
{}

/// No spelling of a value is shorter than that which `encode` writes.
pub fn no_spelling_is_shorter()
    ensures { IsShortest }
{}

/// The word that a value is written as spells it: what `value_text` writes, `read_word` reads.
pub fn a_written_word_is_read_back()
    ensures { WordReadsBack }
{}

/// A word spells one value of a kind: what `read_word` reads is the value that was written.
pub fn a_word_spells_one_value()
    ensures { WordSpellsOne }
{}
