// Laws of the definitions, each the contract of a function that does nothing.
ghost use Rattle.crc_words.specs.Laws.{GoesOn};

/// A checksum that goes on from that of a front is that of the whole.
pub fn a_checksum_goes_on()
    ensures { GoesOn }
{}
