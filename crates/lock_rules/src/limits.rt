// The limits of openers, holds and counts. Code, clauses and definitions name them from here.

/// The greatest number of an opener. The first has the number 1.
pub const MOST_OPENERS: u32 = 64;

/// The most holds that an opener's calls may have at once.
pub const MOST_HOLDS: u32 = 1_000;

/// The most holds of one kind that are counted at once.
pub const DEEPEST_COUNT: u32 = 1_024;
