// What a script may have.

/// The greatest number of lines.
pub const LARGEST_COUNT: usize = 1_048_576;

/// The greatest length of a line without its line feed, in bytes.
pub const LARGEST_LINE: usize = 65_536;
