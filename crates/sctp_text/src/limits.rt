//! The separators of lines and words, and the maximum lengths of a line and of a text.

/// The byte that ends a line.
pub const LINE_FEED: u8 = 10;
/// The byte between two words.
pub const SPACE: u8 = 32;
/// Maximum length of a line in bytes, without its line feed.
pub const LONGEST_LINE: usize = 140_000;
/// Maximum length of a text in bytes: 2^40.
pub const LONGEST_TEXT: u64 = 1_099_511_627_776;
