/// The number of the word count.
pub const COUNT: u8 = 1;

/// The number of the word valid.
pub const VALID: u8 = 9;

/// The numbers of the nine words of the body, in the order in which they are stored and loaded.
pub const BODY: [u8; 9] = [2, 3, 4, 5, 6, 7, 8, 10, 11];
