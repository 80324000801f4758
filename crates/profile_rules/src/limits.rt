/// The bytes of a profile's text at most.
pub const LONGEST_PROFILE: usize = 1_048_576;

/// The bytes of any text in a profile at most.
pub const LONGEST_TEXT: usize = 1024;

/// The layers of a profile at most: a layer's number fits a byte.
pub const MOST_LAYERS: usize = 64;

/// The rules of a profile at most.
pub const MOST_RULES: usize = 1024;

/// The conditions of a rule at most.
pub const MOST_CONDITIONS: usize = 16;

/// The attributes of a rule at most.
pub const MOST_ATTRIBUTES: usize = 64;

/// The buffer of a layer at most, and the one that it has by default, in units of a tile, which has 4096.
pub const WIDEST_BUFFER: u32 = 256;

pub const USUAL_BUFFER: u32 = 64;

/// The tolerance of a layer at most, and the one that it has by default, in units of a tile.
pub const WIDEST_TOLERANCE: u32 = 64;

pub const USUAL_TOLERANCE: u32 = 1;

/// Numbers of keys are below this one.
pub const KEY_NUMBERS: usize = 65_536;

/// By how much the number of a key grows at each byte.
pub const KEY_FACTOR: usize = 31;

/// The digits of a tag's value at most, for it to count as a whole number: so each has 64 bits.
pub const MOST_DIGITS: usize = 18;
