/// It is done.
pub const DONE: i32 = 0;

/// A number of a struct or a parameter stands for nothing.
pub const BAD_DATA: i32 = -1;

/// The address isn't in the protected space, or an L0 block covers it.
pub const BAD_ADDRESS: i32 = -2;

/// The word isn't a descriptor, or not one of the kind that is needed.
pub const BAD_WORD: i32 = -3;
