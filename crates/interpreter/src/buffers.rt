// How long the buffers of a line are: one for the bytes that it lists, one for a reply, one for the replies of a block.

// The longest line, so the most bytes that a line lists.
pub const LONGEST: usize = 4096;

// The longest reply buffer that a line may ask for. Such a `room` stays a number, with this bound in the contracts that take it: it is
// read and used once, so a type for it would only be made and taken apart.
pub(crate) const MOST_LENT: u32 = 1024;

// The longest reply area that a block may ask for.
pub(crate) const MOST_AREA: u32 = 8192;

// The most bytes that are kept for a long call.
pub const MOST_KEPT: usize = 32768;
