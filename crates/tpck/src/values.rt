// The numbers of the frame that the receiver and the writer share, named as in specs/Frame.antt.

// The start of a frame.
pub(crate) const SOF: u8 = 0xCA;
// The end of a frame.
pub(crate) const EOF: u8 = 0x35;
// The escape: the byte after it is data, of any value.
pub(crate) const ESC: u8 = 0x2F;
// The places of a body: Length, Type, the most data, and Checksum.
pub const PLACES: usize = 258;
