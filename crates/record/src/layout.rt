// The numbers of a record's layout, for reader and writer.

pub(crate) const MARK: u8 = 0x47;

pub(crate) const SECOND_MARK: u8 = 0x52;

pub(crate) const VERSION: u8 = 1;

// how many pairs of offset and length
pub(crate) const PAIRS: u8 = 3;

// the text begins after the head and the pairs
pub(crate) const TEXT: usize = 36;

// the bytes of both lefts
pub(crate) const LEFTS: usize = 8;

// the shortest record: head, pairs and lefts
pub(crate) const SHORTEST: usize = 44;
