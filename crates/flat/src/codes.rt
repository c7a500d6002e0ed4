use ads1299_serial::Direction;

// The codes of the C header. A flag is off or on.
pub const ON: u8 = 1;

pub(crate) const EMPTY: u8 = 0;

pub(crate) const AT_PLACE: u8 = 1;

pub(crate) const WAITING: u8 = 0;

pub(crate) const HELD: u8 = 1;

pub(crate) const COUNTING: u8 = 2;

pub(crate) const WRITE: u8 = Direction::Write as u8;
