// What comes back where nothing is refused: the first codes of document 01's table. (The others are refusals: refusal.rt.)

// waiting, all bytes consumed
pub const WAITING: u8 = 0;
// done; a reply, packet or value
pub const DONE: u8 = 1;
// finished, no reply due
pub const NO_REPLY_DUE: u8 = 2;
