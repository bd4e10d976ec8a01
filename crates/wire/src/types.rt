// The types of messages, which stand in the header's top three bits. Numbers and no enum: `type_in` and `framing::total_of` promise
// for all eight, and from the box two of them mean something else than from the host.

// from the host
pub const SET: u8 = 0;

pub const REQUEST: u8 = 1;

pub const RANGE: u8 = 2;

pub const ACKNOWLEDGEMENT: u8 = 3;

// from the box
pub const REPLY: u8 = 0;

pub const RANGE_REPLY: u8 = 2;

// data item 0, from either
pub const DATA: u8 = 4;
