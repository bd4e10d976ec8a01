// Refusals: the codes of document 01 from 10 on, in its table's order.
ghost use Rattle.std.specs.Prelude.{◌≡◌};
ghost use Rattle.wire.specs.Refusal.{refusal_code, code_of};

use crate::codes;

// Why something is not done. `refusal as u8` is its code.
#[derive(Clone, Copy, Debug, PartialEq, Eq)]
pub enum Refusal {
    // bad header
    BadHeader = 11,
    // types 0 to 2, length over 64
    TooLong = 10,
    // item not in the list
    NotListed = 12,
    // item known, this kind not offered
    NotOffered = 14,
    // wrong length for item and kind
    WrongLength = 13,
    // channel byte not allowed
    ChannelNotAllowed = 15,
    // value not allowed
    ValueNotAllowed = 16,
    // not while running
    NotWhileRunning = 17,
    // lent buffer shorter than what this call would write
    NoRoom = 20,
    // broken box or reader state
    Broken = 21,
    // cut asked while idle
    WhileIdle = 22,
    // wrong count of samples
    WrongCount = 23,
    // sample outside 24 bits
    NotASample = 24,
    // capture holds 4,000,000,000 packets
    CaptureFull = 25,
    // serial not eight of A-Z, 0-9
    NotASerial = 26,
    // bytes are not a reply to this wish
    NotAReply = 28,
    // not a packet
    NotAPacket = 30,
    // no packet numbered 0 yet
    NoFirstPacket = 31,
    // packet form changed within a capture
    FormChanged = 32,
    // position past 3,999,999,999
    PastLast = 33,
    // not a capture head
    NotAHead = 40,
    // head of a version other than 1 and 2 (02, No. 9)
    OtherVersion = 41,
    // going back to version 1 would lose the serial or the clock (02, No. 9)
    WouldLose = 42,
}

impl From<Refusal> for u8 {
    ghost from_gives = { λ r n. n ≡ refusal_code r };

    fn from(r: Refusal) -> u8 {
        r as u8
    }
}

// The code of what was done or refused.
pub fn code_of<T: Copy>(answer: Result<T, Refusal>) -> u8
    ensures { result ≡ code_of answer }
{
    match answer {
        Ok(_) => codes::DONE,
        Err(r) => u8::from(r),
    }
}
