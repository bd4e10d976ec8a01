// The session program: standard input is fed to a fresh box with serial MT123456, and its raw replies go to standard
// output. It stands behind a TCP relay, so every reply is written before the program waits for more input.
#![tactic(auto)]

ghost use Rattle.std.specs.Prelude.{◌≡◌, true, IfOk};
ghost use Rattle.station.specs.Station.{valid, box_of};
ghost use Rattle.station.specs.Feeding.{feeding_of};
ghost use Rattle.reads.specs.Got.{Whole};
ghost use Rattle.session.specs.Session.{HandedOver, ReadSoFar, fed_with};

use framing::Store;
use reads::{Early, Ended, Piece, Taker};
use station::{Fed, Parts, Station};
use std::io;
use streams::Streams;

// Writes the reply of a box to some bytes of the host, in one write. Box and bytes are there for the contract alone, which says
// whose reply it is.
fn write_reply(io: &mut Streams, s: Station, host: &[u8], reply: &[u8]) -> io::Result<()>
    requires { reply.now ≡ (feeding_of s host.now 64).bytes }
{
    io.write_all(reply)
}

// A box of its parts and the bytes that it holds.
fn box_of(parts: Parts, held: [u8; 64]) -> Station
    ensures { result ≡ box_of parts.settings held parts.taken }
{
    Station {
        settings: parts.settings,
        store: Store {
            held,
            taken: parts.taken,
        },
    }
}

// One call of feeding on what is left of a piece, and its reply. Where the reply could not be written there is no box to go on with.
// The bytes held are lent, and changed where they lie: a box that comes and goes by value is copied for each message.
fn feed_once(
    io: &mut Streams,
    parts: Parts,
    held: &mut [u8; 64],
    host: &[u8],
) -> io::Result<Fed<Parts>>
    requires { valid (box_of parts.settings held.old parts.taken) ≡ true }
    ensures { IfOk result (λ fed. fed_with fed held.new ≡ (feeding_of (box_of parts.settings held.old parts.taken) host.now 64).fed) }
{
    // for the contract of the write alone
    let before = box_of(parts, *held);
    let mut reply = [0u8; 64];
    // any reply of a valid box has room
    let fed = station::feed_held(parts, held, host, &mut reply).unwrap();
    write_reply(io, before, host, &reply[..fed.wrote])?;
    Ok(fed)
}

// Hands a piece over by calling again until its bytes are used up, or a reply cannot be written. (span's hand_over has the same loop: one
// function for both would take a trait with the invariant in it, and two impls, which is no plainer than the few lines.)
fn feed_piece(io: &mut Streams, s: Station, piece: Piece<'_>) -> io::Result<Station>
    requires { ReadSoFar s piece.read }
    ensures { IfOk result (HandedOver s piece.entry.bytes.now) }
{
    let mut held = s.store.held;
    let mut parts = s.parts();
    let mut rest = piece.bytes;
    while !rest.is_empty() {
        let fed = feed_once(io, parts, &mut held, rest)?;
        parts = fed.left;
        rest = &rest[fed.consumed..];
    }
    Ok(box_of(parts, held))
}

// The box, as the pieces so far have left it.
#[derive(Drop)]
struct Serving {
    station: Station,
}

impl Taker for Serving {
    ghost so_far = { λ s read. ReadSoFar s.station read };

    // a box never has enough
    ghost stopped = { λ _. ⊥ };

    fn take(&mut self, io: &mut Streams, piece: Piece<'_>) -> io::Result<bool> {
        self.station = feed_piece(io, self.station, piece)?;
        Ok(true)
    }
}

// Nothing is left to do. It is there for the contract alone: the box was fed all that was read, and a read that failed is not
// the end of the input.
fn served(s: Station, ended: Ended)
    requires { ReadSoFar s ended.read × Whole ended.got }
{}

// Says once, and after all else, what could not be done.
fn main(rt: HostRuntime) {
    let mut io = Streams::new(rt.stdin(), rt.stdout(), rt.stderr());
    let mut buf = [0u8; 65536];
    let mut serving = Serving {
        station: station::session_box(),
    };
    match reads::take_all(&mut io, &mut serving, 0, &mut buf) {
        Ok(ended) => served(serving.station, ended),
        Err(Early::Unwritten(e)) => io.fail(b"session: a reply could not be written", e),
        Err(Early::Unread(_, e)) => io.fail(b"session: the input could not be read to its end", e),
    }
}
