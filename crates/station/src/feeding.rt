// One call of feeding: the host's bytes up to the end of one message, and its reply.
ghost use Rattle.std.specs.Prelude.{◌≡◌, true, leb, length, is_err};
ghost use Rattle.std.proofs.lemmas.List.Edits.{sets};
ghost use Rattle.framing.specs.Framing.{between, could_be_left};
ghost use Rattle.answers.specs.Replies.{answer_of, answered_says};
ghost use Rattle.station.specs.Station.{box_of, valid};
ghost use Rattle.station.specs.Feeding.{feeding_of, parts_of, fed_says, held_says};
ghost use Rattle.station.specs.Inside.{opened_message};

use crate::{Fed, Parts, Station};
use answers::Answered;
use framing::Store;
use items::Settings;
use wire::Refusal;

// Takes the host's bytes up to the end of one message, and answers it. Of a valid box, with room for 64 bytes, calling
// again with the bytes that are left comes to the same replies and the same box however they are cut (proofs/Serving:
// `cuts_do_not_matter`). "Codes from 20 consume nothing and return the state given."
pub fn feed(s: Station, host: &[u8], reply: &mut [u8]) -> Result<Fed<Station>, Refusal>
    ensures { (fed_says s result ≡ (feeding_of s host.now (length reply.old)).fed)
        × (is_err result ≡ leb 20 (feeding_of s host.now (length reply.old)).fed.code)
        × (reply.new
        ≡ sets reply.old 0 (feeding_of s host.now (length reply.old)).bytes) }
{
    let mut held = s.store.held;
    let fed = feed_held(s.parts(), &mut held, host, reply)?;
    Ok(Fed {
        outcome: fed.outcome,
        consumed: fed.consumed,
        wrote: fed.wrote,
        left: Station {
            settings: fed.left.settings,
            store: Store {
                held,
                taken: fed.left.taken,
            },
        },
    })
}

// The same of a box whose held bytes are lent, and changed where they lie, with its other parts by value: so a call copies
// no box. Bytes held in another number of places than 64 are a broken box.
pub fn feed_held(
    parts: Parts,
    held: &mut [u8],
    host: &[u8],
    reply: &mut [u8],
) -> Result<Fed<Parts>, Refusal>
    ensures { (held_says parts result
        ≡ parts_of (feeding_of (box_of parts.settings held.old parts.taken) host.now (length reply.old)).fed)
        × (is_err result
        ≡ leb 20 (feeding_of (box_of parts.settings held.old parts.taken) host.now (length reply.old)).fed.code)
        × (held.new
        ≡ (feeding_of (box_of parts.settings held.old parts.taken) host.now (length reply.old)).fed.station.store.held)
        × (reply.new
        ≡ sets reply.old 0
        (feeding_of (box_of parts.settings held.old parts.taken) host.now (length reply.old)).bytes) }
{
    if !crate::is_sound(parts, held) {
        return Err(Refusal::Broken);
    }
    feed_sound(parts, held, host, reply)
}

// The same of a box that is known to be valid: so who feeds one again and again need not test it each time.
pub(crate) fn feed_sound(
    parts: Parts,
    held: &mut [u8],
    host: &[u8],
    reply: &mut [u8],
) -> Result<Fed<Parts>, Refusal>
    requires { valid (box_of parts.settings held.old parts.taken) ≡ true }
    ensures { (held_says parts result
        ≡ parts_of (feeding_of (box_of parts.settings held.old parts.taken) host.now (length reply.old)).fed)
        × (is_err result
        ≡ leb 20 (feeding_of (box_of parts.settings held.old parts.taken) host.now (length reply.old)).fed.code)
        × (held.new
        ≡ (feeding_of (box_of parts.settings held.old parts.taken) host.now (length reply.old)).fed.station.store.held)
        × (reply.new
        ≡ sets reply.old 0
        (feeding_of (box_of parts.settings held.old parts.taken) host.now (length reply.old)).bytes) }
{
    let took = framing::take_in(held, parts.taken, host);
    let Some(opening) = took.opening else {
        return Ok(Fed {
            outcome: None,
            consumed: took.count,
            wrote: 0,
            left: Parts {
                taken: took.taken,
                ..parts
            },
        });
    };
    let answered = answer(parts.settings, opening, reply)?;
    clear(held, parts.taken);
    Ok(Fed {
        outcome: Some(answered.outcome),
        consumed: took.count,
        wrote: answered.wrote,
        left: Parts {
            settings: answered.settings,
            taken: 0,
        },
    })
}

// The answer to a finished message, which its first ten bytes decide; refused where there is no room for it.
fn answer(settings: Settings, opening: [u8; 10], reply: &mut [u8]) -> Result<Answered, Refusal>
    ensures { (answered_says settings result
        ≡ (answer_of settings (opened_message opening) (length reply.old)).answered)
        × (is_err result ≡ leb 20 (answer_of settings (opened_message opening) (length reply.old)).answered.code)
        × (reply.new
        ≡ sets reply.old 0 (answer_of settings (opened_message opening) (length reply.old)).bytes) }
{
    let header = wire::number_at(&opening, 0, 2) as u16;
    answers::answer(
        settings,
        wire::type_in(header),
        wire::length_in(header),
        &opening,
        reply,
    )
}

// "All is zero between messages", as it is already where nothing was kept.
fn clear(held: &mut [u8], taken: usize)
    requires { could_be_left (record { held = held.old; taken = taken }) ≡ true }
    ensures { held.new ≡ between.held }
{
    if 0 < taken {
        let none = framing::between();
        wire::copy(&none.held, held, 0);
    }
}
