// Replies of document 01: "Replies have the item's set layout with the current value; the channel byte or id is echoed."
#![tactic(auto)]

ghost use Rattle.std.specs.Prelude.{◌≡◌, leb, length, is_err};
ghost use Rattle.std.proofs.lemmas.List.Edits.{sets};
ghost use Rattle.answers.specs.Replies.{answer_of, answered_says, outcome_code};

mod value; // value.rt: the reply that shows an item's current value
mod writing; // writing.rt: what is written

use items::Settings;
use wire::{Refusal, codes};

// What a finished message comes to: a reply, nothing, or NAK for its refusal.
#[derive(Clone, Copy, Debug, PartialEq, Eq)]
pub enum Outcome {
    Replied,
    Unanswered,
    Nak(Refusal),
}

impl From<Outcome> for u8 {
    ghost from_gives = { λ o n. n ≡ outcome_code o };

    fn from(o: Outcome) -> u8 {
        match o {
            Outcome::Replied => codes::DONE,
            Outcome::Unanswered => codes::NO_REPLY_DUE,
            Outcome::Nak(refusal) => u8::from(refusal),
        }
    }
}

// What one finished message came to, how much was written at the start of the reply buffer, and the settings after it.
#[derive(Clone, Copy)]
pub struct Answered {
    pub outcome: Outcome,
    pub wrote: usize,
    pub settings: Settings,
}

// Answers a finished message of a type and a length, of which `opening` is the first ten bytes; what lies behind a shorter
// one does not decide. A buffer that is shorter than the reply is refused: nothing is written, and the settings are those given.
pub fn answer(
    s: Settings,
    kind: u8,
    size: u16,
    opening: &[u8; 10],
    reply: &mut [u8],
) -> Result<Answered, Refusal>
    ensures { (answered_says s result
        ≡ (answer_of s (record { type = kind; size = size; bytes = opening.now }) (length reply.old)).answered)
        × (is_err result
        ≡ leb 20 (answer_of s (record { type = kind; size = size; bytes = opening.now }) (length reply.old)).answered.code)
        × (reply.new
        ≡ sets reply.old 0
        (answer_of s (record { type = kind; size = size; bytes = opening.now }) (length reply.old)).bytes) }
{
    let message = &opening[..];
    match judging::judge(s, kind, size, opening) {
        Ok(Some(settings)) => {
            let item = judging::item_in(message);
            let written = writing::put_reply(kind, item, message[4], settings, reply);
            Ok(Answered {
                outcome: Outcome::Replied,
                wrote: written.ok_or(Refusal::NoRoom)?,
                settings,
            })
        }
        Ok(None) => Ok(Answered {
            outcome: Outcome::Unanswered,
            wrote: 0,
            settings: s,
        }),
        Err(refusal) => {
            let written = writing::put_nak(reply);
            Ok(Answered {
                outcome: Outcome::Nak(refusal),
                wrote: written.ok_or(Refusal::NoRoom)?,
                settings: s,
            })
        }
    }
}
