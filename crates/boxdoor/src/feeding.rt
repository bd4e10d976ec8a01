// A fresh box, feeding it, and its tuning word.
ghost use Rattle.std.specs.Prelude.{◌≡◌, length};
ghost use Rattle.std.proofs.lemmas.List.Edits.{sets};
ghost use Rattle.boxdoor.specs.Feeding.{feed_over, replied_over, fresh_over, tuned_over};

use crate::states::{HELD, TAKEN};
use wire::{Refusal, codes};

// A fresh box with a serial, in a box's bytes. Answers the code.
#[unsafe(no_mangle)]
pub extern "C" fn skvornela_fresh(serial: &[u8], state: &mut [u8]) -> u8
    ensures { record { code = result; state = state.new } ≡ fresh_over serial.now state.old }
{
    if state.len() == crate::states::LENGTH {
        let began = station::fresh(serial);
        crate::states::put_station(state, began.made);
        return began.code();
    }
    Refusal::Broken as u8
}

// Feeds a box in its bytes. Answers the code, and leaves how many of the host's bytes were consumed and how many bytes of
// reply were written. Where the call is refused the box's bytes are as they came.
#[unsafe(no_mangle)]
pub extern "C" fn skvornela_feed(
    state: &mut [u8],
    host: &[u8],
    reply: &mut [u8],
    consumed: &mut usize,
    wrote: &mut usize,
) -> u8
    ensures { (record { code = result; consumed = consumed.new; wrote = wrote.new; state = state.new }
        ≡ feed_over state.old host.now (length reply.old))
        × (reply.new
        ≡ sets reply.old 0 (replied_over state.old host.now (length reply.old))) }
{
    *consumed = 0;
    *wrote = 0;
    if state.len() == crate::states::LENGTH {
        let parts = crate::states::parts_of(state);
        // the held bytes are changed where they lie
        return match station::feed_held(parts, &mut state[HELD..TAKEN], host, reply) {
            Ok(f) => {
                *consumed = f.consumed;
                *wrote = f.wrote;
                crate::states::put_parts(state, f.left);
                f.code()
            }
            // "Codes from 20 consume nothing and return the state given."
            Err(refusal) => u8::from(refusal),
        };
    }
    Refusal::Broken as u8
}

// The tuning word of a channel of a box in its bytes. Answers the code, and leaves the word, 0 where there is none.
#[unsafe(no_mangle)]
pub extern "C" fn skvornela_word(state: &[u8], channel: u8, word: &mut u32) -> u8
    ensures { record { code = result; word = word.new } ≡ tuned_over state.now channel }
{
    *word = 0;
    if state.len() == crate::states::LENGTH {
        let parts = crate::states::parts_of(state);
        // the held bytes are looked at where they lie
        return match station::word_held(parts, &state[HELD..TAKEN], channel) {
            Ok(kept) => {
                *word = kept;
                codes::DONE
            }
            Err(why) => u8::from(why),
        };
    }
    Refusal::Broken as u8
}
