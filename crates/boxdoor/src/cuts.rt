// Cutting packets.
ghost use Rattle.std.specs.Prelude.{◌≡◌, length};
ghost use Rattle.std.proofs.lemmas.List.Edits.{sets};
ghost use Rattle.boxdoor.specs.Cutting.{cut_over, packet_over};

use crate::states::{HELD, TAKEN};
use station::Parts;
use wire::{Refusal, codes};

// Cuts the next packet from samples by a box in its bytes. Answers the code, and leaves how many bytes of packet were
// written. Where the call is refused the box's bytes and the packet are as they came.
#[unsafe(no_mangle)]
pub extern "C" fn skvornela_cut(
    state: &mut [u8],
    samples: &[i32],
    packet: &mut [u8],
    wrote: &mut usize,
) -> u8
    ensures { (record { code = result; wrote = wrote.new; state = state.new }
        ≡ cut_over state.old samples.now (length packet.old))
        × (packet.new
        ≡ sets packet.old 0 (packet_over state.old samples.now (length packet.old))) }
{
    *wrote = 0;
    if state.len() == crate::states::LENGTH {
        let parts = crate::states::parts_of(state);
        // the held bytes are looked at where they lie
        return match cutting::cut_held(parts, &state[HELD..TAKEN], samples, packet) {
            Ok(cut) => {
                *wrote = cut.wrote;
                let after = Parts {
                    settings: cut.left,
                    ..parts
                };
                crate::states::put_parts(state, after);
                codes::DONE
            }
            // "Codes from 20 consume nothing and return the state given."
            Err(refusal) => u8::from(refusal),
        };
    }
    Refusal::Broken as u8
}
