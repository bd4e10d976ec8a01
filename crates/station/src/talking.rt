// A host's whole talk with a fresh box.
ghost use Rattle.std.specs.Prelude.{◌≡◌, length};
ghost use Rattle.std.proofs.lemmas.List.Edits.{sets};
ghost use Rattle.station.specs.Talking.{serve_run};

// Feeds a fresh box with serial MT123456 a host's whole talk, and writes its replies one after another, as long as any reply
// has room. Answers how many bytes of reply it wrote. A fresh box is valid, and feeding leaves a valid one, so no call tests it.
pub fn serve_talk(host: &[u8], replies: &mut [u8]) -> usize
    ensures { (result ≡ length (serve_run host.now (length replies.old)))
        × (replies.new ≡ sets replies.old 0 (serve_run host.now (length replies.old))) }
{
    let began = crate::session_box();
    let mut held = began.store.held;
    let mut parts = began.parts();
    let mut i: usize = 0;
    let mut at: usize = 0;
    // A proved loop has to end: each call consumes a byte or more, so as many calls as there are bytes are enough.
    for _ in 0..host.len() {
        if host.len() <= i {
            return at;
        }
        if replies.len() - at < 64 {
            return at;
        }
        // the held bytes are changed where they lie
        let f = crate::feeding::feed_sound(
            parts,
            &mut held,
            &host[i..],
            &mut replies[at..],
        ).unwrap();
        parts = f.left;
        i += f.consumed;
        at += f.wrote;
    }
    at
}
