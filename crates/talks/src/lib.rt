// A host's whole talk at once, for a program in another language that has it at once. It has a library of its own, so that
// the compiler finds one caller of feeding, and makes one loop of it all.
#![tactic(auto)]

ghost use Rattle.std.specs.Prelude.{◌≡◌, length};
ghost use Rattle.std.proofs.lemmas.List.Edits.{sets};
ghost use Rattle.station.specs.Talking.{serve_run};

// Feeds a fresh box with serial MT123456 a host's whole talk, and writes its replies one after another, as long as any reply
// has room. Answers how many bytes of reply it wrote.
#[unsafe(no_mangle)]
pub extern "C" fn skvornela_serve(host: &[u8], replies: &mut [u8]) -> usize
    ensures { (result ≡ length (serve_run host.now (length replies.old)))
        × (replies.new ≡ sets replies.old 0 (serve_run host.now (length replies.old))) }
{
    station::serve_talk(host, replies)
}
