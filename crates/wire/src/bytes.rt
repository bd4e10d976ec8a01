// Bytes of one slice stored in another.
ghost use Rattle.std.specs.Prelude.{◌≡◌};
ghost use Rattle.std.proofs.lemmas.List.Edits.{sets};

// Stores a slice at a place of another. What would lie past the end is not written.
// (A loop over bytes: of `copy_from_slice`, with a length that it does not see, the compiler makes calls of memcpy and memmove, which who
// links the box's door without a C library would have to bring, and which cost a task of little stack kilobytes at the first call.)
pub fn copy(src: &[u8], dst: &mut [u8], at: usize)
    ensures { dst.new ≡ sets dst.old at src.now }
{
    let fits = src.len().min(dst.len().saturating_sub(at));
    for i in 0..fits {
        dst[at + i] = src[i];
    }
}
