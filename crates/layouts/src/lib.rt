// Control messages of document 01 as they are laid out: header, item code, then parameters.
#![tactic(auto)]

ghost use Rattle.std.specs.Prelude.{◌≡◌, [], ◌++◌, ◌≤◌, ltb, length};
ghost use Rattle.std.proofs.lemmas.List.Edits.{sets};
ghost use Rattle.wire.specs.Choice.{pick};
ghost use Rattle.wire.specs.Number.{bytes};
ghost use Rattle.layouts.specs.Layouts.{value_place, size_of, laid, has_layout};

// A message of a kind for an item. Its parameters are the channel byte or id that is echoed, where there is one, and a
// value, a number in `width` bytes.
#[derive(Clone, Copy, Debug, PartialEq, Eq)]
pub struct Layout {
    pub kind: u8,
    pub item: u16,
    pub echo: Option<u8>,
    pub width: u8,
    pub value: u64,
}

impl Layout {
    // Where the value stands: past header and item code, and the echoed byte.
    pub fn value_place(self) -> usize
        ensures { result ≡ value_place self }
    {
        match self.echo {
            Some(_) => 5,
            None => 4,
        }
    }

    // How long the message is.
    pub fn size(self) -> usize
        ensures { result ≡ size_of self }
    {
        self.value_place() + self.width as usize
    }

    // Writes the message at the start of the slice, and says how long it is; or nothing, where it does not fit.
    pub fn put(self, dst: &mut [u8]) -> Option<usize>
        ensures { (result ≡ pick (ltb (length dst.old) (size_of self)) None (Some (size_of self)))
            × (dst.new ≡ sets dst.old 0 (pick (ltb (length dst.old) (size_of self)) [] (laid self))) }
    {
        let size = self.size();
        if dst.len() < size {
            return None;
        }
        put_header_and_item(dst, wire::header_of(self.kind, size as u16), self.item);
        let width = self.width as usize;
        match self.echo {
            Some(echo) => {
                dst[4] = echo;
                wire::put(dst, 5, width, self.value);
            }
            None => wire::put(dst, 4, width, self.value),
        }
        Some(size)
    }

    // Whether bytes are a message laid out so, whatever its value is: length, header, item code and the echoed byte are looked at.
    // Header and item code are one number, which the processor reads at once.
    pub fn is_of(self, bytes: &[u8]) -> bool
        ensures { result ≡ has_layout bytes.now self }
    {
        let size = self.size();
        if bytes.len() != size {
            return false;
        }
        let front = wire::header_of(self.kind, size as u16) as u64 + 65536 * (self.item as u64);
        if wire::number_at(bytes, 0, 4) != front {
            return false;
        }
        match self.echo {
            Some(echo) => bytes[4] == echo,
            None => true,
        }
    }
}

// Header and item code, two bytes each. (With `copy_from_slice` of `to_le_bytes` a wish took 85 instructions in place of 61: tried, and the
// speed is kept.)
fn put_header_and_item(dst: &mut [u8], header: u16, item: u16)
    requires { 4 ≤ length dst.old }
    ensures { dst.new ≡ sets dst.old 0 (bytes 2 header ++ bytes 2 item) }
{
    dst[0] = (header % 256) as u8;
    dst[1] = (header / 256 % 256) as u8;
    dst[2] = (item % 256) as u8;
    dst[3] = (item / 256 % 256) as u8;
}
