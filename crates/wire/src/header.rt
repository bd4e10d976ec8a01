// The header of 16 bits: "bits 0 to 12 the total length, bits 13 to 15 the type".
ghost use Rattle.std.specs.Prelude.{◌≡◌};
ghost use Rattle.wire.specs.Header.{length_in, type_in, header_of};

// The total length in a header.
pub fn length_in(header: u16) -> u16
    ensures { result ≡ length_in header }
{
    header & 0x1fff
}

// The type in a header.
pub fn type_in(header: u16) -> u8
    ensures { result ≡ type_in header }
{
    (header >> 13) as u8
}

// The header of a type and a total length: of a type its low three bits are taken, of a length its low 13.
pub fn header_of(kind: u8, total: u16) -> u16
    ensures { result ≡ header_of kind total }
{
    ((kind & 7) as u16) << 13 | (total & 0x1fff)
}
