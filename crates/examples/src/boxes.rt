// The box at edges that no message of the script reaches: packets cut, and little room for a reply.
use crate::telling::{first, name, say, say_code, say_number, tell};
use station::Station;
use std::io::Stdout;
use wire::{Refusal, code_of};

// A box that runs or not, in a mode and a size, and has cut so many packets.
fn made(running: bool, mode: u8, size: u8, count: u64) -> Station {
    let mut settings = station::fresh(b"00000000").made.settings;
    settings.running = running;
    settings.mode = mode;
    settings.size = size as u32;
    settings.count = count;
    Station {
        settings,
        store: framing::between(),
    }
}

// Cuts a packet from n numbers, each of them v, in so many bytes. Of the packet its first ten bytes are told.
fn cut(out: Stdout, words: &[u8], s: Station, n: usize, v: i32, room: usize) {
    let samples = [v; 512];
    let mut packet = [0u8; 1444];
    if 512 < n {
        return;
    }
    if 1444 < room {
        return;
    }
    let part = &mut packet[..room];
    let cut = cutting::cut_packet(s, &samples[..n], part);
    name(out, words);
    let wrote = match cut {
        Ok(c) => c.wrote,
        Err(_) => 0,
    };
    tell(out, code_of(cut), first(first(part, wrote), 10));
}

// The four forms.
pub(crate) fn forms(out: Stdout) {
    let large = made(true, 0x80, 0, 1);
    cut(out, b"24 bits, large, of -257", large, 480, -257, 1444);
    let small = made(true, 0x80, 1, 1);
    cut(out, b"24 bits, small, of -257", small, 128, -257, 388);
    let large_16 = made(true, 0x00, 0, 1);
    cut(out, b"16 bits, large, of -257", large_16, 512, -257, 1028);
    let small_16 = made(true, 0x00, 1, 1);
    cut(out, b"16 bits, small, of -257", small_16, 256, -257, 516);
    cut(out, b"in 515 bytes", small_16, 256, -257, 515);
    let mut two = small;
    two.settings.setup = 4;
    cut(
        out,
        b"two channels, 24 bits, small, of -257",
        two,
        128,
        -257,
        388,
    );
    cut(out, b"two channels, from 64 numbers", two, 64, -257, 388);
    two.settings.setup = 5;
    cut(out, b"channel setup 5", two, 128, -257, 388);
}

// 24 bits, small: 64 pairs, so 128 numbers, in 388 bytes.
pub(crate) fn cuts(out: Stdout) {
    let begun = made(true, 0x80, 1, 0);
    cut(out, b"while idle", made(false, 0x80, 1, 0), 128, 0, 388);
    cut(out, b"from 127 numbers", begun, 127, 0, 388);
    cut(out, b"from 129 numbers", begun, 129, 0, 388);
    cut(out, b"of -8388609", begun, 128, -8_388_609, 388);
    cut(out, b"of -8388608", begun, 128, -8_388_608, 388);
    cut(out, b"of 8388607", begun, 128, 8_388_607, 388);
    cut(out, b"of 8388608", begun, 128, 8_388_608, 388);
}

// "capture holds 4,000,000,000 packets", and a box that would hold one more is broken; then the order, "21, 22, 25, 23, 24, 20".
pub(crate) fn counts(out: Stdout) {
    let last = made(true, 0x80, 1, 3_999_999_999);
    let full = made(true, 0x80, 1, 4_000_000_000);
    cut(out, b"at 3999999999", last, 128, 0, 388);
    cut(out, b"at 4000000000", full, 128, 0, 388);
    cut(
        out,
        b"21 before 22",
        made(false, 0x80, 1, 4_000_000_001),
        127,
        8_388_608,
        0,
    );
    cut(
        out,
        b"22 before 25",
        made(false, 0x80, 1, 4_000_000_000),
        127,
        8_388_608,
        0,
    );
    cut(out, b"25 before 23", full, 127, 8_388_608, 0);
    cut(out, b"23 before 24", last, 127, 8_388_608, 0);
    cut(out, b"24 before 20", last, 128, 8_388_608, 0);
}

// 16 bits, small: "add 128, divide by 256 rounding down, and hold at 32,767".
pub(crate) fn sixteen_bits(out: Stdout) {
    let small_16 = made(true, 0x00, 1, 1);
    cut(out, b"of 127", small_16, 256, 127, 516);
    cut(out, b"of 128", small_16, 256, 128, 516);
    cut(out, b"of 383", small_16, 256, 383, 516);
    cut(out, b"of 384", small_16, 256, 384, 516);
    cut(out, b"of -128", small_16, 256, -128, 516);
    cut(out, b"of -129", small_16, 256, -129, 516);
    cut(out, b"of 8388223", small_16, 256, 8_388_223, 516);
    cut(out, b"of 8388224", small_16, 256, 8_388_224, 516);
    cut(out, b"of 8388480", small_16, 256, 8_388_480, 516);
    cut(out, b"of 8388607", small_16, 256, 8_388_607, 516);
    cut(out, b"of -8388480", small_16, 256, -8_388_480, 516);
    cut(out, b"of -8388481", small_16, 256, -8_388_481, 516);
    cut(out, b"of -8388608", small_16, 256, -8_388_608, 516);
}

// Feeds a message with so much room for the reply.
fn feed(out: Stdout, words: &[u8], s: Station, message: &[u8], room: usize) {
    let mut reply = [0u8; 64];
    if 64 < room {
        return;
    }
    let part = &mut reply[..room];
    let fed = station::feed(s, message, part);
    name(out, words);
    match fed {
        Ok(f) => tell(out, f.code(), first(part, f.wrote)),
        Err(refusal) => tell(out, u8::from(refusal), b""),
    }
}

// Little room: NAK has 2 bytes, and the reply with the name 11.
pub(crate) fn feeds(out: Stdout) {
    let valid = made(false, 0x80, 0, 4_000_000_000);
    feed(out, b"name in 10 bytes", valid, b"\x04\x20\x01\x00", 10);
    feed(out, b"name in 11 bytes", valid, b"\x04\x20\x01\x00", 11);
    feed(out, b"NAK in 1 byte", valid, b"\x04\x20\x09\x00", 1);
    feed(out, b"NAK in 2 bytes", valid, b"\x04\x20\x09\x00", 2);
    feed(
        out,
        b"21 before 20",
        made(false, 0x80, 0, 4_000_000_001),
        b"\x04\x20\x09\x00",
        1,
    );
}

// What asking for the word of a channel answers.
fn say_answer(out: Stdout, s: Station, channel: u8) {
    say(out, b"; ");
    match station::tuning_word(s, channel) {
        Ok(w) => {
            say(out, b"1");
            say_number(out, u64::from(w));
        }
        Err(Refusal::ChannelNotAllowed) => say(out, b"15"),
        Err(_) => say(out, b"21"),
    }
}

// Feeds a message to a box, and tells its code, the words that the box keeps then, and what asking for each answers.
fn tuned(out: Stdout, words: &[u8], s: Station, message: &[u8]) -> Station {
    let mut reply = [0u8; 64];
    let (code, after) = match station::feed(s, message, &mut reply) {
        Ok(f) => (f.code(), f.left),
        Err(refusal) => (u8::from(refusal), s),
    };
    name(out, words);
    say_code(out, code);
    say_number(out, u64::from(after.settings.first.word));
    say_number(out, u64::from(after.settings.second.word));
    say_answer(out, after, 0x00);
    say_answer(out, after, 0x02);
    say(out, b"\n");
    after
}

// The word is "true after every message, refused ones too": at each end of the bands and of the clock.
pub(crate) fn words(out: Stdout) {
    let mut s = made(false, 0x80, 0, 0);
    s = tuned(out, b"fresh, no byte", s, b"");
    s = tuned(
        out,
        b"14010000",
        s,
        b"\x0A\x00\x20\x00\x00\x90\xC6\xD5\x00\x00",
    );
    s = tuned(
        out,
        b"clock 80000123",
        s,
        b"\x09\x00\xB0\x00\x00\x7B\xB4\xC4\x04",
    );
    s = tuned(
        out,
        b"34000001",
        s,
        b"\x0A\x00\x20\x00\x00\x81\xCC\x06\x02\x00",
    );
    s = tuned(
        out,
        b"clock 8000000",
        s,
        b"\x09\x00\xB0\x00\x00\x00\x12\x7A\x00",
    );
    s = tuned(out, b"not answered", s, b"\x02\x00");
    s = tuned(
        out,
        b"145000000 on FF",
        s,
        b"\x0A\x00\x20\x00\xFF\x40\x86\xA4\x08\x00",
    );
    s = tuned(
        out,
        b"145000000 on 02",
        s,
        b"\x0A\x00\x20\x00\x02\x40\x86\xA4\x08\x00",
    );
    s = tuned(
        out,
        b"clock 79992000",
        s,
        b"\x09\x00\xB0\x00\x00\xC0\x94\xC4\x04",
    );
    s = tuned(
        out,
        b"100000",
        s,
        b"\x0A\x00\x20\x00\x00\xA0\x86\x01\x00\x00",
    );
    s = tuned(
        out,
        b"34000000",
        s,
        b"\x0A\x00\x20\x00\x00\x80\xCC\x06\x02\x00",
    );
    s = tuned(
        out,
        b"140000000",
        s,
        b"\x0A\x00\x20\x00\x00\x00\x3B\x58\x08\x00",
    );
    s = tuned(
        out,
        b"clock 80008000",
        s,
        b"\x09\x00\xB0\x00\x00\x40\xD3\xC4\x04",
    );
    s = tuned(
        out,
        b"150000000",
        s,
        b"\x0A\x00\x20\x00\x00\x80\xD1\xF0\x08\x00",
    );
    s = tuned(out, b"gain -10", s, b"\x06\x00\x38\x00\x00\xF6");
    s.settings.first.word = 536_817_229;
    s = tuned(out, b"another word", s, b"\x04\x20\x01\x00");
    cut(out, b"cut with another word", s, 480, 0, 1444);
}

// The same with two channels. "FF sets both"; "with 0, FF sets channel 00 only and channel 02 retains its values".
pub(crate) fn two_words(out: Stdout) {
    let mut s = made(false, 0x80, 0, 0);
    s = tuned(
        out,
        b"14010000 on 02",
        s,
        b"\x0A\x00\x20\x00\x02\x90\xC6\xD5\x00\x00",
    );
    s = tuned(out, b"channel setup 4", s, b"\x05\x00\x19\x00\x04");
    s = tuned(
        out,
        b"14010000 on 02",
        s,
        b"\x0A\x00\x20\x00\x02\x90\xC6\xD5\x00\x00",
    );
    s = tuned(
        out,
        b"20000000 on 00",
        s,
        b"\x0A\x00\x20\x00\x00\x00\x2D\x31\x01\x00",
    );
    s = tuned(out, b"gain -20 on FF", s, b"\x06\x00\x38\x00\xFF\xEC");
    s = tuned(
        out,
        b"clock 80000123",
        s,
        b"\x09\x00\xB0\x00\x00\x7B\xB4\xC4\x04",
    );
    s = tuned(
        out,
        b"34000001 on FF",
        s,
        b"\x0A\x00\x20\x00\xFF\x81\xCC\x06\x02\x00",
    );
    s = tuned(
        out,
        b"10000000 on FF",
        s,
        b"\x0A\x00\x20\x00\xFF\x80\x96\x98\x00\x00",
    );
    s = tuned(
        out,
        b"14010000 on 01",
        s,
        b"\x0A\x00\x20\x00\x01\x90\xC6\xD5\x00\x00",
    );
    s = tuned(out, b"channel setup 0", s, b"\x05\x00\x19\x00\x00");
    s = tuned(
        out,
        b"14010000 on FF",
        s,
        b"\x0A\x00\x20\x00\xFF\x90\xC6\xD5\x00\x00",
    );
    s = tuned(
        out,
        b"clock 79992000",
        s,
        b"\x09\x00\xB0\x00\x02\xC0\x94\xC4\x04",
    );
    s = tuned(out, b"channel setup 4 again", s, b"\x05\x00\x19\x00\x04");
    s.settings.second.word = 536_924_603;
    s = tuned(out, b"another word of 02", s, b"\x04\x20\x01\x00");
    cut(out, b"cut with another word of 02", s, 480, 0, 1444);
    s = made(false, 0x80, 0, 0);
    s.settings.second.word = 536_870_911;
    s = tuned(
        out,
        b"another word of 02 that is not open",
        s,
        b"\x04\x20\x01\x00",
    );
    s = made(false, 0x80, 0, 0);
    s.settings.setup = 5;
    tuned(out, b"channel setup 5 in the box", s, b"\x04\x20\x01\x00");
}
