// The harvester's calls at their edges: packets read and unpacked, wishes and heads written, replies read.
use crate::telling::{first, name, say, say_code, say_number, tell};
use heads::Head;
use reader::Reader;
use std::io::Stdout;
use wire::{Refusal, codes};
use wishes::{StateFields, Wish};

// The header of 24 bits, small, whose packets have 388 bytes, and that of 16 bits, small.
const SMALL_24: u64 = 0x8184;

const SMALL_16: u64 = 0x8204;

// A reader that has heard the packet at a position, with so many missed up to it.
fn after(position: u64, total: u64) -> Reader {
    Reader {
        heard: true,
        channels: 1,
        position,
        total,
        form: packets::SMALL_24,
    }
}

fn heard(position: u64) -> Reader {
    after(position, 0)
}

// Reads a packet of n bytes with a header and a number, and tells its position, its first sample's, and how many were missed
// just before it and in all.
fn read(out: Stdout, words: &[u8], r: Reader, header: u64, number: u64, n: usize) {
    let mut packet = [0u8; 1444];
    wire::put(&mut packet, 0, 2, header);
    wire::put(&mut packet, 2, 2, number);
    name(out, words);
    let answer = reader::read(r, first(&packet, n));
    say_code(out, wire::code_of(answer));
    let numbers = match answer {
        Ok(heard) => [heard.position, heard.sample, heard.missed, heard.total],
        Err(_) => [0; 4],
    };
    for number in numbers {
        say_number(out, number);
    }
    say(out, b"\n");
}

// Unpacks a packet of 24 bits, small, cut off after n bytes, to so many numbers, and tells how many were written and how many
// sample bytes there are.
fn unpack(out: Stdout, words: &[u8], n: usize, room: usize) {
    let mut packet = [0u8; 388];
    let mut numbers = [0i32; 128];
    if 128 < room {
        return;
    }
    wire::put(&mut packet, 0, 2, SMALL_24);
    let whole = first(&packet, n);
    let unpacked = reader::unpack(whole, &mut numbers[..room]);
    name(out, words);
    say_code(out, wire::code_of(unpacked));
    say_number(out, unpacked.unwrap_or(0) as u64);
    say_number(out, reader::sample_bytes(whole).len() as u64);
    say(out, b"\n");
}

// How much was lost, and totals that no steps give.
fn totals_read(out: Stdout) {
    let mut silent = reader::silent(1);
    read(out, b"0 at the start", after(7, 6), SMALL_24, 0, 388);
    read(out, b"none missed", after(1, 0), SMALL_24, 2, 388);
    read(out, b"two missed", after(1, 0), SMALL_24, 4, 388);
    read(out, b"a number again", after(7, 6), SMALL_24, 7, 388);
    read(out, b"past the turn", after(65535, 65534), SMALL_24, 1, 388);
    read(out, b"two steps", after(65536, 65534), SMALL_24, 2, 388);
    read(
        out,
        b"no step of 65536",
        after(65536, 65535),
        SMALL_24,
        2,
        388,
    );
    read(out, b"one step of 10", after(10, 9), SMALL_24, 11, 388);
    read(out, b"no step to 10", after(10, 10), SMALL_24, 11, 388);
    read(out, b"none at the start", after(0, 1), SMALL_24, 1, 388);
    read(
        out,
        b"fewest steps",
        after(3_999_999_999, 3_999_938_962),
        SMALL_24,
        0,
        388,
    );
    read(
        out,
        b"one fewer",
        after(3_999_999_999, 3_999_938_963),
        SMALL_24,
        0,
        388,
    );
    silent.total = 1;
    read(out, b"silent with a total", silent, SMALL_24, 0, 388);
}

// What is no packet, and "position past 3,999,999,999".
pub(crate) fn packets_read(out: Stdout) {
    read(out, b"387 bytes", heard(0), SMALL_24, 1, 387);
    read(out, b"388 bytes", heard(0), SMALL_24, 1, 388);
    read(out, b"number 1 first", reader::silent(1), SMALL_24, 1, 388);
    read(out, b"another form", heard(0), SMALL_16, 1, 516);
    read(
        out,
        b"to 3999999999",
        heard(3_999_999_998),
        SMALL_24,
        5739,
        388,
    );
    read(
        out,
        b"to 4000000000",
        heard(3_999_999_999),
        SMALL_24,
        5740,
        388,
    );
    read(
        out,
        b"32 before 33",
        heard(3_999_999_999),
        SMALL_16,
        5740,
        516,
    );
    read(
        out,
        b"from 4000000000",
        heard(4_000_000_000),
        SMALL_24,
        0,
        387,
    );
    totals_read(out);
    unpack(out, b"387 bytes unpacked", 387, 0);
    unpack(out, b"to 127 numbers", 388, 127);
    unpack(out, b"to 128 numbers", 388, 128);
}

// Writes a wish to a buffer of so many bytes.
fn write(out: Stdout, words: &[u8], w: Wish, room: usize) {
    let mut buffer = [0u8; 16];
    if 16 < room {
        return;
    }
    let part = &mut buffer[..room];
    let written = wishes::write(w, part);
    name(out, words);
    match written {
        Ok(n) => tell(out, codes::DONE, first(part, n)),
        Err(r) => tell(out, u8::from(r), b""),
    }
}

pub(crate) fn wishes_written(out: Stdout) {
    write(out, b"AskName in 15 bytes", Wish::AskName, 15);
    write(out, b"AskName in 16 bytes", Wish::AskName, 16);
    write(out, b"16 before 20", Wish::AskVersion(4), 15);
    write(out, b"SetGain -30", Wish::SetGain(0, -30), 16);
    write(out, b"SetGain -31", Wish::SetGain(0, -31), 16);
    write(
        out,
        b"idle",
        Wish::SetState(StateFields { run: 1, mode: 1 }),
        16,
    );
    write(
        out,
        b"run",
        Wish::SetState(StateFields { run: 2, mode: 0 }),
        16,
    );
    write(
        out,
        b"run 3",
        Wish::SetState(StateFields { run: 3, mode: 0 }),
        16,
    );
    channels_written(out);
}

// 02, No. 7: the channel byte is checked first, and what any box allows is written.
fn channels_written(out: Stdout) {
    write(out, b"15 before 16", Wish::SetFrequency(1, 34_000_001), 16);
    write(out, b"15 before 20", Wish::AskGain(0xFF), 15);
    write(out, b"past the band", Wish::SetFrequency(2, 34_000_001), 16);
    write(
        out,
        b"SetFrequency 02",
        Wish::SetFrequency(2, 14_010_000),
        16,
    );
    write(out, b"SetGain FF", Wish::SetGain(0xFF, -20), 16);
    write(out, b"AskFrequency FF", Wish::AskFrequency(0xFF), 16);
    write(out, b"AskFrequencyRange 02", Wish::AskFrequencyRange(2), 16);
    write(out, b"AskRate 77", Wish::AskRate(0x77), 16);
    write(out, b"SetChannelSetup 4", Wish::SetChannelSetup(4), 16);
    write(out, b"SetChannelSetup 5", Wish::SetChannelSetup(5), 16);
}

// Reads bytes as the reply to a wish.
fn hear(out: Stdout, words: &[u8], w: Wish, bytes: &[u8]) {
    name(out, words);
    tell(out, wire::code_of(replies::read(w, bytes)), b"");
}

pub(crate) fn replies_read(out: Stdout) {
    hear(out, b"NAK to AskRate", Wish::AskRate(0), b"\x02\x00");
    hear(
        out,
        b"NAK to AskVersion 4",
        Wish::AskVersion(4),
        b"\x02\x00",
    );
    hear(out, b"nothing to AskRate", Wish::AskRate(0), b"");
    hear(
        out,
        b"rate 200000",
        Wish::AskRate(0),
        b"\x09\x00\xB8\x00\x00\x40\x0D\x03\x00",
    );
    hear(
        out,
        b"rate 200001",
        Wish::AskRate(0),
        b"\x09\x00\xB8\x00\x00\x41\x0D\x03\x00",
    );
    hear(out, b"status 0C", Wish::AskStatus, b"\x05\x00\x05\x00\x0C");
    hear(out, b"status 0D", Wish::AskStatus, b"\x05\x00\x05\x00\x0D");
    hear(
        out,
        b"serial of Z",
        Wish::AskSerial,
        b"\x0D\x00\x02\x00ZZZZZZZZ\x00",
    );
    hear(
        out,
        b"serial of [",
        Wish::AskSerial,
        b"\x0D\x00\x02\x00ZZZZZZZ[\x00",
    );
    channels_read(out);
}

// 02, No. 7: a reply echoes the wish's channel byte; 15 before 16.
fn channels_read(out: Stdout) {
    let second = b"\x0A\x00\x20\x00\x02\x90\xC6\xD5\x00\x00";
    hear(out, b"frequency of 02", Wish::AskFrequency(2), second);
    hear(out, b"the other channel's", Wish::AskFrequency(0), second);
    hear(
        out,
        b"NAK to AskFrequency FF",
        Wish::AskFrequency(0xFF),
        b"\x02\x00",
    );
    hear(out, b"15 before 16", Wish::SetGain(1, -31), b"\x02\x00");
    hear(
        out,
        b"setup 4",
        Wish::AskChannelSetup,
        b"\x05\x00\x19\x00\x04",
    );
    hear(
        out,
        b"setup 5",
        Wish::AskChannelSetup,
        b"\x05\x00\x19\x00\x05",
    );
}

// 01: "SPN".
const MARK: u64 = 0x4E_50_53;

// 02, No. 9: "unknown serial and 80,000,000".
const CLOCK: u32 = 80_000_000;

// MT123456, its first character in the low byte; and a zero byte in the place of the 3.
const NAMED: u64 = 0x36_35_34_33_32_31_54_4D;

const HOLED: u64 = 0x36_35_34_00_32_31_54_4D;

fn head_of(version: u32, divisor: u32, serial: u64, clock: u32) -> Head {
    Head {
        version,
        divisor,
        frequency: 10_000_000,
        mode: 0x80,
        size: 0,
        serial,
        clock,
    }
}

fn bare(version: u32, divisor: u32) -> Head {
    head_of(version, divisor, 0, CLOCK)
}

fn naming(version: u32, serial: u64, clock: u32) -> Head {
    head_of(version, 100, serial, clock)
}

// The code of what was done, and its bytes.
fn tell_done(out: Stdout, answer: Result<(), Refusal>, bytes: &[u8]) {
    match answer {
        Ok(()) => tell(out, codes::DONE, bytes),
        Err(refusal) => tell(out, u8::from(refusal), b""),
    }
}

// Writes a head to so many bytes.
fn head(out: Stdout, words: &[u8], h: Head, room: usize) {
    let mut bytes = [0u8; 26];
    if 26 < room {
        return;
    }
    let part = &mut bytes[..room];
    let written = heads::write_head(h, part);
    name(out, words);
    tell_done(out, written, part);
}

fn written_by_d(out: Stdout) {
    let mut last = bare(1, 625);
    last.mode = 0x00;
    last.size = 1;
    head(out, b"D 9", bare(1, 9), 14);
    head(out, b"D 10", bare(1, 10), 14);
    head(out, b"D 625", last, 14);
    head(out, b"D 626", bare(1, 626), 14);
    head(out, b"in 13 bytes", bare(1, 100), 13);
    head(out, b"16 before 20", bare(1, 9), 13);
}

fn written_by_version(out: Stdout) {
    head(out, b"version 0", bare(0, 100), 26);
    head(out, b"version 1", bare(1, 100), 26);
    head(out, b"version 2", bare(2, 100), 26);
    head(out, b"version 3", bare(3, 100), 26);
    head(out, b"version 1, a serial", naming(1, NAMED, CLOCK), 26);
    head(
        out,
        b"version 1, clock 79999999",
        naming(1, 0, 79_999_999),
        26,
    );
    head(
        out,
        b"version 1, clock 80000001",
        naming(1, 0, 80_000_001),
        26,
    );
}

fn written_by_name(out: Stdout) {
    head(out, b"clock 79991999", naming(2, 0, 79_991_999), 26);
    head(out, b"clock 79992000", naming(2, 0, 79_992_000), 26);
    head(out, b"clock 80008000", naming(2, 0, 80_008_000), 26);
    head(out, b"clock 80008001", naming(2, 0, 80_008_001), 26);
    head(out, b"MT123456", naming(2, NAMED, CLOCK), 26);
    head(out, b"a zero byte", naming(2, HOLED, CLOCK), 26);
    head(out, b"version 2 in 25 bytes", naming(2, NAMED, CLOCK), 25);
    head(out, b"version 2, 16 before 20", naming(2, HOLED, CLOCK), 25);
}

pub(crate) fn heads_written(out: Stdout) {
    written_by_d(out);
    written_by_version(out);
    written_by_name(out);
}

// A head's values where version 2 has them.
fn head_bytes(h: Head) -> [u8; 26] {
    let mut out = [0u8; 26];
    wire::put(&mut out, 0, 3, MARK);
    wire::put(&mut out, 3, 2, h.version as u64);
    wire::put(&mut out, 5, 2, h.divisor as u64);
    wire::put(&mut out, 7, 5, h.frequency);
    wire::put(&mut out, 12, 1, h.mode as u64);
    wire::put(&mut out, 13, 1, h.size as u64);
    wire::put(&mut out, 14, 8, h.serial);
    wire::put(&mut out, 22, 4, h.clock as u64);
    out
}

fn tell_head(out: Stdout, h: Head) {
    say_code(out, codes::DONE);
    say_number(out, h.version as u64);
    say_number(out, h.divisor as u64);
    say_number(out, h.frequency);
    say_number(out, h.mode as u64);
    say_number(out, h.size as u64);
    say_number(out, h.serial);
    say_number(out, h.clock as u64);
    say(out, b"\n");
}

// Reads the first n bytes of a head, and tells its values.
fn open(out: Stdout, words: &[u8], h: Head, n: usize) {
    let bytes = head_bytes(h);
    name(out, words);
    match heads::read_head(first(&bytes, n)) {
        Ok(read) => tell_head(out, read),
        Err(refusal) => tell(out, u8::from(refusal), b""),
    }
}

fn read_by_version(out: Stdout) {
    open(out, b"13 bytes", bare(1, 100), 13);
    open(out, b"14 bytes", bare(1, 100), 14);
    open(out, b"more behind", naming(1, NAMED, 79_992_000), 26);
    open(out, b"version 0", bare(0, 100), 14);
    open(out, b"version 3", bare(3, 100), 14);
    open(out, b"version 3, D 9", bare(3, 9), 14);
    open(out, b"version 3, 13 bytes", bare(3, 100), 13);
}

fn read_of_version_2(out: Stdout) {
    open(out, b"version 2, 14 bytes", bare(2, 100), 14);
    open(out, b"version 2, 25 bytes", bare(2, 100), 25);
    open(out, b"version 2, 26 bytes", bare(2, 100), 26);
    open(
        out,
        b"version 2, MT123456",
        naming(2, NAMED, 79_999_990),
        26,
    );
    open(out, b"version 2, D 9", bare(2, 9), 26);
    open(
        out,
        b"version 2, clock 79991999",
        naming(2, 0, 79_991_999),
        26,
    );
    open(
        out,
        b"version 2, clock 80008001",
        naming(2, 0, 80_008_001),
        26,
    );
    open(out, b"version 2, a zero byte", naming(2, HOLED, CLOCK), 26);
}

pub(crate) fn heads_read(out: Stdout) {
    read_by_version(out);
    read_of_version_2(out);
}

fn moved(back: bool, bytes: &[u8], out: &mut [u8]) -> Result<(), Refusal> {
    if back {
        return heads::older(bytes, out);
    }
    heads::newer(bytes, out)
}

// Moves a head back to version 1, or on to version 2, in so many bytes.
fn shift(out: Stdout, words: &[u8], back: bool, h: Head, room: usize) {
    let mut bytes = [0u8; 26];
    if 26 < room {
        return;
    }
    let part = &mut bytes[..room];
    let m = moved(back, &head_bytes(h), part);
    name(out, words);
    tell_done(out, m, part);
}

fn moved_on(out: Stdout) {
    shift(out, b"on, 25 bytes", false, bare(1, 100), 25);
    shift(out, b"on, 26 bytes", false, bare(1, 100), 26);
    shift(
        out,
        b"on, more behind",
        false,
        naming(1, NAMED, 79_992_000),
        26,
    );
    shift(
        out,
        b"on, version 2",
        false,
        naming(2, NAMED, 79_999_990),
        26,
    );
    shift(out, b"40 before 20", false, bare(1, 9), 25);
    shift(out, b"41 before 20", false, bare(3, 100), 25);
}

fn moved_back(out: Stdout) {
    shift(out, b"back, 13 bytes", true, bare(2, 100), 13);
    shift(out, b"back, 14 bytes", true, bare(2, 100), 14);
    shift(out, b"back, version 1", true, bare(1, 100), 14);
    shift(
        out,
        b"back, more behind",
        true,
        naming(1, NAMED, 79_992_000),
        14,
    );
}

fn not_moved_back(out: Stdout) {
    shift(out, b"back, MT123456", true, naming(2, NAMED, CLOCK), 14);
    shift(
        out,
        b"back, clock 79999999",
        true,
        naming(2, 0, 79_999_999),
        14,
    );
    shift(
        out,
        b"back, clock 80000001",
        true,
        naming(2, 0, 80_000_001),
        14,
    );
    shift(out, b"42 before 20", true, naming(2, NAMED, CLOCK), 13);
    shift(out, b"40 before 42", true, head_of(2, 9, NAMED, CLOCK), 13);
    shift(out, b"41 before 20", true, bare(3, 100), 13);
}

pub(crate) fn heads_moved(out: Stdout) {
    moved_on(out);
    moved_back(out);
    not_moved_back(out);
}
