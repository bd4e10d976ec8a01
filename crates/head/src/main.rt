// Writes a capture head to standard output from the words of its command: of version 1 from four, of version 2 from six. BITS is 2x24
// or 2x16 where there are two channels. A word that is none of those allowed is named on standard error, and nothing is written.
#![tactic(auto)]

mod words; // words.rt: the words of the command

ghost use Rattle.std.specs.Prelude.{◌≡◌, ◌⊎◌, true};
ghost use Rattle.heads.specs.Head.{head_bytes, allowed_head};
ghost use Rattle.headwords.specs.Words.{Fit};
ghost use Rattle.head.specs.Command.{worded_of};

use heads::Head;
use headwords::BadWord;
use streams::Streams;
use words::Words;

// Writes a head's bytes. The head is there for the contract alone, which says whose they are.
fn write_bytes(io: &mut Streams, h: Head, bytes: &[u8])
    requires { (allowed_head h ≡ true) × (bytes.now ≡ head_bytes h) }
{
    if let Err(e) = io.write_all(bytes) {
        io.fail(b"head: the head could not be written", e);
    }
}

fn write_whole(io: &mut Streams, h: Head)
    requires { allowed_head h ≡ true }
{
    let mut out = [0u8; 26];
    // a head that may be written is not refused in 26 bytes
    heads::write_head(h, &mut out).unwrap();
    if h.version == 2 {
        write_bytes(io, h, &out);
    } else {
        write_bytes(io, h, &out[..14]);
    }
}

fn say(io: &mut Streams, line: &[u8]) {
    let _ = io.report(line);
}

// The line that says what a word has to be.
fn line_of(bad: BadWord) -> &'static [u8] {
    match bad {
        BadWord::Divisor => b"head: D is a whole number from 10 to 625\n",
        BadWord::Frequency =>
            b"head: HZ is a whole number from 100000 to 34000000 or from 140000000 to 150000000\n",
        BadWord::Bits => b"head: BITS is 24 or 16, or 2x24 or 2x16 where there are two channels\n",
        BadWord::Size => b"head: SIZE is large or small\n",
        BadWord::Serial => b"head: SERIAL is eight of A-Z, 0-9, or - where it is not known\n",
        BadWord::Clock => b"head: CLOCK is a whole number from 79992000 to 80008000\n",
    }
}

// What four words come to, or six.
fn worded(count: usize, words: &Words) -> Result<Head, BadWord>
    requires { (count ≡ 5) ⊎ (count ≡ 7) }
    ensures { (result ≡ worded_of count words.now) × Fit result }
{
    let d = words.d.as_slice();
    let hz = words.hz.as_slice();
    let bits = words.bits.as_slice();
    let size = words.size.as_slice();
    if count == 7 {
        let serial = words.serial.as_slice();
        let clock = words.clock.as_slice();
        return headwords::named(d, hz, bits, size, serial, clock);
    }
    headwords::plain(d, hz, bits, size)
}

// Writes the head that words came to, or says which word is none of those allowed, and what is. The words and their number are there
// for the contract alone, which says whose head it is.
fn answer(io: &mut Streams, count: usize, words: &Words, worded: Result<Head, BadWord>)
    requires { Fit worded × (worded ≡ worded_of count words.now) }
{
    match worded {
        Ok(h) => write_whole(io, h),
        Err(bad) => say(io, line_of(bad)),
    }
}

// The program's own name counts among its words.
fn main(rt: HostRuntime) {
    let mut io = Streams::new(rt.stdin(), rt.stdout(), rt.stderr());
    let count = words::count_of(&rt);
    if count == 5 || count == 7 {
        let words = Words::of(&rt);
        answer(&mut io, count, &words, worded(count, &words));
    } else {
        say(&mut io, b"usage: head D HZ BITS SIZE [SERIAL CLOCK]\n");
    }
}
