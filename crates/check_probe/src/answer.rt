// Writes the answer of a call: REFUSAL COUNT WORD MARK NC (address word)*NC NP (address word)*NP R0 .. R107 NS (turns stop)*NS
ghost use Rattle.std.specs.Prelude.{◌≡◌, ◌≤◌, ◌+◌};

use super::given::Given;
use super::lent::Lent;
use super::line::{JOB_COUNT, Numbers, RECORD, STINT_COUNT, STINTS, TURNS};
use shared_limits::limits::MOST_STINTS;
use word_octal::write::Writer;

const ROOM: usize = 4096;

// A write that fails is passed over: the comparison with the expected output finds what is missing.
pub(crate) fn write_all(output: &impl Print, bytes: &[u8]) {
    let _ = output.write_all(bytes);
}

// The text of a line, which is sent whenever there is no room for a further number.
// Kept: the length stands beside the bytes, since memory is fixed and there is no Vec.
#[derive(Drop)]
struct Text<'a, P: Print> {
    output: &'a P,
    bytes: [u8; ROOM],
    length: usize,
    ghost in_room: { length ≤ 4096 },
}

impl<'a, P: Print> Text<'a, P> {
    fn new(output: &'a P) -> Text<'a, P> {
        Text {
            output,
            bytes: [0; ROOM],
            length: 0,
        }
    }

    fn send(&mut self)
        ensures { self.new.length ≡ 0 }
    {
        write_all(self.output, &self.bytes[..self.length]);
        self.length = 0;
    }

    // Room for a space and 22 digits.
    fn make_room(&mut self)
        ensures { self.new.length + 23 ≤ 4096 }
    {
        if ROOM - self.length < 23 {
            self.send();
        }
    }

    fn put_byte(&mut self, byte: u8)
        requires { self.old.length + 1 ≤ 4096 }
        ensures { self.new.length ≡ self.old.length + 1 }
    {
        self.bytes[self.length] = byte;
        self.length += 1;
    }

    fn put_digits(&mut self, n: u64)
        requires { self.old.length + 22 ≤ 4096 }
    {
        let mut writer = Writer {
            out: &mut self.bytes,
            at: self.length,
        };
        writer.octal(n);
        self.length = writer.at;
    }

    fn put_first(&mut self, n: u64) {
        self.make_room();
        self.put_digits(n);
    }

    // A space and the number.
    fn put(&mut self, n: u64) {
        self.make_room();
        self.put_byte(b' ');
        self.put_digits(n);
    }

    // How many words are not zero, then the address of each and the word.
    fn put_words<T: Copy + Into<u64>>(&mut self, words: &[T]) {
        self.put(words.iter().filter(|w| (**w).into() != 0).count() as u64);
        for (address, word) in words.iter().enumerate() {
            let word = (*word).into();
            if word != 0 {
                self.put(address as u64);
                self.put(word);
            }
        }
    }

    // How many stints there are, then the turns and the stop of each. An answer has no more stints than a schedule,
    // but the array does not say so.
    fn put_stints(&mut self, numbers: &Numbers) {
        let n = numbers[STINT_COUNT].min(MOST_STINTS as u64) as usize;
        self.put(n as u64);
        let stops = &numbers[TURNS..];
        for (turns, stop) in numbers[STINTS..].iter().zip(stops).take(n) {
            self.put(*turns);
            self.put(*stop);
        }
    }

    fn end_line(&mut self) {
        self.make_room();
        self.put_byte(b'\n');
        self.send();
    }
}

pub(crate) fn write(output: &impl Print, given: Given, lent: &Lent) {
    let numbers = &*lent.numbers;
    let mut text = Text::new(output);
    text.put_first(given.refusal);
    text.put(given.count);
    text.put(given.word);
    text.put(given.mark);
    text.put_words(lent.central);
    text.put_words(lent.peripheral);
    for n in &numbers[RECORD..JOB_COUNT] {
        text.put(*n);
    }
    text.put_stints(numbers);
    text.end_line();
}
