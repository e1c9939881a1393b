// The bytes of the input: numbers for the line, and an answer where a line ends.
use super::line::Position;
use super::machine::Machine;
use word_octal::read::{Fed, feed};

#[derive(Drop)]
pub(crate) struct Reader {
    digits: Option<u64>,
    position: Position,
    machine: Machine,
}

impl Reader {
    // At the start of a line.
    pub(crate) fn new() -> Reader {
        Reader {
            digits: None,
            position: Position::start(),
            machine: Machine::new(),
        }
    }

    // One number of the line, and the byte after it.
    fn take_number(&mut self, output: &impl Print, n: u64, byte: u8) -> Option<()> {
        self.digits = None;
        self.position = self.machine.take(self.position, n)?;
        if byte != b'\n' {
            return Some(());
        }
        if !self.position.is_complete() {
            return None;
        }
        self.position = Position::start();
        self.machine.answer(output)
    }

    fn take_byte(&mut self, output: &impl Print, byte: u8) -> Option<()> {
        match feed(self.digits, byte) {
            Fed::More(digits) => {
                self.digits = digits;
                Some(())
            }
            Fed::Number(n) => self.take_number(output, n, byte),
            Fed::Nothing | Fed::Unreadable => None,
        }
    }

    // Answers the lines that end in these bytes; None at the first line that is not readable.
    pub(crate) fn take_bytes(&mut self, output: &impl Print, bytes: &[u8]) -> Option<()> {
        for byte in bytes {
            self.take_byte(output, *byte)?;
        }
        Some(())
    }
}
