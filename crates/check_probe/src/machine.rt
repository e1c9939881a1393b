// The room for the words and the numbers of a line.
use super::answer;
use super::lent::Lent;
use super::line::{CENTRAL_LENGTH, END, Memory, Next, Numbers, PERIPHERAL_LENGTH, Position};

#[derive(Drop)]
pub(crate) struct Machine {
    central: [u64; 131073],
    peripheral: [u16; 45056],
    numbers: Numbers,
}

// Puts a word into a memory of which the line lends so many words; None if the address is past them.
fn put_word<T: Copy>(words: &mut [T], length: u64, address: u64, word: T) -> Option<()> {
    if length <= address {
        return None;
    }
    *words.get_mut(address as usize)? = word;
    Some(())
}

impl Machine {
    pub(crate) fn new() -> Machine {
        Machine {
            central: [0; 131073],
            peripheral: [0; 45056],
            numbers: [0; END],
        }
    }

    fn put_word(&mut self, memory: Memory, address: u64, word: u64) -> Option<()> {
        match memory {
            Memory::Central => put_word(
                &mut self.central,
                self.numbers[CENTRAL_LENGTH],
                address,
                word,
            ),
            Memory::Peripheral => {
                let word = u16::try_from(word).ok()?;
                put_word(
                    &mut self.peripheral,
                    self.numbers[PERIPHERAL_LENGTH],
                    address,
                    word,
                )
            }
        }
    }

    // Takes the number n of a line that has come to this position, and gives the next position; None if no line goes on so.
    pub(crate) fn take(&mut self, position: Position, n: u64) -> Option<Position> {
        match position.next {
            Next::Number(place) => {
                *self.numbers.get_mut(place)? = n;
                position.after_number(place, n)
            }
            Next::Address(memory) => Some(position.at_word(memory, n)),
            Next::Word(memory, address) => {
                self.put_word(memory, address, n)?;
                Some(position.after_word(memory))
            }
        }
    }

    // Makes the call of a complete line, writes its answer, and leaves the memories zero for the next line.
    pub(crate) fn answer(&mut self, output: &impl Print) -> Option<()> {
        let c = self.numbers[CENTRAL_LENGTH] as usize;
        let p = self.numbers[PERIPHERAL_LENGTH] as usize;
        let mut lent = Lent {
            central: self.central.get_mut(..c)?,
            peripheral: self.peripheral.get_mut(..p)?,
            numbers: &mut self.numbers,
        };
        let given = lent.call()?;
        answer::write(output, given, &lent);
        lent.central.fill(0);
        lent.peripheral.fill(0);
        Some(())
    }
}
