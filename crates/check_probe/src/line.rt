// The numbers of one line:
// CALL ARG CW NC (address word)*NC PW NP (address word)*NP R0 .. R107 NJ job*NJ NS job*NS NT turns*NT
// Words go into the memories. All other numbers go into one array at the places below, where each list has all its room.
ghost use Rattle.std.specs.Prelude.{◌<◌, ◌≤◌};
ghost use Rattle.check_probe.specs.Room.{places};

use shared_limits::limits::{MOST_JOBS, MOST_STINTS};

// Lists that are too long are tried too: of jobs up to twice the limit, of stints one entry more.
pub(crate) const JOB_ROOM: usize = 2 * MOST_JOBS;

pub(crate) const STINT_ROOM: usize = MOST_STINTS + 1;

pub(crate) const CALL: usize = 0;

pub(crate) const ARGUMENT: usize = 1;

pub(crate) const CENTRAL_LENGTH: usize = 2;

const CENTRAL_COUNT: usize = 3;

pub(crate) const PERIPHERAL_LENGTH: usize = 4;

const PERIPHERAL_COUNT: usize = 5;
// The record: of the central processor P, RA, FL, EM, 24 registers and the stop, then the clock, the channels and the peripheral
// processors.
pub(crate) const RECORD: usize = 6;

pub(crate) const CLOCK: usize = 35;
// Of each channel the active flag, the full flag, the mark and the word.
pub(crate) const CHANNELS: usize = 36;

pub(crate) const JOB_COUNT: usize = 114;

pub(crate) const JOBS: usize = 115;

pub(crate) const STINT_COUNT: usize = JOBS + JOB_ROOM;

pub(crate) const STINTS: usize = STINT_COUNT + 1;

pub(crate) const TURN_COUNT: usize = STINTS + STINT_ROOM;

pub(crate) const TURNS: usize = TURN_COUNT + 1;
// One past the last place: the line is complete.
pub(crate) const END: usize = TURNS + STINT_ROOM;

pub(crate) type Numbers = [u64; END];

#[derive(Clone, Copy)]
pub(crate) enum Memory {
    Central,
    Peripheral,
}

// What the next number of a line is.
#[derive(Clone, Copy)]
pub(crate) enum Next {
    // The number at this place.
    Number(usize),
    // The address of a word.
    Address(Memory),
    // The word at the address that came before it.
    Word(Memory, u64),
}

// What comes next, and how many pairs or numbers of its list are left.
#[derive(Clone, Copy)]
pub(crate) struct Position {
    pub next: Next,
    left: u64,
}

impl Position {
    fn at(place: usize) -> Position {
        Position {
            next: Next::Number(place),
            left: 0,
        }
    }

    pub(crate) fn start() -> Position {
        Position::at(CALL)
    }

    pub(crate) fn is_complete(self) -> bool {
        matches!(self.next, Next::Number(END))
    }

    // The addresses and words of n pairs, or the place after them.
    fn pairs(memory: Memory, n: u64) -> Position {
        if n == 0 {
            return Position::at(match memory {
                Memory::Central => PERIPHERAL_LENGTH,
                Memory::Peripheral => RECORD,
            });
        }
        Position {
            next: Next::Address(memory),
            left: n,
        }
    }

    // The next n numbers of a list from this place on, or the place after the room of the list; None if there is no room for so many.
    fn list(place: usize, n: u64, after: usize) -> Option<Position>
        requires { place ≤ after }
    {
        if n == 0 {
            return Some(Position::at(after));
        }
        if ((after - place) as u64) < n {
            return None;
        }
        Some(Position {
            next: Next::Number(place),
            left: n,
        })
    }

    // After the number n at this place.
    pub(crate) fn after_number(self, place: usize, n: u64) -> Option<Position>
        requires { place < places }
    {
        let left = self.left.saturating_sub(1);
        match place {
            CENTRAL_COUNT => Some(Position::pairs(Memory::Central, n)),
            PERIPHERAL_COUNT => Some(Position::pairs(Memory::Peripheral, n)),
            JOB_COUNT => Position::list(JOBS, n, STINT_COUNT),
            JOBS..STINT_COUNT => Position::list(place + 1, left, STINT_COUNT),
            STINT_COUNT => Position::list(STINTS, n, TURN_COUNT),
            STINTS..TURN_COUNT => Position::list(place + 1, left, TURN_COUNT),
            TURN_COUNT => Position::list(TURNS, n, END),
            TURNS..END => Position::list(place + 1, left, END),
            _ => Some(Position::at(place + 1)),
        }
    }

    // After an address.
    pub(crate) fn at_word(self, memory: Memory, address: u64) -> Position {
        Position {
            next: Next::Word(memory, address),
            ..self
        }
    }

    // After a word.
    pub(crate) fn after_word(self, memory: Memory) -> Position {
        Position::pairs(memory, self.left.saturating_sub(1))
    }
}
