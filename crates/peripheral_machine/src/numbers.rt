// The machine's record, but for the central processor's 24 registers, as 84 numbers. Turns read and write it in place.
ghost use Rattle.std.specs.Prelude.{◌≡◌, ◌<◌};
ghost use Rattle.peripheral_machine.specs.Numbers.{processor_of, advanced, stopped, flag, channel_of, with_channel, central_of, central_p, central_bounds, central_stop, clock_of, with_clock, with_controls};

use base_outcome::stop::PeripheralStop;
use central_field::address::Bounds;
use central_record::record::Central;
use peripheral_channel::record::Channel;

// The record of a peripheral processor.
#[derive(Clone, Copy, Debug, PartialEq, Eq)]
pub struct Processor {
    pub p: u64,
    pub a: u64,
    // 0 while the processor runs, else its stop's number.
    // Kept: a number and no `Option` of a stop, since a host may lend any, and number 5 is the test of it (`processor_fits` of
    // whole_record).
    pub stop: u64,
}

// The first place of each register of the ten peripheral processors, and of each part of the twelve channels.
const P: usize = 0;

const A: usize = 10;

const STOP: usize = 20;

const ACTIVE: usize = 30;

const FULL: usize = 42;

const MARK: usize = 54;

const WORD: usize = 66;

// The places of the central processor and of the clock.
const CENTRAL_P: usize = 78;

const CENTRAL_RA: usize = 79;

const CENTRAL_FL: usize = 80;

const CENTRAL_EM: usize = 81;

const CENTRAL_STOP: usize = 82;

const CLOCK: usize = 83;

// The numbers, by place.
// Kept: numbers by place and no arrays of structs, since the definitions of a turn are of this list (`processor_of`, `channel_of` and the
// others of specs/Numbers.antt), and `record-again` of whole_record says that the record loses nothing in it.
#[derive(Clone, Copy)]
pub struct Numbers {
    pub places: [u64; 84],
}

impl Numbers {
    pub fn processor(&self, n: usize) -> Processor
        requires { n < 10 }
        ensures { result ≡ processor_of self.now.places n }
    {
        Processor {
            p: self.places[P + n],
            a: self.places[A + n],
            stop: self.places[STOP + n],
        }
    }

    // The new P and A of a processor.
    pub(crate) fn advance(&mut self, n: usize, p: u64, a: u64)
        requires { n < 10 }
        ensures { self.new.places ≡ advanced self.old.places n p a }
    {
        self.places[P + n] = p;
        self.places[A + n] = a;
    }

    pub(crate) fn stop(&mut self, n: usize, why: PeripheralStop)
        requires { n < 10 }
        ensures { self.new.places ≡ stopped self.old.places n why }
    {
        self.places[STOP + n] = why.number();
    }

    pub fn channel(&self, i: usize) -> Channel
        requires { i < 12 }
        ensures { result ≡ channel_of self.now.places i }
    {
        Channel {
            active: self.places[ACTIVE + i] == 1,
            full: self.places[FULL + i] == 1,
            mark: self.places[MARK + i] == 1,
            word: self.places[WORD + i],
        }
    }

    pub(crate) fn set_channel(&mut self, i: usize, c: Channel)
        requires { i < 12 }
        ensures { self.new.places ≡ with_channel self.old.places i c }
    {
        self.places[ACTIVE + i] = u64::from(c.active);
        self.places[FULL + i] = u64::from(c.full);
        self.places[MARK + i] = u64::from(c.mark);
        self.places[WORD + i] = c.word;
    }

    // The central processor's record, with its registers.
    pub fn central(&self, registers: &[u64; 24]) -> Central
        ensures { result ≡ central_of registers.now self.now.places }
    {
        let Bounds { ra, fl, em } = self.central_bounds();
        Central {
            p: self.central_p(),
            ra,
            fl,
            em,
            registers: *registers,
            stop: self.central_stop(),
        }
    }

    pub fn central_p(&self) -> u64
        ensures { result ≡ central_p self.now.places }
    {
        self.places[CENTRAL_P] // what 27 reads
    }

    pub fn central_bounds(&self) -> Bounds
        ensures { result ≡ central_bounds self.now.places }
    {
        Bounds {
            ra: self.places[CENTRAL_RA],
            fl: self.places[CENTRAL_FL],
            em: self.places[CENTRAL_EM],
        }
    }

    pub fn central_stop(&self) -> u64
        ensures { result ≡ central_stop self.now.places }
    {
        self.places[CENTRAL_STOP] // 0 while it runs
    }

    pub fn clock(&self) -> u64
        ensures { result ≡ clock_of self.now.places }
    {
        self.places[CLOCK]
    }

    pub fn set_clock(&mut self, clock: u64)
        ensures { self.new.places ≡ with_clock self.old.places clock }
    {
        self.places[CLOCK] = clock;
    }

    // P, RA, FL, EM and the stop of the central processor.
    pub fn set_controls(&mut self, p: u64, ra: u64, fl: u64, em: u64, stop: u64)
        ensures { self.new.places ≡ with_controls self.old.places p ra fl em stop }
    {
        self.places[CENTRAL_P] = p;
        self.places[CENTRAL_RA] = ra;
        self.places[CENTRAL_FL] = fl;
        self.places[CENTRAL_EM] = em;
        self.places[CENTRAL_STOP] = stop;
    }
}
