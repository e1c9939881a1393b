// The calls on the central processor alone: a turn and an exchange.
use super::given::Given;
use super::lent::Lent;
use super::line::{ARGUMENT, CLOCK, RECORD};
use host_calls::central_calls::{tozhenab_central_turn, tozhenab_exchange};

impl Lent<'_> {
    pub(crate) fn central_turn(&mut self) -> Given {
        let numbers = &mut *self.numbers;
        let record = &mut numbers[RECORD..CLOCK];
        Given::refusal(tozhenab_central_turn(self.central, record))
    }

    pub(crate) fn exchange(&mut self) -> Given {
        let address = self.numbers[ARGUMENT];
        let numbers = &mut *self.numbers;
        let record = &mut numbers[RECORD..CLOCK];
        Given::refusal(tozhenab_exchange(self.central, record, address))
    }
}
