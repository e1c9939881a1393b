// The calls on the whole machine: a turn of a peripheral processor and a run.
use super::given::Given;
use super::lent::Lent;
use super::line::{ARGUMENT, JOB_COUNT, RECORD};
use host_calls::machine_calls::{tozhenab_peripheral_turn, tozhenab_run};

impl Lent<'_> {
    pub(crate) fn peripheral_turn(&mut self) -> Given {
        let processor = self.numbers[ARGUMENT];
        let numbers = &mut *self.numbers;
        let record = &mut numbers[RECORD..JOB_COUNT];
        Given::refusal(tozhenab_peripheral_turn(self.central, self.peripheral, record, processor))
    }

    pub(crate) fn run(&mut self) -> Given {
        let rounds = self.numbers[ARGUMENT];
        let numbers = &mut *self.numbers;
        let record = &mut numbers[RECORD..JOB_COUNT];
        let mut made = [0; 1];
        let refusal = tozhenab_run(self.central, self.peripheral, record, rounds, &mut made);
        Given {
            count: made[0],
            ..Given::refusal(refusal)
        }
    }
}
