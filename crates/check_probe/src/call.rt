// Makes the call of a line on the memories and the record that it lends.
use super::given::Given;
use super::lent::Lent;
use super::line::{CALL, STINT_COUNT};

#[derive(Clone, Copy)]
enum Call {
    CentralTurn,
    Exchange,
    Schedule,
    PeripheralTurn,
    Run,
    Put,
    Take,
    Drop,
}

impl Call {
    // The call that has this number in a line.
    fn of(number: u64) -> Option<Call> {
        match number {
            1 => Some(Call::CentralTurn),
            2 => Some(Call::Exchange),
            3 => Some(Call::Schedule),
            4 => Some(Call::PeripheralTurn),
            5 => Some(Call::Run),
            6 => Some(Call::Put),
            7 => Some(Call::Take),
            8 => Some(Call::Drop),
            _ => None,
        }
    }
}

impl Lent<'_> {
    // The calls that give no stints.
    fn call_without_stints(&mut self, call: Call) -> Option<Given> {
        self.numbers[STINT_COUNT] = 0;
        match call {
            Call::CentralTurn => Some(self.central_turn()),
            Call::Exchange => Some(self.exchange()),
            Call::Schedule => None,
            Call::PeripheralTurn => Some(self.peripheral_turn()),
            Call::Run => Some(self.run()),
            Call::Put => self.put(),
            Call::Take => self.take(),
            Call::Drop => self.drop_channel(),
        }
    }

    // None for a line of no call that this program makes.
    pub(crate) fn call(&mut self) -> Option<Given> {
        match Call::of(self.numbers[CALL])? {
            Call::Schedule => self.schedule(),
            call => self.call_without_stints(call),
        }
    }
}
