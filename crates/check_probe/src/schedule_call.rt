// The schedule of the three lists of the line.
use super::given::Given;
use super::lent::Lent;
use super::line::{
    CLOCK, END, JOB_COUNT, JOBS, Numbers, RECORD, STINT_COUNT, STINT_ROOM, STINTS, TURN_COUNT,
    TURNS,
};
use host_calls::schedule_call::tozhenab_schedule;

// The turns and the stop of each stint.
type Results = [[u64; 2]; STINT_ROOM];

impl Lent<'_> {
    // The turns and the stops of the stints replace the lists of the line.
    fn keep_stints(&mut self, results: &Results) {
        for (i, [turns, stop]) in results.iter().enumerate() {
            self.numbers[STINTS + i] = *turns;
            self.numbers[TURNS + i] = *stop;
        }
    }

    // A refused schedule has no stints.
    pub(crate) fn schedule(&mut self) -> Option<Given> {
        let numbers = &*self.numbers;
        let mut results = [[0; 2]; STINT_ROOM];
        let refusal = tozhenab_schedule(
            self.central,
            &numbers[RECORD..CLOCK],
            numbers[JOBS..STINT_COUNT].get(..numbers[JOB_COUNT] as usize)?,
            numbers[STINTS..TURN_COUNT].get(..numbers[STINT_COUNT] as usize)?,
            numbers[TURNS..END].get(..numbers[TURN_COUNT] as usize)?,
            results.as_flattened_mut(),
        );
        self.keep_stints(&results);
        if refusal != 0 {
            self.numbers[STINT_COUNT] = 0;
        }
        Some(Given::refusal(refusal))
    }
}
