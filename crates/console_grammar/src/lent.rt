// What a reader of a console's input is lent.

// The memory and the lists that a whole input describes.
// Kept: their lengths are no fact of the type, since `feed` and `finish` take any and refuse with numbers 1 and 6 (`reader_verdict`).
#[derive(Drop)]
pub struct Lent<'a> {
    // The memory of all jobs.
    pub memory: &'a mut [u64],
    // The addresses of the jobs' records.
    pub jobs: &'a mut [u64],
    // The jobs of the stints, by number.
    pub stint_jobs: &'a mut [u64],
    // How many turns each stint has.
    pub stint_turns: &'a mut [u64],
}
