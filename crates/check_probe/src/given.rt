// What a call gives beside the memories, the record and the stints.
#[derive(Clone, Copy, Default)]
pub(crate) struct Given {
    // The number of the refusal, or 0.
    pub refusal: u64,
    // The rounds that a run made.
    pub count: u64,
    // What a take gave.
    pub word: u64,
    pub mark: u64,
}

impl Given {
    pub(crate) fn refusal(refusal: u64) -> Given {
        Given {
            refusal,
            ..Given::default()
        }
    }
}
