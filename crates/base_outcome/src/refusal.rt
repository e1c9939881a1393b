// Refusals 1 to 16, and the number of a verdict. A verdict on a call is a `Result<(), Refusal>`.
ghost use Rattle.std.specs.Prelude.{◌≡◌};
ghost use Rattle.base_outcome.specs.Numbers.{refusal_number, verdict_number};

// Why a call is not carried out.
#[derive(Clone, Copy, Debug, PartialEq, Eq)]
pub enum Refusal {
    // The host's: what it lends.
    CentralLength = 1,
    PeripheralLength = 2,
    CentralWord = 3,
    PeripheralWord = 4,
    RecordValue = 5,
    // The schedule writer's.
    ListLength = 6,
    UnlistedJob = 7,
    TooManyTurns = 8,
    // The package owner's.
    PackagePastEnd = 9,
    StrayBits = 10,
    FieldPastEnd = 11,
    SharedWord = 12,
    // The device's.
    DeviceWord = 13,
    PutUnmet = 14,
    TakeUnmet = 15,
    // The console's.
    UnreadableLine = 16,
}

impl Refusal {
    pub fn number(self) -> u64
        ensures { result ≡ refusal_number self }
    {
        self as u64
    }
}

// 0 where the call is carried out.
pub fn verdict_number(verdict: Result<(), Refusal>) -> u64
    ensures { result ≡ verdict_number verdict }
{
    match verdict {
        Ok(()) => 0,
        Err(refusal) => refusal.number(),
    }
}
