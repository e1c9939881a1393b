// Central stops 1 to 5, 7 and 8, and peripheral stops 31 to 36. A record holds 0 for a processor that runs.
ghost use Rattle.std.specs.Prelude.{◌≡◌};
ghost use Rattle.base_outcome.specs.Numbers.{central_stop_number, peripheral_stop_number};

// Why the central processor stopped.
#[derive(Clone, Copy, Debug, PartialEq, Eq)]
pub enum CentralStop {
    // Code 00.
    Halt = 1,
    // An operand outside the field, with the EM bit 010000.
    OperandOutside = 2,
    // A fetch, or the target of 010, outside the field.
    FetchOutside = 3,
    // A code left out, or 01 with i not 0.
    UnfitCode = 4,
    // A 30-bit code begun in the last parcel.
    LastParcel = 5,
    // An infinite operand of a floating code, with the EM bit 020000.
    InfiniteOperand = 7,
    // An indefinite operand of a floating code, with the EM bit 040000.
    IndefiniteOperand = 8,
}

impl CentralStop {
    pub fn number(self) -> u64
        ensures { result ≡ central_stop_number self }
    {
        self as u64 // 1 to 5, 7, 8
    }
}

// Why a peripheral processor stopped.
#[derive(Clone, Copy, Debug, PartialEq, Eq)]
pub enum PeripheralStop {
    // The central address of 60 or 62 at or past the end.
    CentralAddress = 31,
    // No such channel, or 72, 74 to 77 on channel 14.
    NoChannel = 32,
    // Package faults 9, 10 and 11 of 26.
    PackagePastEnd = 33,
    StrayBits = 34,
    FieldPastEnd = 35,
    // A code left out.
    UnfitCode = 36,
}

impl PeripheralStop {
    pub fn number(self) -> u64
        ensures { result ≡ peripheral_stop_number self }
    {
        self as u64
    }
}
