// The causes of refusal, each with its number in documents 01 and 02.
ghost use Rattle.std.specs.Prelude.{◌≡◌};
ghost use Rattle.refusal.specs.Cause.{number, code, Judged, refused_if, answer_word};

#[derive(Clone, Copy, PartialEq, Eq)]
pub enum Cause {
    SheetForm,
    StationCount,
    Thresholds,
    StationNumber,
    Value,
    MarkBeyond,
    StationState,
    Length,
    ChainLeaves,
    ChainRepeats,
    RecordForm,
    UnmarkedSender,
    Duplicate,
    TooManyRecords,
    Width,
    Seed,
    Offer,
}

// What judging gives: nothing against it, or a cause.
pub type Verdict = Result<(), Cause>;

impl Cause {
    // Its number in the documents.
    pub fn number(self) -> u8
        ensures { result ≡ number self }
    {
        match self {
            Cause::SheetForm => 1,
            Cause::StationCount => 2,
            Cause::Thresholds => 3,
            Cause::StationNumber => 4,
            Cause::Value => 5,
            Cause::MarkBeyond => 6,
            Cause::StationState => 7,
            Cause::Length => 8,
            Cause::ChainLeaves => 9,
            Cause::ChainRepeats => 10,
            Cause::RecordForm => 11,
            Cause::UnmarkedSender => 12,
            Cause::Duplicate => 13,
            Cause::TooManyRecords => 14,
            Cause::Width => 15,
            Cause::Seed => 16,
            Cause::Offer => 17,
        }
    }
}

// Refused by the cause if the test holds.
pub fn refused_if(test: bool, cause: Cause) -> Verdict
    ensures { Judged (refused_if test cause) result }
{
    if test { Err(cause) } else { Ok(()) }
}

// An answer's number, whatever it gives: the cause's, or 0 where nothing is refused.
pub fn code<A: Copy>(answer: Result<A, Cause>) -> u8
    ensures { result ≡ code answer }
{
    match answer {
        Ok(_) => 0,
        Err(cause) => cause.number(),
    }
}

// For C: a number of the documents in the highest byte, above the values of an answer, of which there are seven bytes.
pub fn answer(number: u8, values: u64) -> u64
    ensures { result ≡ answer_word number values }
{
    72057594037927936 * (number as u64) + values % 72057594037927936
}
