// The refusals of document 01's 'Turning away, by place', and of document 02's tickets, each once with its number: the source's error where it has
// one, and the document's words.
#![tactic(auto)]

ghost use Rattle.std.specs.Prelude.{◌≡◌, if◌then◌else◌};
ghost use Rattle.refusals.specs.Number.{number, refusal_in};

#[derive(Clone, Copy, Debug, PartialEq, Eq)]
pub enum Refusal {
    // No whole mark; body cut.
    NoRecord = 1,
    // Unknown mark.
    UnknownMark = 2,
    // Out of order.
    OutOfOrder = 3,
    // A field outside its values; of a library call, a session field or argument outside them, or a phase above 7.
    BadField = 4,
    // InvalidSchedule: reveal_end, window and deadline that do not go together, or min_reveals below 2.
    InvalidSchedule = 5,
    // ZeroAmount, in a header or an order: max_cash 0, escrow 0, revealed with limit or qty 0, unrevealed with either not 0.
    ZeroFigure = 6,
    // BookFull, of orders: the seventeenth.
    OrdersFull = 7,
    // DuplicateOrder: owner seen.
    DuplicateOrder = 8,
    // Over 16 orders or 24 fills, band above 10,000, forced with a reserve, reveal_end + window outside 64 bits.
    OverLimit = 9,
    // WrongPhase: phase.
    WrongPhase = 10,
    // OutsideWindow: window; of an exercise, at or after rofr end.
    OutsideWindow = 11,
    // NoOrder: no such order.
    NoOrder = 12,
    // WrongSide: side.
    WrongSide = 13,
    // NotRevealed: not revealed.
    NotRevealed = 14,
    // AlreadyScreened: screened.
    AlreadyScreened = 15,
    // ScreeningPending: a revealed order unscreened.
    ScreeningPending = 16,
    // MathOverflow: volume above 64 bits; of a finish, volume sum unfit.
    MathOverflow = 17,
    // BookFull, of fills: a fill due with 24 held; of an exercise, 24 held.
    FillsFull = 18,
    // NotRofrAuthority: not the authority; of a close, neither authority nor rofr end reached.
    NotRofrAuthority = 19,
    // ZeroAmount, in an exercise: qty 0.
    ZeroPurchase = 20,
    // NoFill: no fill; of an exercise, or already rofr or settled.
    NoFill = 21,
    // RofrExceedsFill: qty above the fill.
    RofrExceedsFill = 22,
    // FillSettled: settled.
    FillSettled = 23,
    // FillSettleable: reason 0.
    FillSettleable = 24,
    // FillsPending: a fill unsettled.
    FillsPending = 25,
    // Whole input above 65,536 bytes.
    InputTooLong = 26,
    // Listing longer than the output; lines longer than their part.
    OutputTooSmall = 27,
    // InvalidInput: total > 0 with sum 0.
    InvalidInput = 28,
    // OverAllocation: total above sum.
    OverAllocation = 29,
    // Over 16 entries or lent slices of unequal length.
    BadLength = 30,
    // BidExceedsEscrow, AskExceedsEscrow: an uncovered order.
    ExceedsEscrow = 31,
}

// The number that refuses, or 0: for answers across the C boundary and for lists of numbers.
pub fn number_of(answer: Result<(), Refusal>) -> u8
    ensures { result ≡ refusal_in answer }
{
    match answer {
        Ok(()) => 0,
        Err(refusal) => refusal.number(),
    }
}

impl Refusal {
    pub fn number(self) -> u8
        ensures { result ≡ number self }
    {
        self as u8
    }

    // One check: refuses unless the test holds.
    pub fn unless(self, test: bool) -> Result<(), Refusal>
        ensures { result ≡ (if test then Ok tt else Err self) }
    {
        if test { Ok(()) } else { Err(self) }
    }
}
