// The lots of the two sides, laid end to end.
ghost use Rattle.std.specs.Prelude.{◌≡◌, if◌then◌else◌, ◌-◌, ◌<◌, ◌≤◌, ◌==◌, length};
ghost use Rattle.credit_math.specs.Limits.{max_orders};

// Sides.
const BUY: u8 = 0;

const SELL: u8 = 1;

// At most 16 lots in book order, each with its side.
#[derive(Clone, Copy)]
pub struct Lots<'a> {
    pub lots: &'a [u64],
    pub sides: &'a [u8],
    pub ghost few: { length lots.now ≤ max_orders },
    pub ghost sides_too: { length sides.now ≡ length lots.now },
}

// What is left of the lot in hand, and where the lots after it begin.
#[derive(Clone, Copy, Debug, PartialEq, Eq)]
struct Hand {
    left: u64,
    next: usize,
}

impl Lots<'_> {
    ghost use Rattle.fills.specs.FillCount.{fill_count};
    ghost use Rattle.fills.specs.Steps.{Taken, lot_on};

    // Lay each side's lots end to end from 0. A fill is what lies between one end of a lot, on either line, and the next: so it takes the smaller
    // of the two lots in hand off both, as the crank does, and no sum is ever formed. Where one line has run out, a fill is a whole lot.
    #[tactic(auto, using(crate::proofs::Hands::all_ahead, crate::proofs::Hands::fewer, crate::proofs::Hands::few, crate::proofs::Fills::no_fills), unfolding(crate::specs::Steps::fills_of))]
    pub fn counted(&self) -> u64
        ensures { result ≡ fill_count self.now.lots.now self.now.sides.now }
    {
        let mut buy = self.next_lot(BUY, 0);
        let mut sell = self.next_lot(SELL, 0);
        let mut count = 0;
        while (0 < buy.left) | (0 < sell.left) {
            let bought = less(buy.left, sell.left);
            let sold = less(sell.left, buy.left);
            buy = self.in_hand(BUY, bought, buy.next);
            sell = self.in_hand(SELL, sold, sell.next);
            count += 1;
        }
        count
    }

    // What is left of a lot; where nothing is, the side's next lot.
    fn in_hand(&self, side: u8, left: u64, next: usize) -> Hand
        requires { next ≤ length self.now.lots.now }
        ensures { Taken side self.now.lots.now self.now.sides.now (record { left = left; next = next }) result }
    {
        if left == 0 {
            self.next_lot(side, next)
        } else {
            Hand { left, next }
        }
    }

    // The side's next lot above 0 from a place on, if there is one.
    #[tactic(auto, using(crate::proofs::Hands::take_next, crate::proofs::Hands::nothing_ahead))]
    fn next_lot(&self, side: u8, next: usize) -> Hand
        requires { next ≤ length self.now.lots.now }
        ensures { Taken side self.now.lots.now self.now.sides.now (record { left = 0; next = next }) result }
    {
        let mut now = Hand { left: 0, next };
        for i in next..self.lots.len() {
            if now.left != 0 {
                return now;
            }
            now = Hand {
                left: self.lot_on(side, i),
                next: i + 1,
            };
        }
        now
    }

    // The lot of a place, if it is of that side.
    #[tactic(auto, unfolding(crate::specs::Steps::lot_on))]
    fn lot_on(&self, side: u8, i: usize) -> u64
        requires { i < length self.now.lots.now }
        ensures { result ≡ lot_on side self.now.lots.now self.now.sides.now i }
    {
        if self.sides[i] == side {
            self.lots[i]
        } else {
            0
        }
    }
}

// What a fill leaves of a lot, against the other side's; nothing where the other side has none.
fn less(lot: u64, other: u64) -> u64
    ensures { result ≡ (if other == 0 then 0 else lot - other) }
{
    if other == 0 {
        return 0;
    }
    lot.saturating_sub(other)
}
