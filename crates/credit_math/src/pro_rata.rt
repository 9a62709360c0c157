// Pro-rata: the shares, and the residue handed out by rank, so that nothing is sorted.
ghost use Rattle.std.specs.Prelude.{◌≡◌, ◌*◌, ◌<◌, ◌≤◌, ◌==◌, length, nat_lt, slice_index};
ghost use Rattle.laws.specs.Sums.{only, sum_of};
ghost use Rattle.laws.specs.Lists.{table};
ghost use Rattle.laws.specs.Lex.{lex};
ghost use Rattle.credit_math.specs.Limits.{max_orders};
ghost use Rattle.credit_math.specs.ProRata.{shares, remainders, residue};
ghost use Rattle.credit_math.specs.Ranks.{filled, rank, lot};

use crate::allocation::floor_share;
use wide::Wide;

// A total within the sum of at most 16 quantities, each with an id.
#[derive(Clone, Copy)]
pub(crate) struct Sharing<'a> {
    pub total: u64,
    pub sum: Wide,
    pub ids: &'a [u64],
    pub qtys: &'a [u64],
    pub ghost few: { length qtys.now ≤ max_orders },
    pub ghost ids_too: { length ids.now ≡ length qtys.now },
    pub ghost whole: { sum ≡ sum_of qtys.now },
    pub ghost within: { total ≤ sum },
}

impl Sharing<'_> {
    // Writes the lots.
    #[tactic(auto, using(crate::proofs::Shares::residue_le, crate::proofs::Allotting::handing_out))]
    pub(crate) fn write_lots(&self, out: &mut [u64])
        requires { length out.old ≡ length self.now.qtys.now }
        ensures { out.new ≡ table (lot self.now.ids.now self.now.qtys.now self.now.total) (length self.now.qtys.now) }
    {
        let left = self.write_shares(out);
        let mut given = 0;
        for i in 0..self.qtys.len() {
            // No rank is worked out when all units are given.
            if left <= given {
                break;
            }
            let unit = self.unit_of(left, i);
            out[i] += unit;
            given += unit;
        }
    }

    // Writes the shares, and answers what they leave of the total: that, times the sum, is all that the rounding took.
    #[tactic(auto, using(crate::proofs::Shares::share_le, crate::proofs::Allotting::sharing_out))]
    fn write_shares(&self, out: &mut [u64]) -> u64
        requires { length out.old ≡ length self.now.qtys.now }
        ensures shares { out.new ≡ shares self.now.qtys.now self.now.total }
        ensures left { result ≡ residue self.now.qtys.now self.now.total }
        ensures rounding { result * self.now.sum ≡ sum_of (remainders self.now.qtys.now self.now.total) }
    {
        let mut left = self.total;
        for i in 0..self.qtys.len() {
            let share = floor_share(self.total, self.qtys[i], self.sum)
                .quotient
                .words()
                .1;
            out[i] = share;
            left -= share;
        }
        left
    }

    // The unit of place i, where its turn comes while some are left. To a quantity of 0 none can fall, and no rank is worked out.
    #[tactic(auto, using(crate::proofs::Turns::empty_last, std::proofs::lemmas::Bool::Decides::nat_tests))]
    fn unit_of(&self, left: u64, i: usize) -> u64
        requires here { i < length self.now.qtys.now }
        requires left { left ≤ filled self.now.qtys.now }
        ensures { result ≡ only (nat_lt (rank self.now.ids.now self.now.qtys.now i) left) 1 }
    {
        if self.qtys[i] == 0 {
            return 0;
        }
        u64::from(self.rank_of(i) < left)
    }

    // How many places come before i.
    #[tactic(auto, using(laws::proofs::Sums::sum_none, laws::proofs::Sums::sum_more), unfolding(laws::specs::Sums::count, crate::specs::Ranks::before, crate::specs::Ranks::rank))]
    fn rank_of(&self, i: usize) -> u64
        requires { i < length self.now.qtys.now }
        ensures { result ≡ rank self.now.ids.now self.now.qtys.now i }
    {
        let (ids, qtys) = (self.ids, self.qtys);
        let mut rank = 0;
        for j in 0..qtys.len() {
            rank += u64::from(comes_before(qtys[j], ids[j], j, qtys[i], ids[i], i));
        }
        rank
    }
}

// The sum of at most 16 quantities.
#[tactic(auto, unfolding(laws::specs::Sums::sum_of))]
pub(crate) fn sum_of(qtys: &[u64]) -> Wide
    requires { length qtys.now ≤ max_orders }
    ensures { result ≡ sum_of qtys.now }
{
    let mut sum = Wide::from(0);
    for &qty in qtys {
        sum = sum.wrapping_add(qty);
    }
    sum
}

// Whether place j comes before place i: the larger quantity, then the lower id, then the earlier place.
fn comes_before(qty_j: u64, id_j: u64, j: usize, qty_i: u64, id_i: u64, i: usize) -> bool
    ensures { result ≡ lex qty_i qty_j (lex id_j id_i (nat_lt j i)) }
{
    below(qty_i, qty_j, below(id_j, id_i, j < i))
}

// Whether a is below b; where they are equal, as the rest says. Not the order of tuples: here both tests are made, since quantities come in any order, so
// that a branch is often guessed wrong.
#[tactic(auto, using(laws::proofs::Lex::lex_tests))]
fn below(a: u64, b: u64, rest: bool) -> bool
    ensures { result ≡ lex a b rest }
{
    (a < b) | ((a == b) & rest)
}
