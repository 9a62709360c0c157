// The book of a session: its orders and fills, and what it was opened with.
#![tactic(auto)]

ghost use Rattle.std.specs.Prelude.{◌≡◌};
ghost use Rattle.book.specs.Book.{is_live, is_excluded, kind_fits, listed};

use credit_math::MAX_ORDERS;

pub mod claims;
pub mod clear;
mod gathered;

// The most fills of a session.
pub const MAX_FILLS: usize = 24;

// The highest exclusion kind.
pub const MAX_KIND: u8 = 8;

#[derive(Clone, Copy, Debug, Default, PartialEq, Eq)]
pub struct Order {
    pub owner: [u8; 32],
    // Buy 0, Sell 1.
    pub side: u8,
    // Cash of a buy, or notes of a sell, held by the rails.
    pub escrowed: u64,
    pub revealed: bool,
    pub limit: u64,
    pub qty: u64,
    // The lot at the clearing price, and what of it is in no fill yet.
    pub alloc: u64,
    pub alloc_left: u64,
    pub screened: bool,
    pub eligible: bool,
    // Why a screen excluded it: Blocklisted 1 to NotSeasoned 6, SelfTrade 7, InvestorCapExceeded 8; else 0.
    pub exclusion: u8,
    // Zeros where none is known.
    pub investor_id: [u8; 16],
}

#[derive(Clone, Copy, Debug, Default, PartialEq, Eq)]
pub struct Fill {
    pub buyer: [u8; 32],
    pub seller: [u8; 32],
    pub qty: u64,
    // A purchase of the issuer's, settled as it is made.
    pub rofr: bool,
    pub settled: bool,
}

// What a session is opened with.
#[derive(Clone, Copy, Debug, Default, PartialEq, Eq)]
pub struct Params {
    pub reveal_end: i64,
    pub rofr_window: i64,
    pub settle_deadline: i64,
    pub max_cash: u64,
    pub min_reveals: u8,
    pub forced: bool,
    // Zeros where there is none.
    pub rofr_authority: [u8; 32],
}

// What the mark and the market give: numbers that stay on the chain otherwise.
#[derive(Clone, Copy, Debug, Default, PartialEq, Eq)]
pub struct Given {
    pub mark: bool,
    pub reserve: u64,
    pub reference: u64,
    // Public 0, Banded 1, AggregateOnly 2, DataRoom 3.
    pub policy: u8,
    pub band_bps: u64,
}

// An order as a session file lists it.
#[derive(Clone, Copy, Debug, Default, PartialEq, Eq)]
pub struct Row {
    pub owner: [u8; 32],
    pub side: u8,
    pub escrowed: u64,
    pub revealed: bool,
    pub limit: u64,
    pub qty: u64,
}

impl From<Row> for Order {
    ghost from_gives = { λ row order. order ≡ listed row };

    // Not yet screened, with no lot.
    fn from(row: Row) -> Order {
        let owner = row.owner;
        Order {
            owner,
            side: row.side,
            escrowed: row.escrowed,
            revealed: row.revealed,
            limit: row.limit,
            qty: row.qty,
            alloc: 0,
            alloc_left: 0,
            screened: false,
            eligible: false,
            exclusion: 0,
            investor_id: [0; 16],
        }
    }
}

impl Order {
    // Takes part in the clear.
    #[tactic(auto, unfolding(crate::specs::Book::is_live))]
    pub fn is_live(&self) -> bool
        ensures { result ≡ is_live self.now }
    {
        self.revealed && self.screened && self.eligible
    }

    // Screened, and taking no part.
    #[tactic(auto, unfolding(crate::specs::Book::is_excluded))]
    pub fn is_excluded(&self) -> bool
        ensures { result ≡ is_excluded self.now }
    {
        self.screened & !self.eligible
    }

    // An excluded order has a kind, any other has none.
    #[tactic(auto, unfolding(crate::specs::Book::kind_fits))]
    pub fn kind_fits(&self) -> bool
        ensures { result ≡ kind_fits self.now }
    {
        (self.exclusion <= MAX_KIND) & ((self.exclusion != 0) == self.is_excluded())
    }
}
