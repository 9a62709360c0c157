// What is said of a call or of a record: the source's events, in its names and order, and document 01's own lines.
#![tactic(auto)]

ghost use Rattle.std.specs.Prelude.{◌≡◌};

mod said;

pub use said::Events;

// The most events of one call: every fill, and the change of phase.
pub const MAX_EVENTS: usize = book::MAX_FILLS + 1;

// What any call may say.
pub type CallEvents = Events<MAX_EVENTS>;

// What a call says that makes no fills: smaller, and so cheaper to make and to move.
pub type FewEvents = Events<2>;

impl From<FewEvents> for CallEvents {
    ghost from_gives = { λ few all. all ≡ few };

    fn from(few: FewEvents) -> CallEvents {
        let mut all = CallEvents::none();
        for &event in few.as_slice() {
            all.push(event);
        }
        all
    }
}

#[derive(Clone, Copy, Debug, PartialEq, Eq)]
pub struct Print {
    pub price: u64,
    pub volume: u64,
    pub n_investor_ids: u64,
    pub forced_sale: bool,
    pub policy: u8,
    pub partial: bool,
}

// The source's events, from OrderScreened to PhaseChanged; and the lines of document 01's listing that are no event of the source.
#[derive(Clone, Copy, Debug, PartialEq, Eq)]
pub enum Event {
    // No event: `none` in a listing.
    Nothing,
    OrderScreened {
        order: u8,
        exclusion: u8,
    },
    Cleared {
        price: u64,
        volume: u64,
        reserve: u64,
        reference: u64,
    },
    SessionFailed(u8),
    FillAllocated {
        fill: u32,
        buy: u8,
        sell: u8,
        qty: u64,
    },
    RofrExercised {
        fill: u32,
        new: u32,
        qty: u64,
        price: u64,
    },
    RofrClosed(u64),
    FillSettled {
        fill: u32,
        qty: u64,
        price: u64,
    },
    FillSkipped {
        fill: u32,
        qty: u64,
        reason: u8,
    },
    ClearingPrint(Print),
    PhaseChanged {
        from: u8,
        to: u8,
    },
    // `open`: the header is accepted.
    Opened,
    // `order I`: an order is accepted, with its number.
    Ordered(u64),
    // `refused R`
    Refused(u8),
}
