// Participants, each once.
ghost use Rattle.std.specs.Prelude.{◌≡◌, ◌*◌, ◌<◌, [], length};
ghost use Rattle.book.specs.Limits.{max_fills};

use book::MAX_FILLS;
use std::marker::Model;

// Who traded: an investor, or a wallet that is none's.
#[derive(Clone, Copy, Debug, PartialEq, Eq)]
pub enum Participant {
    Investor([u8; 16]),
    Wallet([u8; 32]),
}

// Room for a buyer and a seller of each fill. A clause sees the participants, the latest first.
#[derive(Drop)]
pub struct Seen {
    all: [Participant; 2 * MAX_FILLS],
    count: usize,
}

impl Model for Seen {
    ghost use Rattle.std.specs.Prelude.{List, ◌≤◌, length, take, reverse};
    ghost use Rattle.investors.specs.declared.seen.Participant.{Participant};

    ghost Value = { List Participant };

    ghost view = { λ s. reverse (take s.count s.all) };

    ghost invariant = { λ s. s.count ≤ length s.all };
}

impl Seen {
    ghost use Rattle.investors.specs.Participants.{noted};

    pub fn new() -> Self
        ensures { result ≡ [] }
    {
        Seen {
            all: [Participant::Wallet([0; 32]); 2 * MAX_FILLS],
            count: 0,
        }
    }

    pub fn len(&self) -> usize
        ensures { result ≡ length self.now }
    {
        self.count
    }

    // One participant more, unless it was seen.
    #[tactic(auto, using(crate::proofs::Noting::contains_reverse, std::proofs::lemmas::Grind::common_steps))]
    pub(crate) fn note(&mut self, who: Participant)
        requires { length self.old < 2 * max_fills }
        ensures { self.new ≡ noted self.old who }
    {
        if !self.all[..self.count].contains(&who) {
            self.all[self.count] = who;
            self.count += 1;
        }
    }
}
