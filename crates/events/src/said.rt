// Events in their order, at most N of them.
ghost use Rattle.std.specs.Prelude.{◌≡◌, if◌then◌else◌, [], ◌∷◌, ◌++◌, ◌≤◌, nat_lt, length};

use crate::Event;
use std::marker::Model;

// A clause sees the events alone. The places after them hold `Opened`.
#[derive(Clone, Copy)]
pub struct Events<const N: usize> {
    lines: [Event; N],
    count: usize,
}

impl<const N: usize> Model for Events<N> {
    ghost use Rattle.std.specs.Prelude.{◌≡◌, List, ◌++◌, ◌-◌, ◌≤◌, length, take, replicate};
    ghost use Rattle.events.specs.declared.Event.{Event};
    ghost use Rattle.events.specs.declared.Event.TheVariants.{Opened};

    ghost Value = { List Event };

    ghost view = { λ e. take e.count e.lines };

    ghost invariant = { λ e. (e.count ≤ N) × (length e.lines ≡ N) × (e.lines ≡ take e.count e.lines ++ replicate (N - e.count) Opened) };

    ghost inverse = { λ l. record { lines = l ++ replicate (N - length l) Opened; count = length l } };
}

impl<const N: usize> Events<N> {
    pub fn none() -> Self
        ensures { result ≡ [] }
    {
        Events {
            lines: [Event::Opened; N],
            count: 0,
        }
    }

    pub fn as_slice(&self) -> &[Event]
        ensures all { result.now ≡ self.now }
        ensures few { length self.now ≤ N }
    {
        &self.lines[..self.count]
    }

    // One more, where there is room.
    pub fn push(&mut self, event: Event)
        ensures { self.new ≡ (if nat_lt (length self.old) N then self.old ++ event ∷ [] else self.old) }
    {
        if self.count < N {
            self.lines[self.count] = event;
            self.count += 1;
        }
    }
}

impl Events<2> {
    pub fn one(event: Event) -> Self
        ensures { result ≡ event ∷ [] }
    {
        Events {
            lines: [event, Event::Opened],
            count: 1,
        }
    }

    pub fn two(first: Event, second: Event) -> Self
        ensures { result ≡ first ∷ second ∷ [] }
    {
        Events {
            lines: [first, second],
            count: 2,
        }
    }
}
