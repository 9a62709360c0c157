// Calls: what a record says, and what is checked of a call's own arguments.
ghost use Rattle.std.specs.Prelude.{◌≡◌};
ghost use Rattle.refusals.specs.Number.{refusal_in};
ghost use Rattle.auction_engine.specs.Call.{arguments_refusal};
ghost use Rattle.auction_engine.specs.Engine.{RecordedCall};

use crate::{
    ALLOCATE, CLEAR, CLOSE, Call, CallRecord, EXERCISE, EXPIRE, FINISH, SCREEN, SETTLE, SKIP,
    screening,
};
use refusals::Refusal;

// A kind above 8 is an argument outside its values.
impl TryFrom<CallRecord> for Call {
    type Error = Refusal;

    ghost try_from_gives = { RecordedCall };

    #[tactic(auto, using(crate::proofs::Steps::steps), unfolding(crate::specs::Engine::call_of))]
    fn try_from(call: CallRecord) -> Result<Call, Refusal> {
        let id = call.id;
        let wallet = call.wallet;
        Ok(match call.kind {
            SCREEN => Call::Screen {
                now: call.now,
                order: call.order,
                side: call.side,
                verdict: call.verdict,
                has_id: call.has_id,
                id,
            },
            CLEAR => Call::Clear { now: call.now },
            ALLOCATE => Call::Allocate {
                now: call.now,
                max_fills: call.max_fills,
            },
            EXERCISE => Call::Exercise {
                now: call.now,
                issuer: wallet,
                fill: call.fill,
                qty: call.qty,
            },
            CLOSE => Call::Close {
                now: call.now,
                caller: wallet,
            },
            SETTLE => Call::Settle { fill: call.fill },
            SKIP => Call::Skip {
                now: call.now,
                fill: call.fill,
                reason: call.reason,
            },
            FINISH => Call::Finish { now: call.now },
            EXPIRE => Call::Expire { now: call.now },
            _ => return Err(Refusal::BadField),
        })
    }
}

impl Call {
    // 4 where a call's own arguments are outside their values: what ends a file.
    #[tactic(auto, unfolding(laws::specs::Checks::unless, crate::specs::Call::arguments_refusal))]
    pub fn arguments_refusal(&self) -> Result<(), Refusal>
        ensures { refusal_in result ≡ arguments_refusal self.now }
    {
        match self {
            Call::Screen {
                side,
                verdict,
                has_id,
                id,
                ..
            } => screening::arguments_refusal(*side, *verdict, *has_id, id),
            Call::Skip { reason, .. } => Refusal::BadField.unless(*reason <= 6),
            _ => Ok(()),
        }
    }
}
