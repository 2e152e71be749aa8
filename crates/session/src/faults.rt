// What a session refuses a line for: faults of its own, and the faults of bays and numbers, carried whole.
ghost use Rattle.std.specs.Prelude.{◌≡◌};
ghost use Rattle.session.specs.Refusals.{refused_line};
ghost use Rattle.session.specs.declared.faults.SessionFault.TheVariants.{Bay, Number, NoReading};
ghost use Rattle.session.specs.Carried.{carried_call};

use plan::numbers::NumberFault;
use plan::refusals::{Layer, Refusal};
use stand::records::{BayFault, StandFault};
use text::Unreadable;

#[derive(Clone, Copy, Debug, PartialEq, Eq)]
pub enum SessionFault {
    Number(NumberFault),
    Bay(BayFault),
    // a line that does not read
    NoReading(Unreadable),
    // a reply buffer that is too short
    ShortBuffer,
    // a command before any plan
    NoPlan,
    // a plan, or a cut, out of turn
    OutOfTurn,
}

// A refused line: the fault, and the number of the line.
#[derive(Clone, Copy, Debug, PartialEq, Eq)]
pub struct RefusedLine {
    pub fault: SessionFault,
    pub line: u32,
}

impl From<SessionFault> for Refusal {
    ghost from_gives = { λ e r. r ≡ refused_line e };

    fn from(e: SessionFault) -> Refusal {
        let (cause, layer, place) = match e {
            SessionFault::Number(fault) => return fault.into(),
            SessionFault::Bay(fault) => return fault.into(),
            SessionFault::NoReading(unreadable) => (12, Layer::Text, unreadable.position),
            SessionFault::ShortBuffer => (13, Layer::Memory, 96),
            SessionFault::NoPlan => (23, Layer::Text, 1),
            SessionFault::OutOfTurn => (24, Layer::Text, 1),
        };
        Refusal {
            cause,
            layer,
            place,
        }
    }
}

// Each `From` is written out, since clauses name the case that `?` makes, which no derive promises.
impl From<NumberFault> for SessionFault {
    ghost from_gives = { λ e r. r ≡ Number e };

    fn from(e: NumberFault) -> SessionFault {
        SessionFault::Number(e)
    }
}

impl From<BayFault> for SessionFault {
    ghost from_gives = { λ e r. r ≡ Bay e };

    fn from(e: BayFault) -> SessionFault {
        SessionFault::Bay(e)
    }
}

impl From<StandFault> for SessionFault {
    ghost from_gives = { λ e r. r ≡ carried_call e };

    fn from(e: StandFault) -> SessionFault {
        match e {
            StandFault::Number(fault) => fault.into(),
            StandFault::Bay(fault) => fault.into(),
        }
    }
}

impl From<Unreadable> for SessionFault {
    ghost from_gives = { λ e r. r ≡ NoReading e };

    fn from(e: Unreadable) -> SessionFault {
        SessionFault::NoReading(e)
    }
}
