// The refusals that the faults of a stand stand for, and a lower fault as a stand's.
ghost use Rattle.std.specs.Prelude.{◌≡◌};
ghost use Rattle.stand.specs.Calls.{bay_of};
ghost use Rattle.stand.specs.Refusals.{refused_bay, refused_call};
ghost use Rattle.stand.specs.declared.records.StandFault.TheVariants.{Bay, Number};

use crate::records::{BayFault, Call, StandFault};
use plan::numbers::NumberFault;
use plan::refusals::{Layer, Refusal};

impl Call {
    // The bay that a call names.
    pub fn bay(self) -> u32
        ensures { result ≡ bay_of self }
    {
        match self {
            Call::Open(bay) | Call::Read(bay) | Call::Clear(bay) => bay,
            Call::Take(bay, _) => bay,
        }
    }
}

impl From<BayFault> for Refusal {
    ghost from_gives = { λ e r. r ≡ refused_bay e };

    fn from(e: BayFault) -> Refusal {
        let (cause, place) = match e {
            BayFault::NoSuchBay(bay) => (1, bay),
            BayFault::Busy(bay) => (20, bay),
            BayFault::Empty(bay) => (21, bay),
            BayFault::Decided(bay) => (22, bay),
        };
        Refusal {
            cause,
            layer: Layer::Bay,
            place,
        }
    }
}

impl From<StandFault> for Refusal {
    ghost from_gives = { λ e r. r ≡ refused_call e };

    fn from(e: StandFault) -> Refusal {
        match e {
            StandFault::Number(fault) => fault.into(),
            StandFault::Bay(fault) => fault.into(),
        }
    }
}

// Each `From` is written out, since clauses name the case that `?` makes, which no derive promises.
impl From<NumberFault> for StandFault {
    ghost from_gives = { λ e r. r ≡ Number e };

    fn from(e: NumberFault) -> StandFault {
        StandFault::Number(e)
    }
}

impl From<BayFault> for StandFault {
    ghost from_gives = { λ e r. r ≡ Bay e };

    fn from(e: BayFault) -> StandFault {
        StandFault::Bay(e)
    }
}
