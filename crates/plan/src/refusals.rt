// Refusals: every fault has a cause, a layer and a place, and turns into its refusal by `From`.
ghost use Rattle.std.specs.Prelude.{◌≡◌};
ghost use Rattle.plan.specs.Refusals.{refused_number};

use crate::numbers::NumberFault;

// The part of the product that refuses.
#[derive(Clone, Copy, Debug, PartialEq, Eq)]
pub enum Layer {
    Bay,
    Number,
    Text,
    Memory,
    Sheet,
}

#[derive(Clone, Copy, Debug, PartialEq, Eq)]
pub struct Refusal {
    // a number, as refusals are listed by it and print it; inside, a fault is a case of an enum
    pub cause: u32,
    pub layer: Layer,
    pub place: u32,
}

impl From<NumberFault> for Refusal {
    ghost from_gives = { λ e r. r ≡ refused_number e };

    fn from(e: NumberFault) -> Refusal {
        match e {
            NumberFault::OutsideLimits(position) => Refusal {
                cause: 2,
                layer: Layer::Number,
                place: position,
            },
            NumberFault::CountTooLarge => Refusal {
                cause: 3,
                layer: Layer::Number,
                place: 1,
            },
        }
    }
}
