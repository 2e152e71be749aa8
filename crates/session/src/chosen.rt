// The plan of a session: a line or a single plan, perhaps cut. Each is an enum of given cases and hands a question on to the
// case: a `dyn Plan` would need a box, and a session asks for no memory.
ghost use Rattle.std.specs.Prelude.{◌≡◌};
ghost use Rattle.session.specs.Plans.{base_meaning, chosen_meaning};
ghost use Rattle.session.specs.PlansLemmas.{base_lawful, chosen_lawful};

use plan::cut::Cut;
use plan::line::Line;
use plan::plans::Plan;
use plan::single::Single;

#[derive(Clone, Copy)]
pub enum Base {
    Line(Line),
    Single(Single),
}

// A session whose plan is not chosen yet has no stand. `Unchosen` stays for a stand that is set up before its plan is
// known, as it was promised: one size, at which every count is rejected.
#[derive(Clone, Copy)]
pub enum Chosen {
    Unchosen,
    Whole(Base),
    Cut(Cut<Base>),
}

impl Plan for Base {
    ghost meaning = { base_meaning };

    ghost lawful = { base_lawful };

    fn last_size(&self) -> u32 {
        match self {
            Base::Line(plan) => plan.last_size(),
            Base::Single(plan) => plan.last_size(),
        }
    }

    fn pair(&self, size: u32) -> Option<(i32, i32)> {
        match self {
            Base::Line(plan) => plan.pair(size),
            Base::Single(plan) => plan.pair(size),
        }
    }
}

impl Plan for Chosen {
    ghost meaning = { chosen_meaning };

    ghost lawful = { chosen_lawful };

    fn last_size(&self) -> u32 {
        match self {
            Chosen::Unchosen => 1,
            Chosen::Whole(plan) => plan.last_size(),
            Chosen::Cut(plan) => plan.last_size(),
        }
    }

    fn pair(&self, size: u32) -> Option<(i32, i32)> {
        match self {
            Chosen::Unchosen if size == 1 => Some((-1, 0)),
            Chosen::Unchosen => None,
            Chosen::Whole(plan) => plan.pair(size),
            Chosen::Cut(plan) => plan.pair(size),
        }
    }
}
