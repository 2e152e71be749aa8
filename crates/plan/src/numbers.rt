// Checked records of plan numbers, one for each make: every record that exists lies within the limits.
ghost use Rattle.plan.specs.Limits.{Within, max_size, max_acceptance, max_intercept, max_slope};

pub mod checks;

// A number that was sent and is not taken.
#[derive(Clone, Copy, Debug, PartialEq, Eq)]
pub enum NumberFault {
    // a plan number outside its limits, and its position among the numbers of the plan, from 1
    OutsideLimits(u32),
    // an item's count above the greatest count of its kind
    CountTooLarge,
}

// A line: two intercepts and a slope in millionths, a cut size and a cut number.
#[derive(Clone, Copy, Debug)]
pub struct LineNumbers {
    pub accept_intercept: u32,
    pub reject_intercept: u32,
    pub slope: u32,
    pub cut_size: u32,
    pub cut_number: u32,
    ghost accept_intercept_ok: { Within 1 max_intercept accept_intercept },
    ghost reject_intercept_ok: { Within 1 max_intercept reject_intercept },
    ghost slope_ok: { Within 1 max_slope slope },
    ghost cut_size_ok: { Within 1 max_size cut_size },
    ghost cut_number_ok: { Within 0 max_acceptance cut_number },
}

// A single plan: its last size and its acceptance number. Like a cut's numbers but for their names: each make has a type of
// its own, so that the one is never taken for the other, and a marker parameter is no plainer for two fields.
#[derive(Clone, Copy, Debug)]
pub struct SingleNumbers {
    pub last_size: u32,
    pub number: u32,
    ghost last_size_ok: { Within 1 max_size last_size },
    ghost number_ok: { Within 0 max_acceptance number },
}

// A cut: the size at which a plan is cut short, and the acceptance number there.
#[derive(Clone, Copy, Debug)]
pub struct CutNumbers {
    pub size: u32,
    pub number: u32,
    ghost size_ok: { Within 1 max_size size },
    ghost number_ok: { Within 0 max_acceptance number },
}
