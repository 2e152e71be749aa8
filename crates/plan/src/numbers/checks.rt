// From any numbers to a checked record, or the position of the first number outside its limits.
ghost use Rattle.std.specs.Prelude.{◌≡◌, true, false, MatchResult};
ghost use Rattle.plan.specs.Checks.{Checked, LineHolds, SingleHolds, CutHolds, within, line_outside, size_outside};
ghost use Rattle.plan.specs.Limits.{Within};
ghost use Rattle.plan.specs.declared.numbers.NumberFault.TheVariants.{OutsideLimits};

use super::{CutNumbers, LineNumbers, NumberFault, SingleNumbers};

pub const MAX_SIZE: u32 = 4096;

pub const MAX_ACCEPTANCE: u32 = 253;

pub const MAX_INTERCEPT: u32 = 10_000_000;

pub const MAX_SLOPE: u32 = 999_999;

// The number at a position of a plan, where it lies within its limits.
fn limited(position: u32, number: u64, low: u32, high: u32) -> Result<u32, NumberFault>
    ensures { MatchResult result (λ n. (n ≡ number) × Within low high n × (within low high number ≡ true)) (λ e. (e ≡ OutsideLimits position) × (within low high number ≡ false)) }
{
    match u32::try_from(number) {
        Ok(number) if (low..=high).contains(&number) => Ok(number),
        _ => Err(NumberFault::OutsideLimits(position)),
    }
}

impl LineNumbers {
    // The intercepts and the slope are in millionths. Five parameters, as a refusal counts them: a struct of numbers that
    // are not checked yet would only repeat the record.
    pub fn check(
        accept_intercept: u64,
        reject_intercept: u64,
        slope: u64,
        cut_size: u64,
        cut_number: u64,
    ) -> Result<LineNumbers, NumberFault>
        ensures { Checked (line_outside accept_intercept reject_intercept slope cut_size cut_number) (LineHolds accept_intercept reject_intercept slope cut_size cut_number) result }
    {
        Ok(LineNumbers {
            accept_intercept: limited(1, accept_intercept, 1, MAX_INTERCEPT)?,
            reject_intercept: limited(2, reject_intercept, 1, MAX_INTERCEPT)?,
            slope: limited(3, slope, 1, MAX_SLOPE)?,
            cut_size: limited(4, cut_size, 1, MAX_SIZE)?,
            cut_number: limited(5, cut_number, 0, MAX_ACCEPTANCE)?,
        })
    }
}

// The two checks below are alike as their types are: one of both would hand on a pair, which is no plainer.
impl SingleNumbers {
    pub fn check(last_size: u64, number: u64) -> Result<SingleNumbers, NumberFault>
        ensures { Checked (size_outside last_size number) (SingleHolds last_size number) result }
    {
        Ok(SingleNumbers {
            last_size: limited(1, last_size, 1, MAX_SIZE)?,
            number: limited(2, number, 0, MAX_ACCEPTANCE)?,
        })
    }
}

impl CutNumbers {
    pub fn check(size: u64, number: u64) -> Result<CutNumbers, NumberFault>
        ensures { Checked (size_outside size number) (CutHolds size number) result }
    {
        Ok(CutNumbers {
            size: limited(1, size, 1, MAX_SIZE)?,
            number: limited(2, number, 0, MAX_ACCEPTANCE)?,
        })
    }
}
