// What every plan shows, and the ruling on a count.
ghost use Rattle.std.specs.Prelude.{◌≡◌};
ghost use Rattle.plan.specs.Boundaries.{Boundary, Lawful, asked};
ghost use Rattle.plan.specs.Rulings.{Rules, ruled, ruling_at};

use crate::verdicts::Verdict;

// A plan is only read: the same question always has the same answer.
pub trait Plan {
    // What the plan means: its last size and its pairs.
    ghost meaning: { Self → Boundary };

    fn last_size(&self) -> u32
        ensures { result ≡ (meaning self.now).last };

    // The acceptance number and the rejection number at a size; none outside 1 to the last size. A tuple of two plain
    // numbers, as a rule of the project, for whoever implements a plan.
    fn pair(&self, size: u32) -> Option<(i32, i32)>
        ensures { result ≡ asked (meaning self.now) size };

    ghost lawful: { (p : Self) → Lawful (meaning p) };
}

// The verdict on a count by a pair; none while the count is live.
pub fn ruling(pair: (i32, i32), count: u32) -> Option<Verdict>
    ensures rules { Rules pair count result }
    ensures value { result ≡ ruled pair count }
{
    let (acceptance, rejection) = pair;
    let count = i64::from(count);
    if count <= i64::from(acceptance) {
        Some(Verdict::Accept)
    } else if count >= i64::from(rejection) {
        Some(Verdict::Reject)
    } else {
        None
    }
}

// The verdict of a plan on a count at a size; none where the plan has no such size.
pub fn rule<P: Plan>(plan: &P, size: u32, count: u32) -> Option<Verdict>
    ensures { result ≡ ruling_at (P.meaning plan.now) size count }
{
    ruling(plan.pair(size)?, count)
}
