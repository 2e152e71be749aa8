// What a command does.
ghost use Rattle.std.specs.Prelude.{◌≡◌};
ghost use Rattle.plan.specs.Checks.{Checked, line_outside, size_outside};
ghost use Rattle.plan.specs.Makes.{line_meaning, single_meaning};
ghost use Rattle.session.specs.Plans.{base_meaning};
ghost use Rattle.session.specs.Turns.{acted, called, cut, planned, standing, told};

use super::{Answer, Turn};
use crate::chosen::{Base, Chosen};
use crate::faults::SessionFault;
use plan::cut::Cut;
use plan::line::Line;
use plan::numbers::{CutNumbers, LineNumbers, NumberFault, SingleNumbers};
use plan::plans::Plan;
use plan::single::Single;
use stand::bays::Stand;
use stand::records::Call;
use text::Command;

// A line plan, from its numbers, one by one as the command has them.
fn line(
    accept_intercept: u64,
    reject_intercept: u64,
    slope: u64,
    cut_size: u32,
    cut_number: u32,
) -> Result<Base, NumberFault>
    ensures { Checked (line_outside accept_intercept reject_intercept slope cut_size cut_number) (λ b. base_meaning b ≡ line_meaning accept_intercept reject_intercept slope cut_size cut_number) result }
{
    let numbers = LineNumbers::check(
        accept_intercept,
        reject_intercept,
        slope,
        u64::from(cut_size),
        u64::from(cut_number),
    )?;
    Ok(Base::Line(Line::new(numbers)))
}

// A single plan, from its numbers.
fn single(last_size: u32, number: u32) -> Result<Base, NumberFault>
    ensures { Checked (size_outside last_size number) (λ b. base_meaning b ≡ single_meaning last_size number) result }
{
    let numbers = SingleNumbers::check(u64::from(last_size), u64::from(number))?;
    Ok(Base::Single(Single::new(numbers)))
}

impl Turn {
    // Puts a call to the stand. The first call puts the plan to work, unless the stand refuses it.
    #[inline(always)]
    fn call(&mut self, call: Call) -> Result<Answer, SessionFault>
        ensures { (standing self.new, told result) ≡ called (standing self.old) call }
    {
        let reply = match self {
            Turn::NoPlan => return Err(SessionFault::NoPlan),
            Turn::Fresh(base) => {
                let mut stand = Stand::new(Chosen::Whole(*base));
                let reply = stand.call(call)?;
                *self = Turn::Working(stand);
                reply
            }
            Turn::Working(stand) => stand.call(call)?,
        };
        Ok(Answer::Served(call, reply))
    }

    // Chooses a plan, which may still be cut then, where none was chosen yet.
    fn choose(&mut self, plan: Result<Base, NumberFault>) -> Result<Answer, SessionFault>
        ensures { (p : _) (outside : _) → Checked outside (λ b. base_meaning b ≡ p) plan → (standing self.new, told result) ≡ planned (standing self.old) p outside }
    {
        let Turn::NoPlan = self else {
            return Err(SessionFault::OutOfTurn);
        };
        let base = plan?;
        *self = Turn::Fresh(base);
        Ok(Answer::Planned(base.last_size()))
    }

    // Cuts the plan, which is at work then.
    fn cut(&mut self, size: u32, number: u32) -> Result<Answer, SessionFault>
        ensures { (standing self.new, told result) ≡ cut (standing self.old) size number }
    {
        let base = match self {
            Turn::NoPlan => return Err(SessionFault::NoPlan),
            Turn::Working(_) => return Err(SessionFault::OutOfTurn),
            Turn::Fresh(base) => *base,
        };
        let plan = Cut::new(base, CutNumbers::check(u64::from(size), u64::from(number))?);
        let last_size = plan.last_size();
        *self = Turn::Working(Stand::new(Chosen::Cut(plan)));
        Ok(Answer::Planned(last_size))
    }

    // What a command does: the answer, or why it is refused. The match is on an enum, whose cases are given. The last four
    // arms are no `From`: commands and calls stand in crates that do not know one another.
    pub(super) fn act(&mut self, command: Command) -> Result<Answer, SessionFault>
        ensures { (standing self.new, told result) ≡ acted (standing self.old) command }
    {
        match command {
            Command::Line {
                accept_intercept,
                reject_intercept,
                slope,
                cut_size,
                cut_number,
            } => self.choose(line(
                accept_intercept,
                reject_intercept,
                slope,
                cut_size,
                cut_number,
            )),
            Command::Single { last_size, number } => self.choose(single(last_size, number)),
            Command::Cut { size, number } => self.cut(size, number),
            Command::Open { bay } => self.call(Call::Open(bay)),
            Command::Read { bay } => self.call(Call::Read(bay)),
            Command::Clear { bay } => self.call(Call::Clear(bay)),
            Command::Take { bay, count } => self.call(Call::Take(bay, count)),
        }
    }
}
