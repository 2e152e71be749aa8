// A working life: a stand is made, and a list of calls is put to it.
ghost use Rattle.std.specs.Prelude.{◌≡◌, map, length};
ghost use Rattle.stand.specs.Bays.{Small};
ghost use Rattle.stand.specs.Histories.{Lived, call_of, steps};

use crate::bays::Stand;
use crate::records::Entry;
use plan::items::Item;
use plan::plans::Plan;

// Makes a stand with a plan, puts the calls of a history to it one after the other, and writes the reply to each
// beside it.
pub fn run<K: Item, P: Plan>(plan: P, history: &mut [Entry]) -> Stand<K, P>
    ensures plan { result.plan ≡ plan }
    ensures calls { map call_of history.new ≡ map call_of history.old }
    ensures replies { length (steps history.new) ≡ length history.old }
    ensures lived { Lived K.GREATEST (P.meaning plan) (steps history.new) result.bays }
    ensures small { Small result.bays }
{
    let mut stand = Stand::new(plan);
    for step in history.iter_mut() {
        step.reply = Some(stand.call(step.call));
    }
    stand
}
