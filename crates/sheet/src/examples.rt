// The examples that were reckoned by hand, proved.
ghost use Rattle.std.specs.Prelude.{◌≡◌, length};
ghost use Rattle.sheet.specs.Examples.{ExamplesHold, examples};

// A public call of its own beside the one of plans, since each carries its list as a theorem.
// How many worked examples of plans, rulings and sheets there are; that each holds is what the contract says.
pub fn worked_examples() -> u32
    ensures hold { ExamplesHold }
    ensures number { result ≡ length examples }
{
    21
}
