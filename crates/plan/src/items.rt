// Kinds of item: what one inspected item adds to the count of its lot.
ghost use Rattle.std.specs.Prelude.{◌≡◌, ℕ, ◌≤◌, refl};
ghost use Rattle.plan.specs.Items.{Kind, mark_score};
ghost use Rattle.std.proofs.Common.{arith};
ghost use Rattle.plan.specs.MarkItemLemmas.{bounded, onto};

// A kind of item. Each item gives a count from 0 to the greatest count, and each such count has an item.
pub trait Item {
    // the greatest count of an item
    const GREATEST: u32;

    // the constant, and the count of an item, as clauses name them
    ghost GREATEST: { ℕ };

    ghost score: { Self → ℕ };

    fn count(&self) -> u32
        ensures { result ≡ score self.now };

    ghost kind: { Kind GREATEST score };
}

// A mark: conforming or nonconforming.
#[derive(Clone, Copy, Debug, PartialEq, Eq)]
pub enum Mark {
    Conforming,
    Nonconforming,
}

impl Item for Mark {
    const GREATEST: u32 = 1;

    ghost GREATEST = { 1 };

    ghost score = { mark_score };

    ghost kind = { record { small = omega arith; bounded = bounded; onto = onto } };

    fn count(&self) -> u32 {
        match self {
            Mark::Conforming => 0,
            Mark::Nonconforming => 1,
        }
    }
}

// A fault number: how many faults an item shows, 0 to 15.
#[derive(Clone, Copy, Debug)]
pub struct FaultNumber {
    pub number: u32,
    ghost few: { number ≤ 15 },
}

impl Item for FaultNumber {
    const GREATEST: u32 = 15;

    ghost GREATEST = { 15 };

    ghost score = { λ x. x.number };

    ghost kind = { record { small = omega arith; bounded = λ x. x.few; onto = λ n h. ∣ (record { number = n; few = h }, refl) ∣₁ } };

    fn count(&self) -> u32 {
        self.number
    }
}
