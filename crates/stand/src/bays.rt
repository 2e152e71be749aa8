// A stand: one plan and 32 bays.
ghost use Rattle.std.specs.Prelude.{◌≡◌, ◌<◌, ◌||◌, replicate, is_some, None as none, MatchResult, nat_le};
ghost use Rattle.stand.specs.Bays.{Small, held};
ghost use Rattle.stand.specs.Calls.{Serves, told};
ghost use Rattle.stand.specs.Refusals.{refused_bay, refused_call};
ghost use Rattle.stand.specs.declared.records.BayFault.TheVariants.{NoSuchBay};
ghost use Rattle.stand.specs.declared.records.Call.TheVariants.{Open, Take, Read, Clear};
ghost use Rattle.stand.specs.declared.records.Reply.TheVariants.{Opened, Lot};

use crate::records::{BayFault, Call, Record, Reply, StandFault};
use plan::items::Item;
use plan::numbers::NumberFault;
use plan::plans::{Plan, rule};
use std::marker::{Model, PhantomData};

// How many bays a stand has.
pub const BAYS: usize = 32;

#[derive(Clone, Copy, Drop)]
pub struct Stand<K, P> {
    plan: P,
    bays: [Option<Record>; BAYS],
    kind: PhantomData<K>,
}

// A stand is seen as its plan and what its bays hold.
impl<K, P> Model for Stand<K, P> {
    ghost use Rattle.stand.specs.Bays.{Standing, Small};

    ghost Value = { Standing P };

    ghost view = { λ s. record { plan = s.plan; bays = s.bays } };

    ghost invariant = { λ s. Small s.bays };

    ghost inverse = { λ d. record { plan = d.plan; bays = d.bays; kind = record {} } };
}

// What a bay holds; a bay above the last is refused.
fn look(bays: &[Option<Record>; BAYS], bay: u32) -> Result<Option<Record>, BayFault>
    ensures { MatchResult result (λ o. (bay < 32) × (o ≡ held bays.now bay)) (λ e. (31 < bay) × (e ≡ NoSuchBay bay)) }
{
    bays.get(bay as usize)
        .copied()
        .ok_or(BayFault::NoSuchBay(bay))
}

// Whether a lot takes no more items: it has a verdict, or stands at the plan's last size.
fn is_decided(lot: Record, last_size: u32) -> bool
    ensures { result ≡ (is_some lot.verdict || nat_le last_size lot.size) }
{
    lot.verdict.is_some() || lot.size >= last_size
}

impl<K: Item, P: Plan> Stand<K, P> {
    // A stand with all bays empty.
    pub fn new(plan: P) -> Stand<K, P>
        ensures empty { result ≡ record { plan = plan; bays = replicate 32 none } }
        ensures small { Small result.bays }
    {
        Stand {
            plan,
            bays: [None; BAYS],
            kind: PhantomData,
        }
    }

    // Starts the record of a lot in an empty bay, and replies the bay.
    pub fn open(&mut self, bay: u32) -> Result<u32, BayFault>
        ensures serves { Serves K.GREATEST P.meaning (Open bay) self.old self.new (told Opened refused_bay result) }
        ensures was_small { Small self.old.bays }
        ensures small { Small self.new.bays }
    {
        if look(&self.bays, bay)?.is_some() {
            return Err(BayFault::Busy(bay));
        }
        self.bays[bay as usize] = Some(Record::default());
        Ok(bay)
    }

    // The record of the lot in a bay.
    pub fn read(&self, bay: u32) -> Result<Record, BayFault>
        ensures serves { Serves K.GREATEST P.meaning (Read bay) self.now self.now (told Lot refused_bay result) }
        ensures small { Small self.now.bays }
    {
        look(&self.bays, bay)?.ok_or(BayFault::Empty(bay))
    }

    // The record of the lot in a bay, which is empty then.
    pub fn clear(&mut self, bay: u32) -> Result<Record, BayFault>
        ensures serves { Serves K.GREATEST P.meaning (Clear bay) self.old self.new (told Lot refused_bay result) }
        ensures was_small { Small self.old.bays }
        ensures small { Small self.new.bays }
    {
        let lot = self.read(bay)?;
        self.bays[bay as usize] = None;
        Ok(lot)
    }

    // Takes an item, by its count, into the lot in a bay: the plan rules on the lot, whose record is replied.
    pub fn take(&mut self, bay: u32, count: u32) -> Result<Record, StandFault>
        ensures serves { Serves K.GREATEST P.meaning (Take bay count) self.old self.new (told Lot refused_call result) }
        ensures was_small { Small self.old.bays }
        ensures small { Small self.new.bays }
    {
        let holds = look(&self.bays, bay)?;
        if count > K::GREATEST {
            return Err(NumberFault::CountTooLarge.into());
        }
        let lot = holds.ok_or(BayFault::Empty(bay))?;
        if is_decided(lot, self.plan.last_size()) {
            return Err(BayFault::Decided(bay).into());
        }
        let size = lot.size + 1;
        let count = lot.count + count;
        let verdict = rule(&self.plan, size, count);
        let lot = Record {
            size,
            count,
            verdict,
        };
        self.bays[bay as usize] = Some(lot);
        Ok(lot)
    }

    // Any of the four calls, by a match on the enum, whose cases are given.
    #[inline(always)]
    pub fn call(&mut self, call: Call) -> Result<Reply, StandFault>
        ensures serves { Serves K.GREATEST P.meaning call self.old self.new (told (λ x. x) refused_call result) }
        ensures was_small { Small self.old.bays }
        ensures small { Small self.new.bays }
    {
        Ok(match call {
            Call::Open(bay) => Reply::Opened(self.open(bay)?),
            Call::Take(bay, count) => Reply::Lot(self.take(bay, count)?),
            Call::Read(bay) => Reply::Lot(self.read(bay)?),
            Call::Clear(bay) => Reply::Lot(self.clear(bay)?),
        })
    }
}
