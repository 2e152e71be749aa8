// A stand for marks with the single plan 2, 0.
use crate::bays::Stand;
use crate::histories::run;
use crate::records::{BayFault, Call, Entry, Record, Reply, StandFault};
use plan::items::Mark;
use plan::numbers::{NumberFault, SingleNumbers};
use plan::single::Single;
use plan::verdicts::Verdict;
use std::test::Fail;

#[test]
fn a_lot_from_open_to_clear(rt: HostRuntime) -> Result<(), Fail> {
    let mut stand: Stand<Mark, Single> = Stand::new(Single::new(SingleNumbers::check(2, 0)?));
    let live = Record {
        size: 1,
        count: 0,
        verdict: None,
    };
    let accepted = Record {
        size: 2,
        count: 0,
        verdict: Some(Verdict::Accept),
    };
    assert_eq!(rt; stand.open(0), Ok(0));
    assert_eq!(rt; stand.take(0, 0), Ok(live));
    assert_eq!(rt; stand.take(0, 0), Ok(accepted));
    assert_eq!(rt;
        stand.take(0, 0),
        Err(StandFault::Bay(BayFault::Decided(0)))
    );
    assert_eq!(rt; stand.read(0), Ok(accepted));
    assert_eq!(rt; stand.clear(0), Ok(accepted));
    assert_eq!(rt; stand.read(0), Err(BayFault::Empty(0)));
    Ok(())
}

#[test]
fn refusals(rt: HostRuntime) -> Result<(), Fail> {
    let mut stand: Stand<Mark, Single> = Stand::new(Single::new(SingleNumbers::check(2, 0)?));
    assert_eq!(rt; stand.open(32), Err(BayFault::NoSuchBay(32)));
    assert_eq!(rt;
        stand.take(32, 2),
        Err(StandFault::Bay(BayFault::NoSuchBay(32)))
    );
    assert_eq!(rt;
        stand.take(31, 2),
        Err(StandFault::Number(NumberFault::CountTooLarge))
    );
    assert_eq!(rt;
        stand.take(31, 1),
        Err(StandFault::Bay(BayFault::Empty(31)))
    );
    assert_eq!(rt; stand.clear(31), Err(BayFault::Empty(31)));
    assert_eq!(rt; stand.open(31), Ok(31));
    assert_eq!(rt; stand.open(31), Err(BayFault::Busy(31)));
    Ok(())
}

// Two bays, interleaved, do not mix.
#[test]
fn two_bays(rt: HostRuntime) -> Result<(), Fail> {
    let mut stand: Stand<Mark, Single> = Stand::new(Single::new(SingleNumbers::check(2, 0)?));
    let rejected = Record {
        size: 1,
        count: 1,
        verdict: Some(Verdict::Reject),
    };
    let accepted = Record {
        size: 2,
        count: 0,
        verdict: Some(Verdict::Accept),
    };
    assert_eq!(rt; stand.open(3), Ok(3));
    assert_eq!(rt; stand.open(4), Ok(4));
    assert_eq!(rt;
        stand.take(3, 0),
        Ok(Record {
            size: 1,
            count: 0,
            verdict: None,
        })
    );
    assert_eq!(rt; stand.take(4, 1), Ok(rejected));
    assert_eq!(rt; stand.take(3, 0), Ok(accepted));
    assert_eq!(rt; stand.clear(4), Ok(rejected));
    assert_eq!(rt; stand.read(3), Ok(accepted));
    Ok(())
}

// A history of three calls, with their replies and the stand after them.
#[test]
fn a_history(rt: HostRuntime) -> Result<(), Fail> {
    let mut history = [
        Entry {
            call: Call::Open(3),
            reply: None,
        },
        Entry {
            call: Call::Take(3, 1),
            reply: None,
        },
        Entry {
            call: Call::Take(3, 0),
            reply: None,
        },
    ];
    let stand: Stand<Mark, Single> = run(Single::new(SingleNumbers::check(2, 0)?), &mut history);
    let rejected = Record {
        size: 1,
        count: 1,
        verdict: Some(Verdict::Reject),
    };
    assert_eq!(rt; history[0].reply, Some(Ok(Reply::Opened(3))));
    assert_eq!(rt; history[1].reply, Some(Ok(Reply::Lot(rejected))));
    assert_eq!(rt;
        history[2].reply,
        Some(Err(StandFault::Bay(BayFault::Decided(3))))
    );
    assert_eq!(rt; stand.read(3), Ok(rejected));
    Ok(())
}
