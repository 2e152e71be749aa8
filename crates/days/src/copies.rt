// Values that are copied, and what a call of a stand tells of a record.
use plan::items::Mark;
use plan::numbers::SingleNumbers;
use plan::plans::Plan;
use plan::single::Single;
use session::chosen::{Base, Chosen};
use session::turns::Turn;
use stand::bays::Stand;
use stand::records::{BayFault, Call, Reply, StandFault};
use std::test::Fail;
use text::Text;

// The size of the lot in a bay with one more item: the sum fits, since every record of a stand is small.
fn next_size<P: Plan>(stand: &Stand<Mark, P>, bay: u32) -> Result<u32, BayFault> {
    Ok(stand.read(bay)?.size + 1)
}

// The same of a record that a clearing replies, and of one that any call does.
fn next_size_cleared<P: Plan>(stand: &mut Stand<Mark, P>, bay: u32) -> Result<u32, BayFault> {
    Ok(stand.clear(bay)?.size + 1)
}

fn next_size_called<P: Plan>(stand: &mut Stand<Mark, P>, call: Call) -> Result<u32, StandFault> {
    match stand.call(call)? {
        Reply::Lot(lot) => Ok(lot.size + 1),
        Reply::Opened(_) => Ok(1),
    }
}

// A copy of a text stays as it was when the other is added to.
#[test]
fn a_text_twice(rt: HostRuntime) {
    let mut text = Text::new();
    text.put(b"I 3");
    let copy = text;
    text.put(b" 0");
    assert_eq!(rt; text.as_bytes(), b"I 3 0".as_slice());
    assert_eq!(rt; copy.as_bytes(), b"I 3".as_slice());
}

// And a stand, and a turn that holds one.
#[test]
fn a_stand_twice(rt: HostRuntime) -> Result<(), Fail> {
    let single = Single::new(SingleNumbers::check(2, 0)?);
    let mut stand: Stand<Mark, Chosen> = Stand::new(Chosen::Whole(Base::Single(single)));
    assert_eq!(rt; stand.open(3), Ok(3));
    let copy = stand;
    assert!(rt; stand.take(3, 0).is_ok());
    assert_eq!(rt; next_size(&stand, 3), Ok(2));
    assert_eq!(rt; next_size(&copy, 3), Ok(1));
    assert_eq!(rt; next_size(&copy, 4), Err(BayFault::Empty(4)));
    assert_eq!(rt; next_size_called(&mut stand, Call::Read(3)), Ok(2));
    assert_eq!(rt; next_size_cleared(&mut stand, 3), Ok(2));
    let turn = Turn::Working(copy);
    let turns = [turn, turn];
    assert_eq!(rt; turns.len(), 2);
    for turn in turns {
        let Turn::Working(stand) = turn else {
            return Err(Fail::new("a turn without its stand"));
        };
        assert_eq!(rt; next_size(&stand, 3), Ok(1));
    }
    Ok(())
}
