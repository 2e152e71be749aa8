// Values that were reckoned by hand.
use crate::carried::carried_line;
use crate::cut::Cut;
use crate::line::Line;
use crate::numbers::{CutNumbers, LineNumbers, NumberFault, SingleNumbers};
use crate::plans::Plan;
use crate::single::Single;
use std::test::Fail;

// The carried line for 10.0 %, and a cut of it at 40 with 1.
#[test]
fn line_and_cut(rt: HostRuntime) -> Result<(), Fail> {
    let Some(numbers) = carried_line(1000) else {
        return Err(Fail::new("no line"));
    };
    let line = Line::new(numbers);
    assert_eq!(rt;
        [
            line.pair(0),
            line.pair(1),
            line.pair(2),
            line.pair(23),
            line.pair(24),
            line.pair(27),
        ],
        [
            None,
            Some((-1, 1)),
            Some((-1, 2)),
            Some((-1, 2)),
            Some((0, 2)),
            Some((0, 2)),
        ]
    );
    assert_eq!(rt;
        [
            line.pair(28),
            line.pair(49),
            line.pair(50),
            line.pair(53),
            line.pair(65),
            line.pair(66),
        ],
        [
            Some((0, 3)),
            Some((0, 3)),
            Some((1, 3)),
            Some((1, 3)),
            Some((2, 3)),
            None,
        ]
    );
    let cut = Cut::new(line, CutNumbers::check(40, 1)?);
    assert_eq!(rt; cut.last_size(), 40);
    assert_eq!(rt;
        [cut.pair(39), cut.pair(40), cut.pair(41)],
        [Some((0, 2)), Some((1, 2)), None]
    );
    Ok(())
}

#[test]
fn single_two_zero(rt: HostRuntime) -> Result<(), Fail> {
    let single = Single::new(SingleNumbers::check(2, 0)?);
    assert_eq!(rt;
        [
            single.pair(0),
            single.pair(1),
            single.pair(2),
            single.pair(3),
        ],
        [None, Some((-1, 1)), Some((0, 1)), None]
    );
    Ok(())
}

// A 0, and one past each limit, with the position that is named.
#[test]
fn line_numbers_outside_limits(rt: HostRuntime) {
    assert_eq!(rt;
        [
            LineNumbers::check(10_000_000, 10_000_000, 999_999, 4096, 253).err(),
            LineNumbers::check(0, 1, 1, 1, 0).err(),
            LineNumbers::check(10_000_001, 1, 1, 1, 0).err(),
            LineNumbers::check(1, 0, 1, 1, 0).err(),
            LineNumbers::check(1, 10_000_001, 1, 1, 0).err(),
            LineNumbers::check(1, 1, 0, 1, 0).err(),
            LineNumbers::check(1, 1, 1_000_000, 1, 0).err(),
            LineNumbers::check(1, 1, 1, 0, 0).err(),
            LineNumbers::check(1, 1, 1, 4097, 0).err(),
            LineNumbers::check(1, 1, 1, 1, 254).err(),
        ],
        [
            None,
            Some(NumberFault::OutsideLimits(1)),
            Some(NumberFault::OutsideLimits(1)),
            Some(NumberFault::OutsideLimits(2)),
            Some(NumberFault::OutsideLimits(2)),
            Some(NumberFault::OutsideLimits(3)),
            Some(NumberFault::OutsideLimits(3)),
            Some(NumberFault::OutsideLimits(4)),
            Some(NumberFault::OutsideLimits(4)),
            Some(NumberFault::OutsideLimits(5)),
        ]
    );
}

#[test]
fn other_numbers_outside_limits(rt: HostRuntime) {
    let outside = [
        None,
        Some(NumberFault::OutsideLimits(1)),
        Some(NumberFault::OutsideLimits(1)),
        Some(NumberFault::OutsideLimits(2)),
    ];
    assert_eq!(rt;
        [
            SingleNumbers::check(4096, 253).err(),
            SingleNumbers::check(0, 0).err(),
            SingleNumbers::check(4097, 0).err(),
            SingleNumbers::check(1, 254).err(),
        ],
        outside
    );
    assert_eq!(rt;
        [
            CutNumbers::check(4096, 253).err(),
            CutNumbers::check(0, 0).err(),
            CutNumbers::check(4097, 0).err(),
            CutNumbers::check(1, 254).err(),
        ],
        outside
    );
}
