// Sheets drawn, loaded and drawn again, and what was reckoned of them by hand.
use alike::interchangeable;
use plan::carried::carried_line;
use plan::items::{FaultNumber, Item, Mark};
use plan::line::Line;
use plan::numbers::SingleNumbers;
use plan::plans::Plan;
use plan::single::Single;
use plan::verdicts::Verdict;
use sheet::drawing::draw;
use sheet::extents::{Extent, extent_of};
use sheet::faults::{LoadFault, SheetFault};
use sheet::tables::Table;
use stand::bays::Stand;
use std::alloc::Global;
use std::process::Abort;
use std::test::Fail;

// The longest sheet has 4,096 rows.
const ROOM: usize = 8200;

fn single(last_size: u64, number: u64) -> Result<Single, Fail> {
    Ok(Single::new(SingleNumbers::check(last_size, number)?))
}

fn line(quality: u32) -> Result<Line, Fail> {
    match carried_line(quality) {
        Some(numbers) => Ok(Line::new(numbers)),
        None => Err(Fail::new("no line")),
    }
}

// Draws a plan, loads what was drawn and draws it again: the bytes are the same, and so is the extent.
fn there_and_back<K: Item, P: Plan>(
    rt: &impl Abort,
    heap: Global,
    plan: &P,
) -> Result<usize, Fail> {
    let mut drawn = [0; ROOM];
    let mut redrawn = [0; ROOM];
    let n = draw::<K, P>(plan, &mut drawn)?;
    assert!(rt; n <= ROOM);
    let mut table = Table::new(heap);
    table.load::<K>(heap, &drawn[0..n])?;
    let k = draw::<K, Table>(&table, &mut redrawn)?;
    assert_eq!(rt; k, n);
    assert_eq!(rt; &redrawn[..], &drawn[..]);
    assert_eq!(rt; extent_of::<K, Table>(&table), extent_of::<K, P>(plan));
    assert!(rt; interchangeable::<K, P, Table>(plan, &table));
    Ok(n)
}

#[test]
fn carried_lines(rt: HostRuntime) -> Result<(), Fail> {
    let qualities = [
        200, 250, 315, 400, 500, 630, 800, 1000, 1250, 1600, 2000, 2500, 3150,
    ];
    for quality in qualities {
        let plan = line(quality)?;
        there_and_back::<Mark, Line>(&rt, rt.alloc(), &plan)?;
        there_and_back::<FaultNumber, Line>(&rt, rt.alloc(), &plan)?;
    }
    Ok(())
}

// Two items, of which none may be nonconforming: bytes as reckoned by hand, and the rest of the buffer stays.
#[test]
fn small_sheet(rt: HostRuntime) -> Result<(), Fail> {
    let mut buffer = [7; 14];
    let n = draw::<Mark, Single>(&single(2, 0)?, &mut buffer)?;
    assert_eq!(rt; n, 12);
    assert_eq!(rt;
        buffer,
        [0x53, 0x51, 0x41, 1, 0, 1, 2, 0, 255, 1, 0, 1, 7, 7]
    );
    let mut short = [7; 11];
    assert_eq!(rt;
        draw::<Mark, Single>(&single(2, 0)?, &mut short),
        Err(SheetFault::ShortBuffer(12))
    );
    assert_eq!(rt; short, [7; 11]);
    Ok(())
}

// 4,096 rows: at size n up to 253 the counts 0 to n are reached, then 0 to 254.
#[test]
fn largest_sheet(rt: HostRuntime) -> Result<(), Fail> {
    let plan = single(4096, 253)?;
    assert_eq!(rt;
        there_and_back::<Mark, Single>(&rt, rt.alloc(), &plan)?,
        8200
    );
    assert_eq!(rt;
        extent_of::<Mark, Single>(&plan),
        Extent {
            rows: 4096,
            points: 1_012_349,
        }
    );
    Ok(())
}

// What a sheet of two rows, 255 1 and 0 1, is refused for with another byte at a place.
fn refusal_at(place: usize) -> SheetFault {
    match place {
        0..=2 => SheetFault::OtherMark,
        3..=4 => SheetFault::OtherVersion,
        5 => SheetFault::OtherKind,
        6..=7 => SheetFault::WrongLength,
        8..=9 => SheetFault::UnlawfulRow(1),
        _ => SheetFault::UnlawfulRow(2),
    }
}

// Every other byte at every place is refused, and the table stays as it was; but for 255 in the place of the first
// rejection number, which makes the sheet of another plan.
#[test]
fn damaged_bytes(rt: HostRuntime) -> Result<(), Fail> {
    let good = [0x53, 0x51, 0x41, 1, 0, 1, 2, 0, 255, 1, 0, 1];
    let mut table = Table::new(rt.alloc());
    assert_eq!(rt; table.load::<Mark>(rt.alloc(), &good), Ok(2));
    for place in 0..12 {
        for byte in 0..=255u8 {
            let mut bytes = good;
            bytes[place] = byte;
            if byte == good[place] || (place == 9 && byte == 255) {
                continue;
            }
            assert_eq!(rt;
                table.load::<Mark>(rt.alloc(), &bytes),
                Err(LoadFault::BadSheet(refusal_at(place)))
            );
        }
    }
    let mut buffer = [0; 12];
    assert_eq!(rt; draw::<Mark, Table>(&table, &mut buffer)?, 12);
    assert_eq!(rt; buffer, good);
    Ok(())
}

// Bytes that are too few, rows that are too few, and the other byte that makes a sheet.
#[test]
fn other_loads(rt: HostRuntime) {
    let mut table = Table::new(rt.alloc());
    assert_eq!(rt;
        table.load::<Mark>(rt.alloc(), &[0x53, 0x51, 0x41, 1, 0, 1, 2]),
        Err(LoadFault::BadSheet(SheetFault::NoHeader))
    );
    assert_eq!(rt;
        table.load::<Mark>(rt.alloc(), &[0x53, 0x51, 0x41, 1, 0, 1, 1, 0, 0, 2]),
        Err(LoadFault::BadSheet(SheetFault::UnlawfulRow(1)))
    );
    assert_eq!(rt;
        table.load::<Mark>(rt.alloc(), &[0x53, 0x51, 0x41, 1, 0, 1, 2, 0, 255, 1, 0]),
        Err(LoadFault::BadSheet(SheetFault::WrongLength))
    );
    assert_eq!(rt; table.last_size(), 1);
    assert_eq!(rt; table.pair(1), Some((-1, 0)));
    assert_eq!(rt;
        table.load::<Mark>(
            rt.alloc(),
            &[0x53, 0x51, 0x41, 1, 0, 1, 2, 0, 255, 255, 0, 1],
        ),
        Ok(2)
    );
    assert_eq!(rt;
        [table.pair(1), table.pair(2), table.pair(3)],
        [Some((-1, 254)), Some((0, 1)), None]
    );
}

#[test]
fn places_of_plans(rt: HostRuntime) -> Result<(), Fail> {
    assert!(rt; interchangeable::<Mark, Single, Single>(&single(3, 5)?, &single(3, 3)?));
    assert!(rt; !interchangeable::<Mark, Single, Single>(&single(3, 3)?, &single(3, 2)?));
    assert!(rt; !interchangeable::<FaultNumber, Single, Single>(&single(3, 5)?, &single(3, 3)?));
    assert!(rt; !interchangeable::<Mark, Line, Single>(&line(1000)?, &single(65, 2)?));
    Ok(())
}

// A stand that runs from the loaded sheet of the 10.0 % line: clean but for item 15, accepted at 50.
#[test]
fn stand_from_sheet(rt: HostRuntime) -> Result<(), Fail> {
    let mut drawn = [0; ROOM];
    let n = draw::<Mark, Line>(&line(1000)?, &mut drawn)?;
    assert_eq!(rt; n, 138);
    let mut table = Table::new(rt.alloc());
    table.load::<Mark>(rt.alloc(), &drawn[0..138])?;
    let mut stand: Stand<Mark, Table> = Stand::new(table);
    stand.open(7)?;
    for item in 1..50 {
        let count = if item == 15 { 1 } else { 0 };
        assert_eq!(rt; stand.take(7, count)?.verdict, None);
    }
    assert_eq!(rt; stand.take(7, 0)?.verdict, Some(Verdict::Accept));
    Ok(())
}
