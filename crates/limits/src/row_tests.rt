use refusals::Refusal;
use rows::{
    Constraint, ConstraintRow, Day, DayRow, FromRow, HeldQuantity, Holding, HoldingRow, Point,
    PointRow, block_at,
};

/// The number of a refusal at place 0, and 0 where there is none.
fn refused<T: Drop>(r: Result<T, Refusal>) -> u8 {
    match r {
        Ok(_) => 0,
        Err(e) => if e.place == 0 { e.cause.number() } else { 255 },
    }
}

#[test]
fn constraints(rt: HostRuntime) {
    for (shadow, deration, number) in [
        (0, 0, 0),
        (1_000_000, 10_000, 0),
        (1_000_001, 0, 6),
        (0, 10_001, 6),
        (u32::MAX, u16::MAX, 6),
    ] {
        assert_eq!(rt;
            refused(Constraint::new(ConstraintRow { shadow, deration })),
            number
        );
    }
}

#[test]
fn points(rt: HostRuntime) {
    for (letter, price, minimum, maximum, number) in [
        (b'Z', 1_000_000, 0, 0, 0),
        (b'H', -1_000_000, 0, 0, 0),
        (b'R', 0, -1_000_000, 1_000_000, 0),
        (b'R', 0, 7, 7, 0),
        (b'R', 0, 8, 7, 6),
        (b'R', 0, -1_000_001, 0, 6),
        (b'R', 0, 0, 1_000_001, 6),
        (b'Z', 1_000_001, 0, 0, 6),
        (b'Z', -1_000_001, 0, 0, 6),
        (b'Z', 0, 1, 0, 6),
        (b'H', 0, 0, -1, 6),
        (b'r', 0, 0, 0, 6),
        (0, 0, 0, 0, 6),
        (b'R', i32::MIN, i32::MIN, i32::MAX, 6),
    ] {
        let row = PointRow {
            letter,
            price,
            minimum,
            maximum,
        };
        assert_eq!(rt; refused(Point::new(row)), number);
    }
}

#[test]
fn holdings(rt: HostRuntime) {
    for (letter, quantity, block, actual, real_time, number) in [
        (b'B', 1, b'W', 0, 0, 0),
        (b'O', 100_000, b'E', 0, 0, 0),
        (b'b', 1, b'N', 800_000, 100_000, 0),
        (b'o', 1, b'N', 800_001, 0, 6),
        (b'o', 1, b'N', 0, 100_001, 6),
        (b'B', 0, b'W', 0, 0, 6),
        (b'B', 100_001, b'W', 0, 0, 6),
        (b'B', 1, b'W', 1, 0, 6),
        (b'O', 1, b'W', 0, 1, 6),
        (b'N', 1, b'W', 0, 0, 6),
        (b'B', 1, b'w', 0, 0, 6),
        (b'b', u32::MAX, b'W', u32::MAX, u32::MAX, 6),
    ] {
        let row = HoldingRow {
            owner: u16::MAX,
            letter,
            source: u16::MAX,
            sink: u16::MAX,
            quantity,
            block,
            actual,
            real_time,
        };
        assert_eq!(rt; refused(Holding::new(row)), number);
    }
    assert_eq!(rt; refused(HeldQuantity::new(0)), 6);
    assert_eq!(rt; refused(HeldQuantity::new(1)), 0);
    assert_eq!(rt; refused(HeldQuantity::new(100_001)), 6);
}

#[test]
fn days(rt: HostRuntime) {
    for (hour, weekday, ending, rent, number) in [
        (1, 0, 1, 0, 0),
        (744, 6, 24, 3_000_000_000, 0),
        (0, 0, 1, 0, 6),
        (745, 0, 1, 0, 6),
        (1, 7, 1, 0, 6),
        (1, 0, 0, 0, 6),
        (1, 0, 25, 0, 6),
        (1, 0, 1, 3_000_000_001, 6),
        (u16::MAX, u8::MAX, u8::MAX, u64::MAX, 6),
    ] {
        let row = DayRow {
            hour,
            weekday,
            ending,
            rent,
        };
        assert_eq!(rt; refused(Day::new(row)), number);
    }
}

/// The block's letter of an hour, and a blank where the hour is no hour.
fn letter_at(weekday: u8, ending: u8) -> u8 {
    let row = DayRow {
        hour: 1,
        weekday,
        ending,
        rent: 0,
    };
    Day::new(row).map_or(b' ', |day| block_at(&day).letter())
}

#[test]
fn blocks(rt: HostRuntime) {
    for (weekday, ending, letter) in [
        (0, 6, b'N'),
        (0, 7, b'W'),
        (0, 22, b'W'),
        (0, 23, b'N'),
        (4, 22, b'W'),
        (5, 7, b'E'),
        (6, 22, b'E'),
        (6, 24, b'N'),
        (7, 12, b' '),
    ] {
        assert_eq!(rt; letter_at(weekday, ending), letter);
    }
}
