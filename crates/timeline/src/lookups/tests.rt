use super::*;
use crate::offset::UtcOffset;
use std::test::Fail;

fn offset(seconds: i32, rule_applies: bool) -> Offset {
    Offset {
        offset: UtcOffset::from_seconds(seconds),
        rule_applies,
    }
}

fn transition(since: i64, seconds: i32, rule_applies: bool) -> Transition {
    Transition {
        since,
        offset: UtcOffset::from_seconds(seconds),
        rule_applies,
    }
}

/// Los Angeles in 2025: clocks went forward at 2:00 on 9 March, and back at 2:00 on 2 November.
fn year_2025() -> (Offset, Transition, Transition) {
    (
        offset(-28_800, false),
        transition(1_741_514_400, -25_200, true),
        transition(1_762_074_000, -28_800, false),
    )
}

#[test]
fn tells_the_offsets_of_a_year(rt: HostRuntime) -> Result<(), Fail> {
    let rows = [
        (1_735_718_400, -28_800, false),
        (1_741_514_399, -28_800, false),
        (1_741_514_400, -25_200, true),
        (1_762_073_999, -25_200, true),
        (1_762_074_000, -28_800, false),
    ];
    for (second, seconds, rule_applies) in rows {
        let (before, first, last) = year_2025();
        let told = year_offset(second, before, first, last);
        assert_eq!(rt; told, offset(seconds, rule_applies), "at {second}");
    }
    Ok(())
}

/// The answer where the clock is put forward or back.
fn sides(gap: bool, transition: i64) -> PossibleOffset {
    if gap {
        PossibleOffset::None {
            before: offset(-28_800, false),
            after: offset(-25_200, true),
            transition,
        }
    } else {
        PossibleOffset::Ambiguous {
            before: offset(-25_200, true),
            after: offset(-28_800, false),
            transition,
        }
    }
}

fn told(wall: i64) -> PossibleOffset {
    let (before, first, second) = year_2025();
    year_answer(wall, before, first, second)
}

#[test]
fn tells_gaps_and_folds(rt: HostRuntime) -> Result<(), Fail> {
    // 9 March at 1:59:59, 2:00 and 3:00
    assert_eq!(rt;
        told(1_741_485_599),
        PossibleOffset::Single(offset(-28_800, false))
    );
    assert_eq!(rt; told(1_741_485_600), sides(true, 1_741_514_400));
    assert_eq!(rt;
        told(1_741_489_200),
        PossibleOffset::Single(offset(-25_200, true))
    );
    // 2 November at 0:59:59, 1:30 and 2:00
    assert_eq!(rt;
        told(1_762_045_199),
        PossibleOffset::Single(offset(-25_200, true))
    );
    assert_eq!(rt; told(1_762_047_000), sides(false, 1_762_074_000));
    assert_eq!(rt;
        told(1_762_048_800),
        PossibleOffset::Single(offset(-28_800, false))
    );
    Ok(())
}
