use crate::arrows::{Arrow, are_within};
use crate::cycles::on_cycles;
use crate::finding::is_right;
use crate::plain::on_cycles_one_by_one;
use crate::search::search;

/// A row of numbers that look like chance.
fn next(state: &mut u64) -> usize {
    *state = state
        .wrapping_mul(6364136223846793005)
        .wrapping_add(1442695040888963407);
    (*state >> 33) as usize
}

#[test]
fn arrows_by_hand(rt: HostRuntime) {
    let alloc = rt.alloc();
    // The second runs the third and fourth, which runs the second; the first runs itself; nobody runs back into the fifth.
    let arrows = [
        Arrow {
            from: 0,
            first: 0,
            last: 0,
        },
        Arrow {
            from: 1,
            first: 2,
            last: 3,
        },
        Arrow {
            from: 3,
            first: 1,
            last: 1,
        },
        Arrow {
            from: 4,
            first: 1,
            last: 3,
        },
    ];
    let marks = on_cycles(alloc, 5, &arrows).unwrap_or_else(|_| Vec::new(alloc));
    assert_eq!(rt;
        marks.as_slice(),
        [true, true, false, true, false].as_slice()
    );
}

#[test]
fn a_range_backwards_leads_nowhere(rt: HostRuntime) {
    let alloc = rt.alloc();
    let arrows = [Arrow {
        from: 1,
        first: 2,
        last: 0,
    }];
    let marks = on_cycles(alloc, 3, &arrows).unwrap_or_else(|_| Vec::new(alloc));
    assert_eq!(rt; marks.as_slice(), [false, false, false].as_slice());
}

#[test]
fn the_search_is_right_and_agrees_with_the_plain_body(rt: HostRuntime) {
    let alloc = rt.alloc();
    let mut state = 1;
    for round in 0..60 {
        let count = 1 + next(&mut state) % 9;
        let mut arrows = Vec::new(alloc);
        for _ in 0..next(&mut state) % 12 {
            let first = next(&mut state) % count;
            let last = (first + next(&mut state) % 3).min(count - 1);
            arrows
                .push(Arrow {
                    from: next(&mut state) % count,
                    first,
                    last,
                })
                .expect(&rt, "memory");
        }
        let places = search(alloc, count, arrows.as_slice()).expect(&rt, "memory");
        let right = is_right(alloc, arrows.as_slice(), places.as_slice()).expect(&rt, "memory");
        assert!(rt; right, "round {round}");
        assert!(rt; are_within(count, arrows.as_slice()));
        let marks = on_cycles(alloc, count, arrows.as_slice()).expect(&rt, "memory");
        let plain = on_cycles_one_by_one(alloc, count, arrows.as_slice()).expect(&rt, "memory");
        assert_eq!(rt; marks.as_slice(), plain.as_slice(), "round {round}");
    }
}

/// Each of many paragraphs runs half of all that come after it, and the last one runs the first of the second half.
#[test]
fn many_paragraphs_with_wide_ranges(rt: HostRuntime) {
    let alloc = rt.alloc();
    let count = 30_000;
    let mut arrows = Vec::new(alloc);
    for from in 0..count - 1 {
        let last = from + 1 + (count - 1 - from) / 2;
        arrows
            .push(Arrow {
                from,
                first: from + 1,
                last: last.min(count - 1),
            })
            .expect(&rt, "memory");
    }
    arrows
        .push(Arrow {
            from: count - 1,
            first: count / 2,
            last: count / 2,
        })
        .expect(&rt, "memory");
    let places = search(alloc, count, arrows.as_slice()).expect(&rt, "memory");
    let right = is_right(alloc, arrows.as_slice(), places.as_slice()).expect(&rt, "memory");
    assert!(rt; right);
    assert!(rt; are_within(count, arrows.as_slice()));
    let marks = on_cycles(alloc, count, arrows.as_slice()).expect(&rt, "memory");
    for (at, mark) in marks.iter().enumerate() {
        assert_eq!(rt; *mark, at >= count / 2, "at {at}");
    }
}
