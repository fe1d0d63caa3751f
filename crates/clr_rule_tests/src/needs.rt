//! Needs, and their order.

use clr_rows::CellId;
use clr_rules::{Ask, Broken};

/// Returns a need of these rule, cells of table 1 and parts.
fn need(rule: u16, first: i64, second: Option<i64>, parts: (u16, u16)) -> Broken {
    let ask = Ask {
        rule,
        first_part: parts.0,
        second_part: parts.1,
    };
    let first = CellId {
        table: 1,
        key: first,
    };
    let second = second.map(|key| CellId { table: 1, key });
    Broken::new(ask, first, second)
}

/// Returns whether a need names this rule and these parts.
fn is_of_parts(need: &Broken, rule: u16, parts: (u16, u16)) -> bool {
    need.rule == rule && need.first_part == parts.0 && need.second_part == parts.1
}

#[test]
fn what_a_need_names(rt: HostRuntime) {
    let need = need(3, 20, Some(21), (4, 5));
    assert!(rt; is_of_parts(&need, 3, (4, 5)));
    assert!(rt; need.first == CellId { table: 1, key: 20 });
    assert!(rt; need.second == Some(CellId { table: 1, key: 21 }));
}

#[test]
fn needs_in_order(rt: HostRuntime) {
    let ascending = [
        need(0, 9, None, (9, 9)),
        need(0, 9, Some(10), (1, 1)),
        need(0, 9, Some(10), (1, 2)),
        need(0, 9, Some(10), (2, 1)),
        need(0, 9, Some(11), (1, 1)),
        need(0, 10, None, (1, 1)),
        need(1, 1, None, (1, 1)),
    ];
    for i in 0..7 {
        for j in 0..7 {
            assert!(rt; ascending[i].cmp(&ascending[j]) == i.cmp(&j), "{i} {j}");
        }
    }
}

#[test]
fn an_ask_of_whole_rows(rt: HostRuntime) {
    let ask = Ask::plain(7);
    assert!(rt; ask.rule == 7 && ask.first_part == 1 && ask.second_part == 1);
}
