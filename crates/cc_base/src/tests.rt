//! How kinds, checks, rules, limits and faults are spelled in reports.
#![tactic(auto)]

use super::*;
use std::test::Fail;

#[test]
fn names_print_as_reports_write_them(rt: HostRuntime) -> Result<(), Fail> {
    let alloc = rt.alloc();
    assert_eq!(rt;
        format!(in alloc; "{} {}", Kind::Rtti, Check::Wbounds)?.as_str(),
        "RTTI WBOUNDS"
    );
    assert_eq!(rt;
        format!(in alloc; "{} {}", Rule::UnknownName, Limit::Object)?.as_str(),
        "UnknownName object"
    );
    Ok(())
}

#[test]
fn faults_print_their_place_and_rule(rt: HostRuntime) -> Result<(), Fail> {
    let alloc = rt.alloc();
    let place = Place { line: 3, col: 14 };
    let refused = Fault::Refused {
        place,
        rule: Rule::Syntax,
    };
    let too_large = Fault::TooLarge {
        place,
        limit: Limit::Held,
    };
    assert_eq!(rt;
        format!(in alloc; "{refused}")?.as_str(),
        "refused 3:14 Syntax"
    );
    assert_eq!(rt;
        format!(in alloc; "{too_large}")?.as_str(),
        "limit 3:14 held"
    );
    assert_eq!(rt;
        format!(in alloc; "{}", Fault::NoMemory)?.as_str(),
        "no memory"
    );
    Ok(())
}

#[test]
fn a_later_line_comes_after_a_greater_column(rt: HostRuntime) -> Result<(), Fail> {
    let early = Place { line: 1, col: 99 };
    let late = Place { line: 2, col: 1 };
    assert!(rt; early.is_before(late));
    assert!(rt; !late.is_before(early));
    assert!(rt; early < late);
    Ok(())
}

#[test]
fn a_table_of_kinds_gives_the_kind_of_each_node(rt: HostRuntime) -> Result<(), Fail> {
    let kinds = Kinds::of(vec![in rt.alloc(); Kind::Safe, Kind::Wild]?);
    assert_eq!(rt; kinds.kind_of(NodeId(0)), Kind::Safe);
    assert_eq!(rt; kinds.kind_of(NodeId(1)), Kind::Wild);
    Ok(())
}
