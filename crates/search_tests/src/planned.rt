// The planner beside a search through all rounds.
use crate::search::Search;
use crate::small_town::SmallTown;
use crate::written::Written;
use road::Refusal;
use round::NoPlan;
use sheet::Word;
use std::alloc::AllocGlobal;
use std::process::Abort;
use std::test::*;
use test_towns::{Quarter, Random};

// Checks the planner's answer on a town, and says whether there is a round.
fn check_planned(rt: &(impl Abort + AllocGlobal), quarter: Quarter) -> Result<bool, Fail> {
    let mut search = Search::new(quarter);
    assert!(rt; !search.sweep());
    let shortest = search.shortest_round();
    let unreached = search.first_unreached();
    assert_eq!(rt; shortest.is_none(), unreached.is_some());
    let planned = Written::room(rt.alloc())?.plan(quarter, rt.alloc());
    if let Ok(checked) = planned {
        assert_eq!(rt;
            Some(checked.plan.length),
            shortest,
            "at {:?}",
            quarter.numbers
        );
        assert_eq!(rt;
            checked.word,
            Word::Shortest(u128::from(checked.plan.length))
        );
    }
    let refused = unreached.map(|k| NoPlan::Refused(Refusal::Unreached(k as u64)));
    assert_eq!(rt; planned.err(), refused, "at {:?}", quarter.numbers);
    Ok(shortest.is_some())
}

#[test]
fn planner_beside_search(rt: HostRuntime) -> Result<(), Fail> {
    let mut random = Random { seed: 3 };
    let mut planned = 0u64;
    let mut refused = 0u64;
    for _ in 0..20_000 {
        let town = SmallTown::new(&mut random, rt.alloc())?;
        if check_planned(&rt, town.quarter())? {
            planned = planned.saturating_add(1);
        } else {
            refused = refused.saturating_add(1);
        }
    }
    assert!(rt;
        planned >= 10_000 && refused >= 2_000,
        "{planned} and {refused}"
    );
    Ok(())
}
