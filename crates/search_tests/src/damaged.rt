// The checker beside a plain one, on what the planner writes and on the same damaged.
use crate::damage::{DAMAGES, Damage};
use crate::plain::plain_answer;
use crate::small_town::SmallTown;
use crate::tally::Tally;
use crate::written::Written;
use road::Refusal;
use sheet::{Word, check_round};
use std::alloc::AllocGlobal;
use std::process::Abort;
use std::test::*;
use test_towns::{Quarter, Random};

fn answer(quarter: Quarter, written: &Written) -> Result<Word, Refusal> {
    check_round(
        quarter.crossings,
        quarter.numbers,
        quarter.depot,
        &written.legs,
        &written.parts,
    )
}

// What is damaged next, and what the answers were.
#[derive(Drop)]
struct Tries {
    random: Random,
    tally: Tally,
}

impl Tries {
    fn check_answer(&mut self, rt: &impl Abort, quarter: Quarter, written: &Written) {
        let answer = answer(quarter, written);
        assert_eq!(rt;
            answer,
            plain_answer(quarter, &written.legs, &written.parts),
            "at {:?}, legs {:?}, parts {:?}",
            quarter.numbers,
            written.legs,
            written.parts
        );
        self.tally.count(answer);
    }

    // Checks the answer when one thing is damaged, and when another is damaged too.
    fn check_damaged(
        &mut self,
        rt: &(impl Abort + AllocGlobal),
        quarter: Quarter,
        written: &Written,
        damage: Damage,
    ) -> Result<(), Fail> {
        let mut damaged = written.copy(rt.alloc())?;
        damaged.damage(damage, quarter, &mut self.random)?;
        self.check_answer(rt, quarter, &damaged);
        let other = self.random.below(DAMAGES.len() as u64) as usize;
        damaged.damage(DAMAGES[other], quarter, &mut self.random)?;
        self.check_answer(rt, quarter, &damaged);
        Ok(())
    }

    // Checks the answer on what the planner writes of a town, if there is a round, and on the same with every kind of damage.
    fn check_town(
        &mut self,
        rt: &(impl Abort + AllocGlobal),
        quarter: Quarter,
    ) -> Result<(), Fail> {
        let mut written = Written::room(rt.alloc())?;
        let Ok(checked) = written.plan(quarter, rt.alloc()) else {
            return Ok(());
        };
        let length = u128::from(checked.plan.length);
        assert_eq!(rt; answer(quarter, &written), Ok(Word::Shortest(length)));
        self.check_answer(rt, quarter, &written);
        for damage in DAMAGES {
            self.check_damaged(rt, quarter, &written, damage)?;
        }
        Ok(())
    }
}

// Every kind of answer comes up.
#[test]
fn checker_beside_plain(rt: HostRuntime) -> Result<(), Fail> {
    let mut tries = Tries {
        random: Random { seed: 4 },
        tally: Tally::new(),
    };
    for _ in 0..4_000 {
        let town = SmallTown::new(&mut tries.random, rt.alloc())?;
        tries.check_town(&rt, town.quarter())?;
    }
    assert!(rt; tries.tally.least() >= 500, "{:?}", tries.tally.counts);
    Ok(())
}
