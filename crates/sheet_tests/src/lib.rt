// Tests of the checker by table: every word and every refusal with its place, and what only looks right.
#![tactic(auto)]

#[cfg(test)]
mod tests {
    use road::{Fault, Refusal};
    use sheet::{SheetFault, Word, check_round};
    use test_towns::{FOUR_COMPLETE, LOOP, PARALLEL, QUARTER, STAR, TWO_ROWS};

    const STAR_LEGS: [u64; 6] = [0, 1, 2, 3, 4, 5];

    const STAR_PARTS: [u64; 15] = [4, 0, 1, 0, 0, 6, 0, 0, 1, 0, 8, 0, 0, 0, 1];

    // The word on legs and parts in the star.
    fn star(legs: &[u64], parts: &[u64]) -> Result<Word, Refusal> {
        check_round(4, STAR.as_flattened(), 0, legs, parts)
    }

    fn no_round(fault: Fault) -> Result<Word, Refusal> {
        Ok(Word::NoRound(fault))
    }

    fn no_sheet(fault: SheetFault) -> Result<Word, Refusal> {
        Ok(Word::NoSheet(fault))
    }

    #[test]
    fn words(rt: HostRuntime) {
        assert_eq!(rt; star(&STAR_LEGS, &STAR_PARTS), Ok(Word::Shortest(18)));
        assert_eq!(rt; star(&STAR_LEGS, &[]), Ok(Word::Apart(18, 9)));
        assert_eq!(rt;
            star(&STAR_LEGS, &[4, 0, 1, 0, 0, 5, 0, 0, 1, 0, 8, 0, 0, 0, 1]),
            Ok(Word::Apart(18, 18))
        );
        assert_eq!(rt;
            star(&[0, 1, 2, 3, 5], &STAR_PARTS),
            no_round(Fault::Leg(4))
        );
        assert_eq!(rt; star(&[0, 1, 2, 3, 4], &STAR_PARTS), no_round(Fault::Home));
        assert_eq!(rt;
            star(&[0, 1, 4, 5], &STAR_PARTS),
            no_round(Fault::Street(1))
        );
        assert_eq!(rt;
            star(&STAR_LEGS, &[4, 0, 1, 0, 0, 6, 1, 1, 0, 0]),
            no_sheet(SheetFault::Part(1))
        );
        assert_eq!(rt;
            star(&STAR_LEGS, &[4, 0, 1, 0, 0, 7, 0, 0, 1, 0]),
            no_sheet(SheetFault::Street(1))
        );
    }

    #[test]
    fn refusals(rt: HostRuntime) {
        assert_eq!(rt;
            check_round(0, &[], 0, &[], &[]),
            Err(Refusal::Crossings(0))
        );
        assert_eq!(rt;
            check_round(2, &[0, 1], 0, &[], &[]),
            Err(Refusal::Numbers(2))
        );
        assert_eq!(rt;
            check_round(2, &[0, 2, 1], 0, &[], &[]),
            Err(Refusal::OutOfRange(0))
        );
        assert_eq!(rt;
            check_round(2, &[0, 1, 1], 2, &[], &[]),
            Err(Refusal::Depot(2))
        );
        assert_eq!(rt; star(&[0, 1, 6, 7], &[]), Err(Refusal::NoStreet(2)));
        assert_eq!(rt; star(&STAR_LEGS, &[4, 0, 1, 0]), Err(Refusal::Parts(4)));
        assert_eq!(rt;
            check_round(1, &[], 0, &[], &[0; 802]),
            Err(Refusal::Parts(401))
        );
        assert_eq!(rt;
            check_round(1, &[], 0, &[], &[1, 0, 10_000_001, 0]),
            Err(Refusal::Parts(1))
        );
        assert_eq!(rt;
            check_round(1, &[], 0, &[0], &[1]),
            Err(Refusal::NoStreet(0))
        );
        assert_eq!(rt;
            check_round(3, &[1, 2, 5], 0, &[], &[]),
            no_round(Fault::Street(0))
        );
    }

    #[test]
    fn edges(rt: HostRuntime) {
        assert_eq!(rt; check_round(1, &[], 0, &[], &[]), Ok(Word::Shortest(0)));
        assert_eq!(rt;
            check_round(1, &[], 0, &[], &[5, 1]),
            no_sheet(SheetFault::Part(0))
        );
        assert_eq!(rt;
            check_round(2, &[0, 1, 7], 0, &[0, 1], &[14, 0, 9]),
            Ok(Word::Shortest(14))
        );
        assert_eq!(rt;
            check_round(2, &[0, 1, 7], 0, &[0, 1], &[14, u64::MAX, 0]),
            Ok(Word::Shortest(14))
        );
        assert_eq!(rt;
            check_round(2, &[0, 1, 0], 0, &[0, 1], &[0, 0, 1]),
            Ok(Word::Shortest(0))
        );
        assert_eq!(rt;
            check_round(2, &[0, 1, 4], 0, &[0], &[3, 1, 1]),
            no_round(Fault::Home)
        );
        assert_eq!(rt;
            check_round(2, &[0, 1, 4], 0, &[0, 1], &[9, 1, 0, 1, 1, 1]),
            no_sheet(SheetFault::Part(1))
        );
    }

    #[test]
    fn two_rows(rt: HostRuntime) {
        let grid = TWO_ROWS.as_flattened();
        assert_eq!(rt;
            check_round(
                6,
                grid,
                0,
                &[0, 2, 12, 7, 11, 10, 5, 9],
                &[2, 0, 1, 0, 0, 0, 0],
            ),
            Ok(Word::Shortest(8))
        );
    }

    // A street whose ends are one crossing makes no crossing odd.
    #[test]
    fn loops(rt: HostRuntime) {
        assert_eq!(rt;
            check_round(2, LOOP.as_flattened(), 0, &[0, 2, 1], &[8, 0, 1]),
            Ok(Word::Shortest(11))
        );
        assert_eq!(rt;
            check_round(2, &[0, 1, 4, 0, 1, 4, 1, 1, 3], 0, &[0, 4, 3], &[1, 0, 1]),
            no_sheet(SheetFault::Part(0))
        );
    }

    // Two streets with the same ends are two.
    #[test]
    fn parallel_streets(rt: HostRuntime) {
        let parallel = PARALLEL.as_flattened();
        assert_eq!(rt;
            check_round(2, parallel, 0, &[0, 1], &[]),
            no_round(Fault::Street(1))
        );
        assert_eq!(rt;
            check_round(2, parallel, 0, &[0, 1, 2, 5], &[4, 0, 1]),
            Ok(Word::Shortest(12))
        );
    }

    // Weights of whole metres fall short where halves are needed.
    #[test]
    fn halves(rt: HostRuntime) {
        let complete = FOUR_COMPLETE.as_flattened();
        let legs = [0, 1, 2, 7, 8, 11, 10, 5];
        assert_eq!(rt;
            check_round(4, complete, 0, &legs, &[2, 1, 0, 0, 0]),
            Ok(Word::Apart(8, 7))
        );
        assert_eq!(rt;
            check_round(4, complete, 0, &legs, &[2, 1, 0, 0, 0, 2, 0, 1, 0, 0]),
            no_sheet(SheetFault::Street(0))
        );
    }

    #[test]
    fn last_worked_town(rt: HostRuntime) {
        let town = QUARTER.as_flattened();
        assert_eq!(rt;
            check_round(
                5,
                town,
                0,
                &[0, 2, 4, 6, 7, 12, 11, 9],
                &[6, 1, 0, 0, 0, 0],
            ),
            Ok(Word::Shortest(26))
        );
    }
}
