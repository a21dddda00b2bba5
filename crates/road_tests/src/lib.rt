// Tests of road by table: refusals with their places, and drives with their faults; and the streets of towns by rule are counted.
#![tactic(auto)]

#[cfg(test)]
mod rule;

#[cfg(test)]
mod tests {
    use road::{Fault, Refusal, SoundTown, Town};
    use std::test::Fail;
    use test_towns::{APART, LOOP, PARALLEL, ROAD, STAR};

    // The refusal of the planner's list, or none.
    fn refused(crossings: u64, numbers: &[u64], depot: u64) -> Option<Refusal> {
        SoundTown::take(crossings, numbers, depot).err()
    }

    // The same where the numbers are streets.
    fn refused_town(crossings: u64, streets: &[[u64; 3]], depot: u64) -> Option<Refusal> {
        refused(crossings, streets.as_flattened(), depot)
    }

    // The length of the legs if they are a round, or their fault.
    fn measured(town: &Town, legs: &[u64]) -> Result<u128, Fault> {
        town.check_as_round(legs)?;
        Ok(town.length(legs))
    }

    // The same of legs from crossing 0, in a town that is taken.
    fn round(crossings: u64, streets: &[[u64; 3]], legs: &[u64]) -> Option<Result<u128, Fault>> {
        let town = Town::take(crossings, streets.as_flattened(), 0).ok();
        town.map(|town| measured(&town, legs))
    }

    #[test]
    fn limits(rt: HostRuntime) {
        assert_eq!(rt; refused(0, &[], 0), Some(Refusal::Crossings(0)));
        assert_eq!(rt; refused(1, &[], 0), None);
        assert_eq!(rt; refused_town(100, &ROAD, 99), Some(Refusal::Unreached(0)));
        assert_eq!(rt; refused_town(101, &ROAD, 0), Some(Refusal::Crossings(101)));
        assert_eq!(rt; refused(1, &[0; 900], 0), None);
        assert_eq!(rt; refused(1, &[0; 903], 0), Some(Refusal::Numbers(903)));
        assert_eq!(rt; refused(2, &[0, 1, 7, 1], 0), Some(Refusal::Numbers(4)));
        assert_eq!(rt; refused(2, &[0, 1, 100_000], 0), None);
        assert_eq!(rt;
            refused(2, &[0, 1, 5, 0, 1, 100_001], 0),
            Some(Refusal::OutOfRange(1))
        );
        assert_eq!(rt;
            refused(2, &[0, 1, 5, 0, 2, 5, 2, 0, 5], 0),
            Some(Refusal::OutOfRange(1))
        );
        assert_eq!(rt; refused(2, &[2, 0, 5], 0), Some(Refusal::OutOfRange(0)));
        assert_eq!(rt; refused_town(2, &ROAD, 2), Some(Refusal::Depot(2)));
    }

    #[test]
    fn what_can_be_come_to(rt: HostRuntime) {
        assert_eq!(rt; refused_town(9, &ROAD, 0), None);
        assert_eq!(rt; refused_town(9, &ROAD, 5), Some(Refusal::Unreached(0)));
        assert_eq!(rt; refused(9, &[], 5), None);
        assert_eq!(rt; refused_town(2, &LOOP, 0), None);
        assert_eq!(rt; refused_town(2, &PARALLEL, 1), None);
        assert_eq!(rt; refused_town(4, &APART, 0), Some(Refusal::Unreached(1)));
        assert_eq!(rt; refused_town(4, &APART, 2), Some(Refusal::Unreached(0)));
        assert_eq!(rt; refused(3, &[2, 1, 1, 1, 0, 1], 0), None);
    }

    #[test]
    fn two_rules_broken(rt: HostRuntime) {
        assert_eq!(rt; refused(0, &[0, 1], 5), Some(Refusal::Crossings(0)));
        assert_eq!(rt; refused(2, &[0, 9], 5), Some(Refusal::Numbers(2)));
        assert_eq!(rt; refused(2, &[0, 9, 1], 5), Some(Refusal::OutOfRange(0)));
        assert_eq!(rt; refused_town(4, &APART, 4), Some(Refusal::Depot(4)));
    }

    #[test]
    fn rounds(rt: HostRuntime) {
        assert_eq!(rt; round(1, &[], &[]), Some(Ok(0)));
        assert_eq!(rt; round(2, &ROAD, &[0, 1]), Some(Ok(14)));
        assert_eq!(rt; round(4, &STAR, &[0, 1, 2, 3, 4, 5]), Some(Ok(18)));
        assert_eq!(rt; round(2, &PARALLEL, &[0, 1, 2, 5]), Some(Ok(12)));
        assert_eq!(rt; round(2, &LOOP, &[0, 2, 1]), Some(Ok(11)));
        assert_eq!(rt; round(2, &LOOP, &[0, 3, 3, 1]), Some(Ok(14)));
    }

    #[test]
    fn faults(rt: HostRuntime) {
        assert_eq!(rt; round(4, &STAR, &[0, 1, 3]), Some(Err(Fault::Leg(2))));
        assert_eq!(rt; round(4, &STAR, &[1]), Some(Err(Fault::Leg(0))));
        assert_eq!(rt; round(4, &STAR, &[0, 1, 6]), Some(Err(Fault::Leg(2))));
        assert_eq!(rt; round(4, &STAR, &[0, 1, 2]), Some(Err(Fault::Home)));
        assert_eq!(rt; round(4, &STAR, &[0, 1, 4, 5]), Some(Err(Fault::Street(1))));
        assert_eq!(rt; round(4, &STAR, &[]), Some(Err(Fault::Street(0))));
        assert_eq!(rt; round(2, &PARALLEL, &[0, 3]), Some(Err(Fault::Street(2))));
        assert_eq!(rt; round(2, &LOOP, &[0, 1]), Some(Err(Fault::Street(1))));
    }

    #[test]
    fn legs_of_no_street(rt: HostRuntime) -> Result<(), Fail> {
        let town = Town::take(4, STAR.as_flattened(), 0)?;
        assert_eq!(rt; town.check_legs(&[0, 5, 1]), Ok(()));
        assert_eq!(rt; town.check_legs(&[0, 6, 7]), Err(Refusal::NoStreet(1)));
        assert_eq!(rt; town.length(&[0, 6, 5]), 6);
        assert_eq!(rt; town.all_streets(), 9);
        Ok(())
    }
}
