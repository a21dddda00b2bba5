// A way driven leg by leg.
use road::Town;
use test_towns::end_of_drive;
use ways::Way;

// Whether the legs lead from a crossing to a crossing, and are as long together as the way says.
pub(crate) fn leads(town: &Town, way: &Way, start: usize, end: usize) -> bool {
    let lengths = way.legs.iter().map(|leg| town.street(leg.by).long);
    end_of_drive(town, start, &way.legs) == Some(end)
        && lengths.fold(0, u64::wrapping_add) == way.length
}
