// What the planner writes of a town.
use round::{Checked, NoPlan, plan_and_check};
use std::alloc::Global;
use std::test::Fail;
use test_towns::Quarter;

// The numbers of a round and of a sheet.
#[derive(Drop)]
pub(crate) struct Written {
    pub legs: Vec<u64>,
    pub parts: Vec<u64>,
}

// How many numbers a part has.
pub(crate) fn width(quarter: Quarter) -> usize {
    (quarter.crossings as usize).saturating_add(1)
}

impl Written {
    // Room for eight streets, and for as many parts as may be at four crossings.
    pub(crate) fn room(heap: Global) -> Result<Written, Fail> {
        Ok(Written {
            legs: vec![in heap; 0; 16]?,
            parts: vec![in heap; 0; 2_000]?,
        })
    }

    pub(crate) fn copy(&self, heap: Global) -> Result<Written, Fail> {
        Ok(Written {
            legs: Vec::from_slice(heap, &self.legs)?,
            parts: Vec::from_slice(heap, &self.parts)?,
        })
    }

    // Plans a town, and keeps just what was written.
    pub(crate) fn plan(&mut self, quarter: Quarter, heap: Global) -> Result<Checked, NoPlan> {
        let checked = plan_and_check(
            quarter.crossings,
            quarter.numbers,
            quarter.depot,
            &mut self.legs,
            &mut self.parts,
            heap,
        )?;
        self.legs.truncate(checked.plan.legs);
        self.parts
            .truncate(checked.plan.parts.saturating_mul(width(quarter)));
        Ok(checked)
    }
}
