// Damage to a round and to a sheet.
use crate::written::{Written, width};
use std::test::Fail;
use test_towns::{Quarter, Random};

// A kind of damage, at some leg, some part or some number of a part.
#[derive(Clone, Copy)]
pub(crate) enum Damage {
    LegDropped,
    // With all legs behind it.
    LegsDropped,
    LegTurned,
    LegDoubled,
    // Driven, driven back and driven again.
    LegThrice,
    LegsSwapped,
    // Perhaps to one of no street.
    LegChanged,
    // A weight or a mark, by little.
    NumberChanged,
    // A weight or a mark, to about the highest weight.
    NumberHigh,
    NumberDropped,
    PartDropped,
    PartDoubled,
}

pub(crate) const DAMAGES: [Damage; 12] = [
    Damage::LegDropped,
    Damage::LegsDropped,
    Damage::LegTurned,
    Damage::LegDoubled,
    Damage::LegThrice,
    Damage::LegsSwapped,
    Damage::LegChanged,
    Damage::NumberChanged,
    Damage::NumberHigh,
    Damage::NumberDropped,
    Damage::PartDropped,
    Damage::PartDoubled,
];

// The place of one of the numbers, or 0 if there is none.
fn place(random: &mut Random, list: &[u64]) -> usize {
    random.below(list.len() as u64) as usize
}

fn remove(list: &mut Vec<u64>, i: usize) {
    if i < list.len() {
        list.remove(i);
    }
}

impl Written {
    fn turn_leg(&mut self, i: usize) {
        if let Some(leg) = self.legs.get_mut(i) {
            *leg ^= 1;
        }
    }

    fn double_leg(&mut self, i: usize) -> Result<(), Fail> {
        if i < self.legs.len() {
            self.legs.insert(i, self.legs[i])?;
        }
        Ok(())
    }

    fn drive_thrice(&mut self, i: usize) -> Result<(), Fail> {
        self.double_leg(i)?;
        self.double_leg(i)?;
        self.turn_leg(i.saturating_add(1));
        Ok(())
    }

    fn swap_legs(&mut self, i: usize, j: usize) {
        if i < self.legs.len() && j < self.legs.len() {
            self.legs.swap(i, j);
        }
    }

    fn change_leg(&mut self, i: usize, number: u64) {
        if let Some(leg) = self.legs.get_mut(i) {
            *leg = number;
        }
    }

    fn change_number(&mut self, i: usize, random: &mut Random) {
        if let Some(number) = self.parts.get_mut(i) {
            *number = random.below(number.saturating_add(3));
        }
    }

    fn raise_number(&mut self, i: usize, random: &mut Random) {
        if let Some(number) = self.parts.get_mut(i) {
            *number = random.below(2).saturating_add(10_000_000);
        }
    }

    // Drops the part that begins at a place.
    fn drop_part(&mut self, begin: usize, width: usize) {
        for _ in 0..width {
            remove(&mut self.parts, begin);
        }
    }

    // Writes the part that begins at a place once more, behind the last.
    fn double_part(&mut self, begin: usize, width: usize) -> Result<(), Fail> {
        for k in 0..width {
            if let Some(number) = self.parts.get(begin.saturating_add(k)).copied() {
                self.parts.push(number)?;
            }
        }
        Ok(())
    }

    pub(crate) fn damage(
        &mut self,
        damage: Damage,
        quarter: Quarter,
        random: &mut Random,
    ) -> Result<(), Fail> {
        let legs = (quarter.streets().len() as u64).saturating_mul(2);
        let width = width(quarter).max(1);
        let i = place(random, &self.legs);
        let j = place(random, &self.parts);
        let begin = j.saturating_sub(j % width);
        match damage {
            Damage::LegDropped => remove(&mut self.legs, i),
            Damage::LegsDropped => self.legs.truncate(i),
            Damage::LegTurned => self.turn_leg(i),
            Damage::LegDoubled => self.double_leg(i)?,
            Damage::LegThrice => self.drive_thrice(i)?,
            Damage::LegsSwapped => {
                let other = place(random, &self.legs);
                self.swap_legs(i, other);
            }
            Damage::LegChanged => self.change_leg(i, random.below(legs.saturating_add(2))),
            Damage::NumberChanged => self.change_number(j, random),
            Damage::NumberHigh => self.raise_number(j, random),
            Damage::NumberDropped => remove(&mut self.parts, j),
            Damage::PartDropped => self.drop_part(begin, width),
            Damage::PartDoubled => self.double_part(begin, width)?,
        }
        Ok(())
    }
}
