//! Key groups of several versions.
ghost use Rattle.std.specs.Prelude.{◌≡◌, ◌+◌, ◌≤◌, [], ◌∷◌, length, option_to_list, is_err, IfOk, IfErr};
ghost use Rattle.std.specs.Vec.Iter.{into_iter_items};
ghost use Rattle.osm_files.specs.Position.{units_left};
ghost use Rattle.osm_files.specs.Groups.{to_ascending, list_of, IsGroup, GathersOn, RefusesOn};

use crate::fault::Fault;
use crate::input::Input;
use crate::reading::Reading;
use crate::reason::Reason;
use osm_model::{Memory, Version};
use std::alloc::Global;
use std::vec::IntoIter;

/// The versions of a key group of at least two, as far as they were read.
#[derive(Drop)]
pub(crate) struct Group {
    first: Version,
    /// The others, in the order of the file.
    others: Vec<Version>,
}

impl Group {
    /// The group that begins with `first` and `second`.
    ///
    /// # Errors
    ///
    /// Only out of memory.
    pub(crate) fn of_two(alloc: Global, first: Version, second: Version) -> Result<Group, Memory>
        ensures { IfOk result (λ group. list_of group ≡ first ∷ second ∷ []) }
    {
        let mut others = Vec::new(alloc);
        others.push(second)?;
        Ok(Group { first, others })
    }

    /// Reads the rest of the group, and returns the version after it, which has a greater key; `None` at the end.
    ///
    /// # Errors
    ///
    /// The fault of a unit, `Unsorted` if the version after the group has a lesser key, or `Memory`.
    pub(crate) fn gather<R: Input>(
        &mut self,
        units: &mut Reading<R>,
    ) -> Result<Option<Version>, Fault>
        requires group { IsGroup self.old.first self.old.others.items }
        ensures input { units.new.input ≡ units.old.input }
        ensures failed { units.new.failed ≡ is_err result }
        ensures first { self.new.first ≡ self.old.first }
        ensures gathers { IfOk result (λ next. GathersOn R.can_give units.old self.old units.new self.new next) }
        ensures refuses { IfErr result (λ fault. RefusesOn R.can_give units.old (list_of self.old) fault units.new) }
        ensures left { IfOk result (λ next.
            units_left units.new + (length (option_to_list next) + length (list_of self.new))
            ≤ units_left units.old + length (list_of self.old)) }
    {
        'units: loop {
            let Some(unit) = units.next()? else {
                return Ok(None);
            };
            let order = self.first.key_cmp(&unit.version);
            if order.is_lt() {
                return Ok(Some(unit.version));
            }
            if order.is_gt() {
                return Err(units.refuse(unit.offset, Reason::Unsorted));
            }
            if let Err(_) = self.others.push(unit.version) {
                return Err(units.refuse(unit.offset, Reason::Memory));
            }
        }
    }

    /// The versions, ascending, each once.
    ///
    /// # Errors
    ///
    /// Only out of memory.
    pub(crate) fn into_ascending(self) -> Result<IntoIter<Version>, Memory>
        ensures given { IfOk result (λ versions. into_iter_items versions ≡ to_ascending (list_of self)) }
        ensures fewer { IfOk result (λ versions. length (into_iter_items versions) ≤ length (list_of self)) }
    {
        let mut versions = self.others;
        versions.push(self.first)?;
        versions.sort_unstable();
        versions.dedup();
        Ok(versions.into_iter())
    }
}
