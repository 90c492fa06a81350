//! The next version of each source, and the tournament that finds the least of them. After a version of k sources was
//! taken, about log k games are played, while a search would look at k heads.
ghost use Rattle.std.specs.Prelude.{◌≡◌, ◌+◌, ◌-◌, ◌/◌, ◌<◌, ◌≤◌, ◌^◌, ℕ, None, Some};
ghost use Rattle.std.specs.Prelude.{length, slice_index, slice_index_or, slice_set, IfOk, IfErr};
ghost use Rattle.std.specs.Bool.{OnTrue};
ghost use Rattle.osm_files.specs.Fault.{memory_fault};
ghost use Rattle.osm_merge.specs.Repeats.{repeats_after_taking, IsTied, SavesComparison};
ghost use Rattle.osm_merge.specs.Tree.{IsTree};

use crate::heads::{MergeHead, head_of};
use crate::repeats::Repeats;
use crate::tree::{build, replay};
use osm_files::Fault;
use osm_model::{Ranked, Version};
use std::alloc::Global;

/// The next version of each source, and the games over them.
#[derive(Drop)]
pub(crate) struct Tournament {
    /// The next version of each source.
    heads: Vec<MergeHead>,
    /// The indices of the sources and the winners of the games, in the layout of the module `tree`.
    nodes: Vec<usize>,
    /// Which heads games found equal to others.
    repeats: Repeats,
    /// The comparisons of versions so far, including those with the pending version.
    pub(crate) compared: u64,
}

impl Tournament {
    /// The tournament of `heads`, after all games were played.
    ///
    /// # Errors
    ///
    /// `Memory` when out of memory.
    pub(crate) fn new(alloc: Global, heads: Vec<MergeHead>) -> Result<Tournament, Fault>
        ensures heads { IfOk result (λ t. t.heads.items ≡ heads.items) }
        ensures tree { IfOk result (λ t. IsTree t.heads.items t.nodes.items 1 0) }
        ensures repeats { IfOk result (λ t. t.repeats ≡ record { tie = None; taken = None }) }
        ensures most { IfOk result (λ t. t.compared ≤ length t.heads.items - 1) }
        ensures fault { IfErr result (λ fault. fault ≡ memory_fault) }
    {
        let mut compared = 0;
        match build(alloc, &heads, &mut compared) {
            Ok(nodes) => Ok(Tournament {
                heads,
                nodes,
                repeats: Repeats::none(),
                compared,
            }),
            Err(fault) => Err(fault),
        }
    }

    /// The index of the source with the least head.
    #[inline(always)]
    pub(crate) fn leader(&self) -> usize
        requires some { 0 < length self.now.heads.items }
        requires tree { IsTree self.now.heads.items self.now.nodes.items 1 0 }
        ensures winner { result ≡ slice_index self.now.nodes.items 1 }
        ensures within { result < length self.now.heads.items }
    {
        self.nodes[1]
    }

    /// Whether the head of the source `index` is known to be equal to the version taken last.
    #[inline(always)]
    pub(crate) fn is_repeated(&self, index: usize) -> bool
        ensures { OnTrue result (self.now.repeats.taken ≡ Some index) }
    {
        self.repeats.is_taken(index)
    }

    /// Takes the head of the source `index`, if it has one. The source's next version has to be put before the next
    /// call of `leader`.
    #[inline(always)]
    pub(crate) fn take(&mut self, index: usize) -> Option<Ranked>
        requires { index < length self.old.heads.items }
        ensures version { result ≡ slice_index_or self.old.heads.items index None }
        ensures heads { self.new.heads.items ≡ slice_set self.old.heads.items index None }
        ensures nodes { self.new.nodes ≡ self.old.nodes }
        ensures repeats { self.new.repeats ≡ self.old.repeats }
        ensures compared { self.new.compared ≡ self.old.compared }
    {
        self.heads[index].take()
    }

    /// Puts the next version of the source `index`, if it has one, and plays the games of the source again.
    #[inline(always)]
    pub(crate) fn put(&mut self, index: usize, next: Option<Version>)
        requires index { index < length self.old.heads.items }
        requires tree { IsTree (slice_set self.old.heads.items index next) self.old.nodes.items 1
            ((length self.old.heads.items + index) / 2) }
        requires tied { IsTied (slice_set self.old.heads.items index next)
            (repeats_after_taking self.old.repeats.tie index).tie }
        ensures heads { self.new.heads.items ≡ slice_set self.old.heads.items index next }
        ensures tree { IsTree self.new.heads.items self.new.nodes.items 1 0 }
        ensures tied { IsTied self.new.heads.items self.new.repeats.tie }
        ensures taken { self.new.repeats.taken ≡ (repeats_after_taking self.old.repeats.tie index).taken }
        ensures saved { SavesComparison (repeats_after_taking self.old.repeats.tie index).tie self.old.compared
            self.new.repeats.tie self.new.compared }
        ensures most { (depth : ℕ) → length self.new.heads.items ≤ 2 ^ depth →
            self.new.compared ≤ self.old.compared + depth }
    {
        self.heads[index] = head_of(next);
        self.repeats.note_taken(index);
        replay(
            &mut self.nodes,
            &self.heads,
            index,
            &mut self.repeats.tie,
            &mut self.compared,
        );
    }
}
