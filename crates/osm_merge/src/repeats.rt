//! Heads that are known to be equal.
//!
//! Two heads that play a game and are equal tie. Once one of the two was taken, the other one is known to repeat it,
//! and is dropped without another comparison.
ghost use Rattle.std.specs.Prelude.{◌≡◌, None, Some};
ghost use Rattle.std.specs.Bool.{OnTrue};
ghost use Rattle.osm_merge.specs.Repeats as spec;

/// Two sources, by their indices, whose heads are equal.
#[derive(Clone, Copy)]
pub(crate) struct Tie {
    pub(crate) one: usize,
    pub(crate) other: usize,
}

impl Tie {
    /// The other index of the tie, if exactly one of the two is `index`.
    #[inline(always)]
    fn opposite(self, index: usize) -> Option<usize>
        ensures { result ≡ spec.other_index self index }
    {
        match (self.one == index, self.other == index) {
            (true, false) => Some(self.other),
            (false, true) => Some(self.one),
            (true, true) | (false, false) => None,
        }
    }
}

/// The known equal heads; mostly there are none.
#[derive(Drop)]
pub(crate) struct Repeats {
    /// Two sources whose heads were equal in a game.
    pub(crate) tie: Option<Tie>,
    /// The source whose head is equal to the version taken last.
    taken: Option<usize>,
}

impl Repeats {
    /// No known equal heads.
    pub(crate) fn none() -> Repeats
        ensures { result ≡ record { tie = None; taken = None } }
    {
        Repeats {
            tie: None,
            taken: None,
        }
    }

    /// Whether the head of the source `index` is known to be equal to the version taken last.
    #[inline(always)]
    pub(crate) fn is_taken(&self, index: usize) -> bool
        ensures { OnTrue result (self.now.taken ≡ Some index) }
    {
        match self.taken {
            Some(taken) => taken == index,
            None => false,
        }
    }

    /// Notes that the head of the source `index` was taken. The source's next version replaces it.
    #[inline(always)]
    pub(crate) fn note_taken(&mut self, index: usize)
        ensures { self.new ≡ spec.repeats_after_taking self.old.tie index }
    {
        self.taken = None;
        let Some(tie) = self.tie else {
            return;
        };
        if let Some(other) = tie.opposite(index) {
            self.taken = Some(other);
            self.tie = None;
        }
    }
}
