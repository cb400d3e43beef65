// What a join keeps of the pairs that it finds: it counts them all, and lays those that find room whole one behind the other.
ghost use Rattle.std.specs.Prelude.{◌≡◌, ◌≤◌, [], ◌∷◌};
ghost use Rattle.laws.specs.Lists.{only};
ghost use Rattle.join.specs.Keeping.{state, kept, most_pairs};

// How many pairs were found, and the memory that they are laid into.
#[derive(Drop)]
pub(crate) struct Found<'a> {
    pub pairs: u64,
    pub out: &'a mut [u32],
}

impl Found<'_> {
    // Counts a pair where it is near, and lays it behind those found where there is room for both its numbers. Without room no step hangs on
    // the distance: the pair is counted alone.
    #[tactic(auto, unfolding(crate::specs::Keeping::kept, crate::specs::Keeping::keep_one, crate::specs::Keeping::lay))]
    pub(crate) fn keep(&mut self, near: bool, i: u32, j: u32)
        requires { self.old.pairs ≤ most_pairs }
        ensures same_memory { self.new.out.ghost_name ≡ self.old.out.ghost_name }
        ensures kept { state self.new.pairs self.new.out.now ≡ kept (state self.old.pairs self.old.out.now) (only near ((i, j) ∷ [])) }
    {
        let at = 2 * self.pairs as usize;
        if self.out.len() < at + 2 {
            self.pairs += u64::from(near);
        } else if near {
            self.out[at] = i;
            self.out[at + 1] = j;
            self.pairs += 1;
        }
    }
}
