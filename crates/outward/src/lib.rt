// Answers as C has them: the refusal's number, 0 for accepted, and a value, 0 where the rules name none.
#![tactic(auto)]

ghost use Rattle.std.specs.Prelude.{◌≡◌};
ghost use Rattle.rules.specs.Refusals.{paper, paper_answer, paper_listed, paper_checked};
ghost use Rattle.outward.specs.Outward.{told, outward, mark_no, walk_of};

use rules::{ListRefusal, Refusal, Walk};

// An answer as C has it.
#[derive(Clone, Copy)]
pub struct Told {
    pub number: u32,
    pub value: u64,
}

impl Told {
    // The number, as C has it returned; the value goes where C reads it.
    pub fn tell(self, value: &mut u64) -> u32
        ensures { told result value.new ≡ self }
    {
        *value = self.value;
        self.number
    }
}

// A refusal's number and its value, 0 where it has none.
impl From<Refusal> for Told {
    ghost from_gives = { λ r t. t ≡ outward (paper r) };

    #[tactic(auto, unfolding(crate::specs::Outward::outward, rules::specs::Refusals::paper))]
    fn from(r: Refusal) -> Told {
        let (number, value) = match r {
            Refusal::Sizes => (1, 0),
            Refusal::Lengths => (2, 0),
            Refusal::Footprint(i) => (3, u64::from(i)),
            Refusal::Place => (4, 0),
            Refusal::Radius => (5, 0),
            Refusal::Damage => (7, 0),
            Refusal::Room(need) => (6, need),
            Refusal::Text(line) => (8, u64::from(line)),
        };
        Told { number, value }
    }
}

// An answer's number and its value.
impl From<Result<u64, Refusal>> for Told {
    ghost from_gives = { λ a t. t ≡ outward (paper_answer a) };

    #[tactic(auto, unfolding(crate::specs::Outward::outward, rules::specs::Refusals::paper_answer))]
    fn from(a: Result<u64, Refusal>) -> Told {
        match a {
            Ok(value) => Told { number: 0, value },
            Err(r) => Told::from(r),
        }
    }
}

// The number of a list of searches, and its value: of a refusal that a probe meets, the probe's index.
impl From<Result<u64, ListRefusal>> for Told {
    ghost from_gives = { λ a t. t ≡ outward (paper_listed a) };

    #[tactic(auto, unfolding(crate::specs::Outward::outward, rules::specs::Refusals::paper_listed))]
    fn from(a: Result<u64, ListRefusal>) -> Told {
        match a {
            Ok(value) => Told { number: 0, value },
            Err(ListRefusal::At(why, i)) => Told {
                value: u64::from(i),
                ..Told::from(why)
            },
            Err(ListRefusal::Whole(why)) => Told::from(why),
        }
    }
}

// A check's number, and 1 for yes, 0 for no.
impl From<Result<bool, Refusal>> for Told {
    ghost from_gives = { λ a t. t ≡ outward (paper_checked a) };

    #[tactic(auto, unfolding(crate::specs::Outward::outward, rules::specs::Refusals::paper_checked))]
    fn from(a: Result<bool, Refusal>) -> Told {
        match a {
            Ok(yes) => Told {
                number: 0,
                value: u64::from(yes),
            },
            Err(r) => Told::from(r),
        }
    }
}

// A mark as a number: 1 where it is set.
pub fn mark_no(set: bool) -> u32
    ensures { result ≡ mark_no set }
{
    u32::from(set)
}

// The state of a walk from its numbers.
#[tactic(auto, unfolding(crate::specs::Outward::walk_of, crate::specs::Outward::is_marked))]
pub fn walk_of(x: u32, y: u32, waiting: u64, mark: u32) -> Walk
    ensures { result ≡ walk_of x y waiting mark }
{
    Walk {
        x,
        y,
        waiting: waiting as usize,
        damaged: mark != 0,
    }
}
