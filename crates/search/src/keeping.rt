// A search with an array to keep the first hits in: judged and counted, then written.

ghost use Rattle.std.specs.Prelude.{◌≡◌, ◌≤◌, length};
ghost use Rattle.laws.specs.Lists.{over};
ghost use Rattle.rules.specs.Refusals.{paper_answer};
ghost use Rattle.rules.specs.Search.{searches};

use crate::asked::Asked;
use numbers::Form;
use rules::Refusal;

// A list's numbers, written over the beginning of a table.
fn copy<F: Form>(list: &[u32], out: &mut [F])
    requires { length list.now ≤ length (F.numbers out.old) }
    ensures { F.numbers out.new ≡ over list.now (F.numbers out.old) }
{
    for (i, &v) in list.iter().enumerate() {
        F::put(out, i, v);
    }
}

impl<F: Form> Asked<'_, F> {
    // The search: all is judged and counted, and the first hits are kept, before one is written; where not all were kept, they are read a second
    // time.
    pub(crate) fn search_keeping(&self, first: &mut [u32], out: &mut [F]) -> Result<u64, Refusal>
        ensures { (paper_answer result, F.numbers out.new) ≡ searches self.now.g self.now.t self.now.q self.now.r (F.numbers out.old) }
    {
        let count = self.judge_box(first).ok_or(Refusal::Damage)?;
        if F::count(out) < count {
            return Err(Refusal::Room(count as u64));
        }
        if count <= first.len() {
            copy(&first[..count], out);
        } else {
            self.judge_box(out);
        }
        Ok(count as u64)
    }

    // The search, which keeps the first N hits. Its array is zeroed once, since nothing comes before it here: where a function may end before it
    // makes an array, the array is zeroed at its beginning too.
    pub(crate) fn search_first<const N: usize>(&self, out: &mut [F]) -> Result<u64, Refusal>
        requires { N ≤ 2048 }
        ensures { (paper_answer result, F.numbers out.new) ≡ searches self.now.g self.now.t self.now.q self.now.r (F.numbers out.old) }
    {
        self.search_keeping(&mut [0; N], out)
    }
}
