// The marks of all class pairs, read once for a join: the constant table is laid out anew wherever it is read.
ghost use Rattle.join.specs.Marks.{Marks};

// The masks of all 256 class pairs.
pub(crate) fn all_marks() -> [u16; 256]
    ensures { Marks result }
{
    let mut masks = [0; 256];
    for k in 0..256u32 {
        masks[k as usize] = grid::marks::marks(k / 16, k % 16);
    }
    masks
}
