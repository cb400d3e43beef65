// Every public function on number slices, for C and C++: the answer is the refusal's number, 0 for accepted, and the value goes through a
// pointer, as do a run's place and a walk's state. What goes through these pointers is written on every call.
#![tactic(auto)]

ghost use Rattle.std.specs.Prelude.{◌≡◌, length};
ghost use Rattle.rules.specs.Build.{builds, checks, run_ends};
ghost use Rattle.rules.specs.Join.{joins};
ghost use Rattle.rules.specs.Search.{searches};
ghost use Rattle.rules.specs.Probes.{searches_all};
ghost use Rattle.rules.specs.Tables.{tables};
ghost use Rattle.rules.specs.Walk.{asks, begun};
ghost use Rattle.outward.specs.Outward.{told as told_is, outward, outward₁, outward₂, outward_run, outward_start, outward_ask, state_of, walk_of};

use outward::Told;
use rules::{Grid, Part, Point, Probe, Walk};
use tables::Lent;

// Builds starts and entries; value: the entries, or what the refusal names.
#[unsafe(no_mangle)]
pub extern "C" fn luv_build_n(
    n: u32,
    side: u32,
    reg: &[u32],
    starts: &mut [u32],
    entries: &mut [u32],
    value: &mut u64,
) -> u32
    ensures { (told_is result value.new, starts.new, entries.new) ≡ outward₂ (builds (record { n = n; side = side }) reg.now starts.old entries.old) }
{
    let g = Grid { n, side };
    Told::from(index::build(g, reg, starts, entries)).tell(value)
}

// Whether starts and entries are what the build leaves; value: 1 for yes and 0 for no, or what the refusal names.
#[unsafe(no_mangle)]
pub extern "C" fn luv_check_n(
    n: u32,
    side: u32,
    reg: &[u32],
    starts: &[u32],
    entries: &[u32],
    value: &mut u64,
) -> u32
    ensures { told_is result value.new ≡ outward (checks (record { n = n; side = side }) reg.now starts.now entries.now) }
{
    let g = Grid { n, side };
    let t = Lent {
        reg,
        starts,
        entries,
    };
    Told::from(index::check(g, &t)).tell(value)
}

// Where the run of a class in a tile begins among the entries; value: how many it has. Both are 0 where it is refused.
#[unsafe(no_mangle)]
pub extern "C" fn luv_run_n(
    n: u32,
    side: u32,
    starts: &[u32],
    entries: &[u32],
    tile: u32,
    class: u32,
    from: &mut u64,
    value: &mut u64,
) -> u32
    ensures { (told_is result value.new, «from».new) ≡ outward_run (run_ends (record { n = n; side = side }) starts.now (length entries.now) tile class) }
{
    let g = Grid { n, side };
    match tables::run_ends(g, starts, entries.len(), tile, class) {
        Ok(Part { begin, past }) => {
            *from = begin as u64;
            *value = (past - begin) as u64;
            0
        }
        Err(why) => {
            *from = 0;
            *value = 0;
            Told::from(why).number
        }
    }
}

// Writes the footprints within r of a point; value: the hits, or what the refusal names.
#[unsafe(no_mangle)]
pub extern "C" fn luv_search_n(
    n: u32,
    side: u32,
    reg: &[u32],
    starts: &[u32],
    entries: &[u32],
    x: u32,
    y: u32,
    r: u32,
    out: &mut [u32],
    value: &mut u64,
) -> u32
    ensures { (told_is result value.new, out.new) ≡ outward₁ (searches (record { n = n; side = side }) (tables reg.now starts.now entries.now) (record { x = x; y = y }) r out.old) }
{
    let g = Grid { n, side };
    let t = Lent {
        reg,
        starts,
        entries,
    };
    Told::from(search::search(g, &t, Point { x, y }, r, out)).tell(value)
}

// Writes the radius lists of all probes one behind the other, and each list's end; value: the numbers written, or the index of the probe that is
// refused, 0 where the sizes or the lengths are, or the room needed.
#[unsafe(no_mangle)]
pub extern "C" fn luv_search_all_n(
    n: u32,
    side: u32,
    reg: &[u32],
    starts: &[u32],
    entries: &[u32],
    probes: &[Probe],
    out: &mut [u32],
    ends: &mut [u64],
    value: &mut u64,
) -> u32
    ensures { (told_is result value.new, out.new, ends.new) ≡ outward₂ (searches_all (record { n = n; side = side }) (tables reg.now starts.now entries.now) probes.now out.old ends.old) }
{
    let g = Grid { n, side };
    let t = Lent {
        reg,
        starts,
        entries,
    };
    Told::from(probes::search_all(g, &t, probes, out, ends)).tell(value)
}

// Puts a walk's state where C reads it.
#[tactic(auto, unfolding(outward::specs::Outward::state_of))]
fn tell_state(state: Walk, x: &mut u32, y: &mut u32, waiting: &mut u64, mark: &mut u32)
    ensures { (x.new, y.new, waiting.new, mark.new) ≡ state_of state }
{
    *x = state.x;
    *y = state.y;
    *waiting = state.waiting as u64;
    *mark = outward::mark_no(state.damaged);
}

// Begins a walk from x, y, and hands back its state; value: 0, or what the refusal names.
#[unsafe(no_mangle)]
pub extern "C" fn luv_start_n(
    n: u32,
    side: u32,
    reg: &[u32],
    starts: &[u32],
    entries: &[u32],
    x: u32,
    y: u32,
    front: &mut [u64],
    x_after: &mut u32,
    y_after: &mut u32,
    waiting_after: &mut u64,
    mark_after: &mut u32,
    value: &mut u64,
) -> u32
    ensures { (told_is result value.new, (x_after.new, y_after.new, waiting_after.new, mark_after.new), front.new) ≡ outward_start (begun (record { n = n; side = side }) (tables reg.now starts.now entries.now) (record { x = x; y = y }) front.old) }
{
    let g = Grid { n, side };
    let t = Lent {
        reg,
        starts,
        entries,
    };
    let started = walk::start(g, &t, Point { x, y }, front);
    tell_state(started.walk, x_after, y_after, waiting_after, mark_after);
    Told::from(started.answer).tell(value)
}

// Gives the next j rows of a walk whose state is x, y, waiting and mark, and hands back its state; value: the rows, or what the refusal names.
#[unsafe(no_mangle)]
pub extern "C" fn luv_ask_n(
    n: u32,
    side: u32,
    reg: &[u32],
    starts: &[u32],
    entries: &[u32],
    front: &mut [u64],
    x: u32,
    y: u32,
    waiting: u64,
    mark: u32,
    j: u32,
    out: &mut [u64],
    x_after: &mut u32,
    y_after: &mut u32,
    waiting_after: &mut u64,
    mark_after: &mut u32,
    value: &mut u64,
) -> u32
    ensures { (told_is result value.new, (x_after.new, y_after.new, waiting_after.new, mark_after.new), front.new, out.new) ≡ outward_ask (asks (record { n = n; side = side }) (tables reg.now starts.now entries.now) front.old (walk_of x y waiting mark) j out.old) }
{
    let g = Grid { n, side };
    let before = outward::walk_of(x, y, waiting, mark);
    let t = Lent {
        reg,
        starts,
        entries,
    };
    let asked = walk::ask(g, &t, front, before, j, out);
    tell_state(asked.walk, x_after, y_after, waiting_after, mark_after);
    Told::from(asked.answer).tell(value)
}

// Writes the pairs of R's and S's footprints within r; value: the pairs, or what the refusal names.
#[unsafe(no_mangle)]
pub extern "C" fn luv_join_n(
    n: u32,
    side: u32,
    reg_r: &[u32],
    starts_r: &[u32],
    entries_r: &[u32],
    reg_s: &[u32],
    starts_s: &[u32],
    entries_s: &[u32],
    r: u32,
    out: &mut [u32],
    value: &mut u64,
) -> u32
    ensures { (told_is result value.new, out.new) ≡ outward₁ (joins (record { n = n; side = side }) (tables reg_r.now starts_r.now entries_r.now) (tables reg_s.now starts_s.now entries_s.now) r out.old) }
{
    let g = Grid { n, side };
    let left = Lent {
        reg: reg_r,
        starts: starts_r,
        entries: entries_r,
    };
    let right = Lent {
        reg: reg_s,
        starts: starts_s,
        entries: entries_s,
    };
    Told::from(join::join(g, &left, &right, r, out)).tell(value)
}
