// A question of the text program: searched, and its lines put into a lent output.
#![tactic(auto)]

ghost use Rattle.laws.specs.Lists.{each};
ghost use Rattle.rules.specs.Text.{hit_of};
ghost use Rattle.sheet.specs.Put.{Puts};
ghost use Rattle.answers.specs.Answers.{Named, AllNamed, Answers};

use rules::{Grid, Point};
use sheet::Page;
use tables::{Lent, register};

// Number and square of one hit.
fn put_one(g: Grid, reg: &[u32], q: Point, hit: u32, page: &mut Page)
    requires { Named g reg.now q hit }
    ensures { Puts page.old (hit_of g reg.now q hit) page.new }
{
    let a = register::footprint(g, reg, hit as usize);
    let square = grid::square(grid::near::point(q), a);
    page.put_hit(hit, square);
}

// Number and square of each hit.
fn put_hits(g: Grid, reg: &[u32], q: Point, hits: &[u32], page: &mut Page)
    requires { AllNamed g reg.now q hits.now }
    ensures { Puts page.old (each (hit_of g reg.now q) hits.now) page.new }
{
    for hit in hits {
        put_one(g, reg, q, *hit, page);
    }
}

// Answers one question: the hit count and each hit, or the refusal, from the output's beginning on. Gives how many bytes the text has: Ok of hits,
// Err of a refusal, with which the program ends. The hits are kept in what is lent for them: more than find room there are refused. Where the
// output ends, nothing more is put.
pub fn answer(
    g: Grid,
    t: &Lent<'_, u32>,
    q: Point,
    r: u32,
    hits: &mut [u32],
    out: &mut [u8],
) -> Result<usize, usize>
    ensures { Answers g t.now q r hits.old out.old result hits.new out.new }
{
    let mut page = Page { out, at: 0 };
    match search::search(g, t, q, r, hits) {
        Ok(count) => {
            page.put_found(count);
            put_hits(g, t.reg, q, &hits[..count as usize], &mut page);
            Ok(page.at)
        }
        Err(why) => {
            page.put_refusal(why);
            Err(page.at)
        }
    }
}
