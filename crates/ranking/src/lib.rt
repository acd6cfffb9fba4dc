// Ranks from sorted words, in one walk without a branch.
#![tactic(auto)]

ghost use Rattle.std.specs.Prelude.{◌≤◌, length};
ghost use Rattle.ranking.specs.Ranked.{Rankable, Ranked};

// The distinct keys of the words, and the rank of each word's place among them; how many keys there are.
pub fn ranks_of(ws: &[u64], base: u32, values: &mut [u32], ranks: &mut [u16]) -> usize
    requires ws_len_bound { length ws.now ≤ length values.old }
    requires rankable { Rankable base ws.now (length ranks.old) }
    ensures { Ranked base ws.now values.new ranks.new result }
{
    let Some(first) = ws.first() else {
        return 0;
    };
    let mut last = words::value(base, *first);
    let mut k = 0;
    values[0] = last;
    for w in ws {
        let v = words::value(base, *w);
        k += usize::from(last < v);
        values[k] = v;
        // It fits: the words hold different places, each below 8,192, so there are no more than 8,192 words.
        ranks[words::place(*w)] = k as u16;
        last = v;
    }
    k + 1
}
