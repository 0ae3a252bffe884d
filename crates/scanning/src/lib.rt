// The first start from a place on, by the words of the index's lowest layer.
#![tactic(auto)]

ghost use Rattle.std.specs.Prelude.{◌≡◌, ◌+◌, ◌-◌, ◌≤◌, length};
ghost use Rattle.places.specs.Places.{words_for};
ghost use Rattle.layer.specs.Words.{bit_at};
ghost use Rattle.machine.specs.State.{until_start};
ghost use Rattle.scanning.specs.Starts.{Empty};

// The first word from word `from` on that has a start, among those of `end` places; else the word after them.
fn pass_empty(index: &[u64], from: usize, end: usize) -> usize
    requires { (end ≤ 262144) × (words_for end ≤ length index.now) }
    ensures forward { from ≤ words_for end → from ≤ result }
    ensures within { result ≤ 4096 }
    ensures passed { Empty index.now from result }
{
    let words = end.div_ceil(64);
    for w in from..words {
        if index[w] != 0 {
            return w;
        }
    }
    words
}

// The first start from place p on, or `end`. Words without starts are passed in a loop of their own.
pub fn next_start(index: &[u64], p: usize, end: usize) -> usize
    requires { (p ≤ end) × (end ≤ 262144) × (words_for end ≤ length index.now) }
    ensures { result ≡ p + until_start (bit_at index.now) p (end - p) }
{
    let mut q = p;
    // A `while`: the words tell how far a step goes; one `for` over all words takes two instructions more a word.
    while q < end {
        let rest = index[q / 64] >> (q % 64);
        if rest != 0 {
            return end.min(q + rest.trailing_zeros() as usize);
        }
        q = 64 * pass_empty(index, q / 64 + 1, end);
    }
    end
}
