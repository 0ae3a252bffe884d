// What the buffer holds before any call, and a sum that shows whether it changed.

// No word is 0, and no two words are the same.
fn word(i: usize) -> u64 {
    0xAAAA_AAAA_AAAA_AAAA ^ i as u64
}

pub(crate) fn fill(index: &mut [u64]) {
    for (i, w) in index.iter_mut().enumerate() {
        *w = word(i);
    }
}

fn mix(s: u64, word: u64) -> u64 {
    (s % 2_147_483_647 * 31 + word % 2_147_483_647) % 2_147_483_647
}

// A sum of the words from word n on that tells their order too.
pub(crate) fn sum(index: &[u64], n: usize) -> u64 {
    index.iter().skip(n).fold(0, |s, word| mix(s, *word))
}
