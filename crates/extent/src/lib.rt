// The extent of the index: how many words the index of T places takes, and refusals 1 and 3 from a buffer's length. Document 01,
// "Sizes".
#![tactic(auto)]

ghost use Rattle.std.specs.Prelude.{◌≡◌, ◌≤◌};
ghost use Rattle.places.specs.Places.{words_for, size as size_of};
ghost use Rattle.refusals.specs.Refusals.{refusal};
ghost use Rattle.extent.specs.Checks.{places_ok, check_size, check as check_of};
ghost use Rattle.extent.specs.Sizes.{Signum};

use refusals::Refusal;

// Whether T is within its limits.
#[tactic(auto, unfolding(crate::specs::Checks::places_ok))]
pub fn places_ok(places: usize) -> bool
    ensures { result ≡ places_ok places }
{
    1 <= places && places <= 262_144
}

// The words that n bits take. Not by `div_ceil`, which takes three instructions more in each find.
pub fn words_for(n: usize) -> usize
    requires { n ≤ 262144 }
    ensures { result ≡ words_for n }
{
    (n + 63) / 64
}

// 0 for 0, and 1 for every other number.
fn signum(n: usize) -> usize
    ensures { Signum n result }
{
    usize::from(n != 0)
}

// The words of all layers, from the last place's word in each: a layer stands above another where that isn't a single word.
// Without a branch, so that the compiler makes it once where a call checks twice.
pub fn size(places: usize) -> usize
    requires { (1 ≤ places) × (places ≤ 262144) }
    ensures { (result ≡ size_of places) × (result ≤ 4161) }
{
    let low = (places - 1) / 64;
    let middle = low / 64;
    low + (middle + (signum(low) + (signum(middle) + 1)))
}

// Refusal 1, where T or the buffer's length is outside its limits.
#[tactic(auto, unfolding(crate::specs::Checks::check_size))]
pub fn check_size(len: usize, places: usize) -> Result<(), Refusal>
    ensures { refusal result ≡ check_size len places }
{
    if !places_ok(places) {
        return Err(Refusal::BadSizes);
    }
    if len < size(places) {
        return Err(Refusal::BadSizes);
    }
    Ok(())
}

// Refusal 1, then 3, where p is not below T.
#[tactic(auto, unfolding(crate::specs::Checks::check, crate::specs::Checks::check_size))]
pub fn check(len: usize, places: usize, p: usize) -> Result<(), Refusal>
    ensures { refusal result ≡ check_of len places p }
{
    check_size(len, places)?;
    if places <= p {
        return Err(Refusal::NoPage);
    }
    Ok(())
}
