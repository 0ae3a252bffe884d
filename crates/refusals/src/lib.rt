// Why a call is refused: the one error of every call, by name in code, by its number wherever answers are numbers.
#![tactic(auto)]

ghost use Rattle.std.specs.Prelude.{◌≡◌};
ghost use Rattle.refusals.specs.Refusals.{number};

// Why a call is refused. Checks go in this order; the first that applies is the answer.
#[derive(Clone, Copy, Debug, PartialEq, Eq)]
pub enum Refusal {
    // a size outside its limits, a buffer too short for the sizes, or no start made
    BadSizes = 1,
    // a space not below the number of spaces
    NoSpace = 2,
    // a page, an address or a span's end outside its space; a place outside the index
    NoPage = 3,
    // the page has no region
    NoRegion = 4,
    // the page is not a start
    NoStart = 5,
    // the page is a start already
    IsStart = 6,
    // the region has resident pages
    InUse = 7,
    // more absent pages than frames in the pool
    PoolEmpty = 8,
    // the tables or the head are not what the calls leave
    Damaged = 9,
    // the page is in a region, but absent
    PageAbsent = 10,
    // fewer records than regions
    FewRecords = 11,
    // the bytes are no map
    NoMap = 12,
    // the buffer is shorter than the map
    ShortFile = 13,
}

impl Refusal {
    // Its number, as C, the session and the encoded calls say it.
    pub fn number(self) -> u32
        ensures { result ≡ number self }
    {
        self as u32
    }
}

// For a caller that knows refusals by their numbers alone.
impl From<Refusal> for u32 {
    ghost from_gives = { λ no n. n ≡ number no };

    fn from(no: Refusal) -> u32 {
        no.number()
    }
}
