// The open spaces, in a ring of `RING` places: in marks the bracket of each, in names the length of a name and its bytes.
ghost use Rattle.std.specs.Prelude.{◌≡◌, cond, List, ℕ, suc, ◌+◌, ◌-◌, ◌*◌, ◌%◌, ◌<◌, ◌≤◌, length, take, drop, leb};
ghost use Rattle.reader.specs.Spaces.{opened, named, start_of, name_of};
ghost use Rattle.reader.specs.Kept.{ring, before_slot, after_slot, frames_at};

// The places of the ring.
pub const RING: u8 = fixed::BLOCKS as u8 + 1;

// A place of the ring.
pub fn slot(top: u8) -> u8
    ensures is { result ≡ top % ring }
    ensures small { result < ring }
{
    top % RING
}

// How many places are used.
pub fn depth(deep: u8) -> u8
    ensures is { result ≡ cond (leb deep ring) deep ring }
    ensures small { result ≤ ring }
{
    deep.min(RING)
}

// The place before one.
pub fn before_slot(x: u8) -> u8
    requires { x < ring }
    ensures is { result ≡ before_slot x }
    ensures small { result < ring }
{
    match x {
        0 => RING - 1,
        _ => x - 1,
    }
}

// The place after one.
pub fn after_slot(x: u8) -> u8
    requires { x < ring }
    ensures is { result ≡ after_slot x }
    ensures small { result < ring }
{
    if x == RING - 1 { 0 } else { x + 1 }
}

// A space opens in the place after x.
pub fn open_slot(marks: &mut [u32], names: &mut [u8], x: u8, at: u32)
    requires { (x < ring) × ((length marks.old ≡ ring) × (length names.old ≡ 128 * ring)) }
    ensures grows { (n : ℕ) → n < ring → frames_at marks.new names.new (after_slot x) (suc n) ≡ opened at (frames_at marks.old names.old x n) }
    ensures stays { frames_at marks.new names.new (after_slot x) ring ≡ opened at (frames_at marks.old names.old x ring) }
{
    let s = after_slot(x);
    let y = s as usize;
    marks[y] = at;
    names[128 * y] = 0;
}

// The space at place x gets the first n bytes of word as its name.
// Kept: n beside word, for it is stored as the byte before the name; and a loop, for the library's copy needs `memmove` here, which an archive for C may lack.
pub fn name_slot(names: &mut [u8], x: u8, word: &[u8], n: u8)
    requires { (x < ring) × ((length names.old ≡ 128 * ring) × ((n ≤ 127) × (n ≤ length word.now))) }
    ensures { (marks : List ℕ) (k : ℕ) → k < ring → frames_at marks names.new x (suc k) ≡ named (take n word.now) (frames_at marks names.old x (suc k)) }
{
    let at = 128 * (x as usize);
    let m = n as usize;
    names[at] = n;
    for i in 0..m {
        names[at + 1 + i] = word[i];
    }
}

// How long the name of the innermost of n spaces is, which stands at place x; 0 where there is none.
// Kept: 0 is the length of the name of no space, by the definition `name_of`.
pub fn name_length(names: &[u8], x: u8, n: u8) -> u8
    requires { (x < ring) × (length names.now ≡ 128 * ring) }
    ensures is { (marks : List ℕ) → result ≡ length (name_of (frames_at marks names.now x n)) }
    ensures room { (marks : List ℕ) → name_of (frames_at marks names.now x n) ≡ drop (128 * x + 1) (take (128 * x + 1 + result) names.now) }
    ensures small { result ≤ 127 }
{
    if n == 0 {
        return 0;
    }
    names[128 * (x as usize)] % 128
}

// Its opening bracket, 0 where there is none.
// Kept: 0 as in the definition `start_of`, and the place of a text that has no space open.
pub fn start_of(marks: &[u32], x: u8, n: u8) -> u32
    requires { (x < ring) × (length marks.now ≡ ring) }
    ensures { (names : List ℕ) → result ≡ start_of (frames_at marks.now names x n) }
{
    if n == 0 {
        return 0;
    }
    marks[x as usize]
}
