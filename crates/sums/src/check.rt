// The check of a block: two sums over its first 508 bytes.
ghost use Rattle.std.specs.Prelude.{◌≡◌, ◌+◌, ◌*◌, ◌<◌, ◌≤◌, length};
ghost use Rattle.fixed.specs.Bytes.{block_at};
ghost use Rattle.record.specs.Layout.{plain, weighed, checked};
ghost use Rattle.sums.specs.Columns.{DownAll, Across};

use octets::{byte_at, two_at};

// The two sums, modulo 65535: `plain` adds the bytes up as they are, `weighed` adds up byte i times 508 - i.
#[derive(Clone, Copy, Debug, PartialEq, Eq)]
pub struct Sums {
    pub plain: u32,
    pub weighed: u32,
}

// The columns of a block, taken as 16 rows of 32 bytes, down to some row. `sums` has the total of each column's bytes. `runnings` has the total of the sums that
// one has on the way down, so that after all rows the byte in row r is in it 16 - r times.
#[derive(Clone, Copy)]
struct Columns {
    sums: [u16; 32],
    runnings: [u16; 32],
}

// One row more. It goes across the columns, which lets the compiler add many bytes at a time.
fn add_row(page: &[u8], n: u32, row: usize, c: Columns) -> Columns
    requires { (512 * n + 512 ≤ length page.now) × (row < 16) × DownAll (block_at page.now n) c.sums c.runnings row }
    ensures { DownAll (block_at page.now n) result.sums result.runnings (row + 1) }
{
    let start = 512 * (n as usize) + 32 * row;
    let mut sums = c.sums;
    let mut runnings = c.runnings;
    for k in 0..32 {
        let sum = sums[k] + u16::from(page[start + k]);
        runnings[k] += sum;
        sums[k] = sum;
    }
    Columns { sums, runnings }
}

// All rows of block n.
fn sum_rows(page: &[u8], n: u32) -> Columns
    requires { 512 * n + 512 ≤ length page.now }
    ensures { DownAll (block_at page.now n) result.sums result.runnings 16 }
{
    let mut c = Columns {
        sums: [0; 32],
        runnings: [0; 32],
    };
    for row in 0..16 {
        c = add_row(page, n, row, c);
    }
    c
}

// What the columns come to: their sums, their runnings, and each sum as often as its column's place and 4 more.
#[derive(Clone, Copy)]
struct Totals {
    sum: u32,
    running: u32,
    over: u32,
}

// The columns of block n, added up. A sum is taken in two parts, of 64s and of what is left, and a running in 256s, so that 16 bits are enough for each part and
// the compiler adds as many at a time as before.
fn sum_columns(page: &[u8], n: u32) -> Totals
    requires { 512 * n + 512 ≤ length page.now }
    ensures { Across (block_at page.now n) result.sum result.running result.over 32 }
{
    let Columns { sums, runnings } = sum_rows(page, n);
    let mut sum_high: u16 = 0;
    let mut sum_low: u16 = 0;
    let mut running_high: u16 = 0;
    let mut running_low: u16 = 0;
    let mut place_high: u16 = 0;
    let mut place_low: u16 = 0;
    for k in 0..32 {
        let place = k as u16;
        let high = sums[k] / 64;
        let low = sums[k] % 64;
        let running = runnings[k];
        sum_high += high;
        sum_low += low;
        running_high += running / 256;
        running_low += running % 256;
        place_high += place * high;
        place_low += place * low;
    }
    let sum = 64 * (sum_high as u32) + (sum_low as u32);
    Totals {
        sum,
        running: 256 * (running_high as u32) + (running_low as u32),
        over: 64 * (place_high as u32) + (place_low as u32) + 4 * sum,
    }
}

// The sums of block n. Byte i is in row i / 32 and column k = i % 32, so 32 * running has it 32 * (16 - i / 32) = 512 - i + k times. The check asks for 508 - i
// times, so `over` takes k + 4 off for each byte of column k. The last four bytes are the check itself and are to count for nothing: bytes 509, 510 and 511 now
// stand at -1, -2 and -3 times, and are added back.
pub fn sum_up(page: &[u8], n: u32) -> Sums
    requires { 512 * n + 512 ≤ length page.now }
    ensures { (result.plain ≡ plain (block_at page.now n)) × (result.weighed ≡ weighed (block_at page.now n)) }
{
    let t = sum_columns(page, n);
    let a = byte_at(page, n, 508);
    let b = byte_at(page, n, 509);
    let c = byte_at(page, n, 510);
    let d = byte_at(page, n, 511);
    Sums {
        plain: (t.sum - (a + b + c + d)) % 65535,
        weighed: (32 * t.running + b + 2 * c + 3 * d - t.over) % 65535,
    }
}

// Whether block n holds the check that its bytes ask for.
#[tactic(auto, unfolding(record::specs::Layout::checked))]
pub fn is_checked(page: &[u8], n: u32) -> bool
    requires { 512 * n + 512 ≤ length page.now }
    ensures { result ≡ checked (block_at page.now n) }
{
    let Sums { plain, weighed } = sum_up(page, n);
    two_at(page, n, 508) == plain && two_at(page, n, 510) == weighed
}
