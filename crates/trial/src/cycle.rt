ghost use Rattle.std.specs.Prelude.{◌≡◌, ◌<◌, ◌≤◌, is_some, Some, None};
ghost use Rattle.schedule.specs.Counting.{count_below};
ghost use Rattle.schedule.specs.Hyperperiod.{gcd as greatest_divisor, lcm as least_multiple};
ghost use Rattle.task.specs.Tables.{entry_of, entry_at};
ghost use Rattle.trial.specs.Cycles.{period_or_one, table_offset, table_period};

use task::task::Task;

/// The longest hyperperiod that a trial may have.
pub const LONGEST_HYPERPERIOD: u32 = 10_000_000;

/// The greatest common divisor.
fn gcd(a: u32, b: u32) -> u32
    ensures { result ≡ greatest_divisor a b }
{
    let mut x = a;
    let mut y = b;
    // stays: Euclid's loop goes from rest to rest, and counts nothing.
    while y != 0 {
        let rest = x % y;
        x = y;
        y = rest;
    }
    x
}

/// The least common multiple, unless it is above the longest hyperperiod.
fn lcm(a: u32, b: u32) -> Option<u32>
    requires { (0 < a) × (0 < b) }
    ensures { elim result [ None ↦ 10000000 < least_multiple a b | Some l ↦ (l ≡ least_multiple a b) × (l ≤ 10000000) ] }
{
    let multiple = u64::from(a / gcd(a, b)) * u64::from(b);
    if multiple > u64::from(LONGEST_HYPERPERIOD) {
        return None;
    }
    Some(multiple as u32)
}

/// How many tasks there are.
pub fn count(tasks: &[Option<Task>; 32]) -> u32
    ensures { result ≡ count_below 32 (λ i. is_some (entry_at tasks.now i)) }
{
    let mut n: u32 = 0;
    // stays: a loop, since a chain of `filter` and `count` took six times as long.
    for place in tasks {
        if place.is_some() {
            n += 1;
        }
    }
    n
}

/// Omax, the largest offset.
pub fn last_offset(tasks: &[Option<Task>; 32]) -> u32
    ensures { (result ≡ table_offset (entry_at tasks.now)) × (result ≤ 1000000) }
{
    let mut largest = 0;
    for place in tasks {
        if let Some(task) = place {
            largest = task.offset().max(largest);
        }
    }
    largest
}

/// The period of the task in a place, and 1 where there is none.
fn period_in(place: &Option<Task>) -> u32
    ensures period { result ≡ period_or_one (entry_of place.now) }
    ensures positive { 0 < result }
{
    match place {
        Some(task) => u32::from(task.period()),
        // stays: 1, which changes no least common multiple.
        None => 1,
    }
}

/// P, the least common multiple of the periods, taken in rising task numbers, unless it is above the longest hyperperiod.
pub fn hyperperiod(tasks: &[Option<Task>; 32]) -> Option<u32>
    ensures { elim result [ None ↦ 10000000 < table_period (entry_at tasks.now) | Some l ↦ (l ≡ table_period (entry_at tasks.now)) × (l ≤ 10000000) ] }
{
    let mut multiple: u32 = 1;
    for place in tasks {
        multiple = lcm(multiple, period_in(place))?;
    }
    Some(multiple)
}
