use bench::bench::Bench;
use bench::verdict::Verdict;
use policy::deadline::Deadline;
use policy::dispatch::running_set;
use policy::heavy::{HeavyFirst, Threshold};
use policy::policy::Policy;
use policy::rank::Rank;
use sheet::fault::{LoadFault, SheetFault};
use std::process::Abort;
use std::test::Fail;
use task::entry::Entry;
use task::table::Table;

/// A sheet for two CPUs: two light tasks, and a heavy one that they starve unless it goes first.
const STRAP: &[u8] = b"CP\x02\
    TK\x00PULSE   \x00\x00\x00\x00\x00\x00\x01\x00\x04\x00\x04\
    TK\x01RADIO   \x01\x00\x00\x00\x00\x00\x01\x00\x04\x00\x04\
    TK\x02FILTER  \x02\x00\x00\x00\x00\x00\x05\x00\x05\x00\x05\
    EN";

/// An entry with a name and a rank by its number.
fn entry(number: u8, offset: u32, runtime: u16, deadline: u16, period: u16) -> Entry {
    Entry {
        number,
        name: [b'@' | number, b' ', b' ', b' ', b' ', b' ', b' ', b' '],
        rank: number,
        offset,
        runtime,
        deadline,
        period,
    }
}

/// A bench with these tasks.
fn filled<P: Policy + Drop>(rt: &impl Abort, policy: P, entries: &[Entry]) -> Bench<P> {
    let mut bench = Bench::new(policy);
    for e in entries {
        assert_eq!(rt; bench.enter(*e), Ok(()));
    }
    bench
}

/// The ten calls, once each, of a bench that is known by the bound of its policy alone. What it is to tell of the strap's
/// sheet after 20 slots is handed in: the running set with its count, the verdict and its line.
fn ten_calls<P: Policy + Drop>(
    rt: &impl Abort,
    policy: P,
    set: (u32, u32),
    verdict: Verdict,
    line: &[u8],
) {
    let mut bench = Bench::new(policy);
    assert_eq!(rt; bench.load(STRAP), Ok(2));
    assert_eq!(rt; bench.withdraw(2), Ok(()));
    assert_eq!(rt;
        bench.enter(Entry {
            name: *b"FILTER  ",
            ..entry(2, 0, 5, 5, 5)
        }),
        Ok(())
    );
    let mut saved = [0; 709];
    assert_eq!(rt; bench.save(2, &mut saved), Ok(STRAP.len()));
    assert!(rt; saved.starts_with(STRAP));
    assert_eq!(rt; bench.start(2), Ok(()));
    assert_eq!(rt; bench.run(20), Ok(verdict));
    assert_eq!(rt; bench.set(), Ok(set));
    assert_eq!(rt; bench.verdict(), Ok(verdict));
    let mut written = [0; 48];
    assert_eq!(rt; bench.line(&mut written), Ok(line.len()));
    assert!(rt; written.starts_with(line));
    assert_eq!(rt; bench.halt(), Ok(()));
}

/// By deadlines and by ranks the heavy task misses.
#[test]
fn ten_calls_under_deadline_and_rank(rt: HostRuntime) {
    let missed = Verdict::Missed {
        task: 2,
        instant: 5,
    };
    ten_calls(&rt, Deadline, (0b101, 2), missed, b"MISSED 2 5\n");
    ten_calls(&rt, Rank, (0b011, 2), missed, b"MISSED 2 5\n");
}

/// With heavy tasks first all hold, under one layer and under two.
#[test]
fn ten_calls_under_a_layer_and_a_pile(rt: HostRuntime) -> Result<(), Fail> {
    let holds = Verdict::Holds {
        first: 0,
        second: 20,
    };
    let layer = HeavyFirst {
        threshold: Threshold::new(1, 2)?,
        below: Deadline,
    };
    ten_calls(&rt, layer, (0b100, 1), holds, b"HOLDS 0 20\n");
    let lower = HeavyFirst {
        threshold: Threshold::new(1, 3)?,
        below: Rank,
    };
    let pile = HeavyFirst {
        threshold: Threshold::new(1, 2)?,
        below: lower,
    };
    ten_calls(&rt, pile, (0b100, 1), holds, b"HOLDS 0 20\n");
    Ok(())
}

/// Three jobs for two CPUs, chosen one after another, the first two while a CPU is free: by ranks the third waits, and by
/// deadlines it takes the place of the first.
#[test]
fn jobs_are_chosen_in_turn(rt: HostRuntime) {
    let mut table = Table::new();
    for e in [
        entry(0, 0, 1, 4, 4),
        entry(1, 0, 1, 3, 3),
        entry(2, 0, 1, 2, 2),
    ] {
        assert_eq!(rt; table.enter(e), Ok(()));
    }
    let mut left = [0; 32];
    left[0] = 1;
    left[1] = 1;
    left[2] = 1;
    assert_eq!(rt; running_set(&Rank, table.tasks(), &left, 0, 2), 0b011);
    assert_eq!(rt; running_set(&Deadline, table.tasks(), &left, 0, 2), 0b110);
}

/// Two equal tasks in turn: in the first slot task 0 runs alone, and in the second task 1.
#[test]
fn two_equal_tasks_run_in_turn(rt: HostRuntime) {
    let mut bench = filled(&rt, Deadline, &[entry(0, 0, 1, 2, 2), entry(1, 0, 1, 2, 2)]);
    assert_eq!(rt; bench.start(1), Ok(()));
    for set in [0b01, 0b10] {
        assert!(rt; bench.run(1).is_ok());
        assert_eq!(rt; bench.set(), Ok((set, 1)));
    }
}

/// Four tasks of one period, of whose boundaries 43 and 44 are the first two neighbours that agree.
#[test]
fn a_schedule_repeats_late(rt: HostRuntime) {
    let four = [
        entry(0, 225, 90, 161, 161),
        entry(1, 115, 40, 161, 161),
        entry(2, 0, 72, 161, 161),
        entry(3, 129, 120, 161, 161),
    ];
    let mut bench = filled(&rt, Deadline, &four);
    assert_eq!(rt; bench.start(2), Ok(()));
    assert_eq!(rt; bench.run(7308), Ok(Verdict::Running { instant: 7308 }));
    assert_eq!(rt;
        bench.run(1),
        Ok(Verdict::Holds {
            first: 7148,
            second: 7309
        })
    );
}

/// A sheet that lacks its last record is read up to there and refused, and the table is the one from before. What is saved
/// of it is loaded into another bench, and saved again.
#[test]
fn a_table_outlives_a_refused_load_and_a_save(rt: HostRuntime) {
    let mut bench = filled(&rt, Rank, &[entry(0, 0, 1, 2, 2), entry(9, 7, 3, 4, 5)]);
    let mut before = [0; 709];
    assert_eq!(rt; bench.save(3, &mut before), Ok(49));
    let fault = LoadFault::Sheet {
        fault: SheetFault::NoMark,
        place: 69,
    };
    assert_eq!(rt; bench.load(&STRAP[..69]), Err(fault));
    let mut after = [0; 709];
    assert_eq!(rt; bench.save(3, &mut after), Ok(49));
    assert_eq!(rt; after, before);
    let (sheet, _) = after.split_at(49);
    let mut other = Bench::new(Deadline);
    assert_eq!(rt; other.load(sheet), Ok(3));
    let mut again = [0; 709];
    assert_eq!(rt; other.save(3, &mut again), Ok(49));
    assert_eq!(rt; again, before);
}
