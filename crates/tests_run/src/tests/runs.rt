//! What no contract says: what is read, written and answered where a device fails or memory is refused, from octets to text.
mod rows;

use crate::tests::devices::{Full, Giver, Repeater, Taker};
use asn1_device::{ReadSource, WriteSink};
use cert_judge::Policy;
use certpath_engine::{Input, Outcome, RunError, Settings, run};
use jiff::civil::date;
use rows::{ROWS, Row};
use std::alloc::Global;
use std::fmt::Debug;
use std::process::Abort;
use std::test::Fail;

// What came is what was wanted.
fn same<R: Abort, T: PartialEq + Debug + Drop>(rt: &R, got: T, want: T) {
    assert_eq!(rt; got, want);
}

// What the text names is as it should be; a row's name and a number tell which run it was.
fn holds<R: Abort>(rt: &R, it: bool, what: &str, row: &str, number: usize) {
    assert!(rt; it, "{what}: {row}, {number}");
}

const NEVER: usize = usize::MAX;

const INPUTS: [Input; 3] = [Input::Bundle, Input::Anchors, Input::Vouchers];

// What a run asks of its devices, and what they were given.
#[derive(Drop)]
struct Ran {
    answer: Result<Outcome, RunError>,
    taken: Vec<u8>,
    flushes: usize,
    reads: [usize; 3],
}

fn settings() -> Settings {
    Settings {
        target: 0,
        policy: Policy::new(date(2025, 6, 1).at(0, 0, 0, 0), false),
        limit: u32::MAX,
    }
}

// A run on a row, by reads of so many octets; each input fails at the read of its number.
fn run_on(alloc: Global, row: &Row, step: usize, fails_at: [usize; 3], taker: Taker) -> Ran {
    let mut bundle = ReadSource::new(Giver::new(row.bundle, step, fails_at[0]));
    let mut anchors = ReadSource::new(Giver::new(row.anchors, step, fails_at[1]));
    let mut vouchers = ReadSource::new(Giver::new(row.vouchers, step, fails_at[2]));
    let mut sink = WriteSink::new(taker);
    let answer = run(
        alloc,
        &mut bundle,
        &mut anchors,
        &mut vouchers,
        &settings(),
        &mut sink,
    );
    let taker = sink.into_inner();
    Ran {
        answer,
        taken: taker.taken,
        flushes: taker.flushes,
        reads: [
            bundle.into_inner().reads,
            anchors.into_inner().reads,
            vouchers.into_inner().reads,
        ],
    }
}

// A taker that takes all.
fn taker(alloc: Global) -> Taker {
    Taker::new(alloc, NEVER, NEVER, Full::Refuses)
}

// Under `rt try --test --fail-alloc 1..` each growth is refused in turn: nothing is written then, and else the same report.
#[test]
fn a_report_or_want_of_memory(rt: HostRuntime) -> Result<(), Fail> {
    for row in ROWS.iter() {
        for step in [1, 40, NEVER] {
            let ran = run_on(rt.alloc(), row, step, [NEVER; 3], taker(rt.alloc()));
            is_report_or_want(&rt, row, step, &ran);
        }
    }
    Ok(())
}

fn is_report_or_want<R: Abort>(rt: &R, row: &Row, step: usize, ran: &Ran) {
    if ran.answer == Err(RunError::OutOfMemory) {
        holds(
            rt,
            ran.taken.is_empty(),
            "nothing is written",
            row.name,
            step,
        );
    } else {
        holds(rt, ran.answer == Ok(row.outcome), "answer", row.name, step);
        holds(
            rt,
            ran.taken.as_slice() == row.text.as_bytes(),
            "report",
            row.name,
            step,
        );
        holds(rt, ran.flushes == 1, "flushes", row.name, step);
    }
}

// How many reads of so many octets an input takes, the one that meets the end with them.
fn reads_of(octets: &[u8]) -> usize {
    octets.len().div_ceil(40).saturating_add(1)
}

#[test]
fn each_read_fails_once(rt: HostRuntime) -> Result<(), Fail> {
    for row in ROWS.iter() {
        let whole = [
            reads_of(row.bundle),
            reads_of(row.anchors),
            reads_of(row.vouchers),
        ];
        for (place, input) in INPUTS.iter().enumerate() {
            for fails_at in 0..whole[place] {
                let mut fails = [NEVER; 3];
                fails[place] = fails_at;
                let ran = run_on(rt.alloc(), row, 40, fails, taker(rt.alloc()));
                holds(
                    &rt,
                    ran.answer == Err(RunError::Read(*input)),
                    "answer",
                    row.name,
                    fails_at,
                );
                wrote_nothing(&rt, row.name, fails_at, &ran);
                for (other, count) in ran.reads.iter().enumerate() {
                    let wanted = if other < place {
                        whole[other]
                    } else if other == place {
                        fails_at + 1
                    } else {
                        0
                    };
                    holds(&rt, *count == wanted, "reads", row.name, fails_at);
                }
            }
        }
    }
    Ok(())
}

fn wrote_nothing<R: Abort>(rt: &R, row: &str, number: usize, ran: &Ran) {
    holds(rt, ran.taken.is_empty(), "nothing is written", row, number);
    holds(rt, ran.flushes == 0, "flushes", row, number);
}

#[test]
fn a_write_fails_behind_each_octet(rt: HostRuntime) -> Result<(), Fail> {
    for row in ROWS.iter() {
        for room in 0..row.text.len() {
            for (full, step) in [(Full::Refuses, 3), (Full::TakesNone, NEVER)] {
                let taker = Taker::new(rt.alloc(), step, room, full);
                let ran = run_on(rt.alloc(), row, NEVER, [NEVER; 3], taker);
                wrote_a_front(&rt, row, room, &ran);
            }
        }
    }
    Ok(())
}

// A write failed, with so many octets written.
fn wrote_a_front<R: Abort>(rt: &R, row: &Row, room: usize, ran: &Ran) {
    holds(
        rt,
        ran.answer == Err(RunError::Write),
        "answer",
        row.name,
        room,
    );
    let taken = ran.taken.as_slice();
    let is_front = taken.len() == room && row.text.as_bytes().starts_with(taken);
    holds(rt, is_front, "front of the report", row.name, room);
}

#[test]
fn the_flush_fails(rt: HostRuntime) -> Result<(), Fail> {
    for row in ROWS.iter() {
        let mut taker = taker(rt.alloc());
        taker.flush_fails = true;
        let ran = run_on(rt.alloc(), row, NEVER, [NEVER; 3], taker);
        same(&rt, ran.answer, Err(RunError::Write));
        same(&rt, ran.taken.as_slice(), row.text.as_bytes());
        same(&rt, ran.flushes, 1);
    }
    Ok(())
}

// Lines are counted from 1, empty ones too, and one CR right before an LF isn't part of a line. What is bad stands behind the line
// of the first row.
#[test]
fn bad_lines_by_their_numbers(rt: HostRuntime) -> Result<(), Fail> {
    let [row, ..] = &ROWS;
    for (more, number) in [
        (b"x".as_slice(), 2),
        (b"\n\nx\n", 4),
        (b"\n \n", 3),
        (b"00 00\n", 2),
        (b"\r", 2),
        (b"\r\n\r\r\n", 3),
    ] {
        let mut vouchers = row.vouchers.to_vec(rt.alloc())?;
        vouchers.extend_from_slice(more)?;
        let mut bundle = ReadSource::new(Giver::new(row.bundle, NEVER, NEVER));
        let mut anchors = ReadSource::new(Giver::new(row.anchors, NEVER, NEVER));
        let mut lines = ReadSource::new(Giver::new(vouchers.as_slice(), 7, NEVER));
        let mut sink = WriteSink::new(taker(rt.alloc()));
        let answer = run(
            rt.alloc(),
            &mut bundle,
            &mut anchors,
            &mut lines,
            &settings(),
            &mut sink,
        );
        same(&rt, answer, Err(RunError::BadLine(number)));
        let taker = sink.into_inner();
        assert!(rt; taker.taken.is_empty());
        same(&rt, taker.flushes, 0);
    }
    Ok(())
}

// The end may come at the last read that is made.
#[test]
fn a_bundle_without_an_end(rt: HostRuntime) -> Result<(), Fail> {
    let [row, ..] = &ROWS;
    for left in [16_777_215, 16_777_216] {
        let mut bundle = ReadSource::new(Repeater { octet: 0x31, left });
        let mut anchors = ReadSource::new(Giver::new(row.anchors, NEVER, NEVER));
        let mut vouchers = ReadSource::new(Giver::new(row.vouchers, NEVER, NEVER));
        let mut sink = WriteSink::new(taker(rt.alloc()));
        let answer = run(
            rt.alloc(),
            &mut bundle,
            &mut anchors,
            &mut vouchers,
            &settings(),
            &mut sink,
        );
        let taker = sink.into_inner();
        same(&rt, bundle.into_inner().left, 0);
        if left < 16_777_216 {
            same(&rt, answer, Ok(Outcome::NoTarget));
            let text = "end fault 0\nanchors 1 of 1, clean\nno target\ncheck yes\n";
            same(&rt, taker.taken.as_slice(), text.as_bytes());
        } else {
            same(&rt, answer, Err(RunError::TooLong(Input::Bundle)));
            assert!(rt; taker.taken.is_empty());
            same(&rt, anchors.into_inner().reads, 0);
        }
    }
    Ok(())
}
