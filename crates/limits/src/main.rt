// Plays logs at the edges of every limit, and prints of each the replies that should come, and those that came: how many, and the last.
#![tactic(auto)]

use plan::EdgeRow;
use std::alloc::{AllocError, Global};
use std::io;
use text::play;

// How long the lists are that a log is played over.
#[derive(Clone, Copy)]
struct Room {
    rows: usize,
    sheet: usize,
}

const FULL: Room = Room {
    rows: 1024,
    sheet: 1024,
};

// Plays a log over empty rows and a sheet on which every edge is shut, and prints its verdict.
fn check(
    rt: &HostRuntime,
    room: Room,
    name: &str,
    log: &str,
    count: usize,
    last: &str,
) -> io::Result<()> {
    let heap = rt.alloc();
    let mut rows = vec![in heap; EdgeRow::EMPTY; room.rows]?;
    let mut sheet = vec![in heap; 7; room.sheet]?;
    let replies = play(heap, log.as_bytes(), &mut rows, &mut sheet)?;
    let came = replies.lines().count();
    let end = replies.lines().last().unwrap_or("");
    println!(rt; "{name}: should be {count}, {last}; came {came}, {end}")
}

// A log that begins a drawing and then draws so many edges, of which so many leave each junction.
fn drawn(heap: Global, edges: u32, leaving: u8) -> Result<String, AllocError> {
    let mut log = String::from_str(heap, "sectors\t20\t60\t120\n")?;
    let leaving = u32::from(leaving.max(1));
    for k in 0..edges {
        let start = k / leaving;
        let end = 100 + k % leaving;
        let line = format!(in heap; "edge\t{start}\t{end}\t1\t0\t0\n")?;
        log.push_str(line.as_str())?;
    }
    Ok(log)
}

// A log of one edge with this length, and then one call.
fn one_edge(heap: Global, length: u32, call: &str) -> Result<String, AllocError> {
    format!(in heap; "sectors\t20\t60\t120\nedge\t0\t1\t{length}\t0\t0\n{call}")
}

fn lengths(rt: &HostRuntime) -> io::Result<()> {
    let heap = rt.alloc();
    let log = one_edge(heap, 100_000, "")?;
    check(rt, FULL, "the longest edge", &log, 2, "edge\t0")?;
    let log = one_edge(heap, 100_001, "")?;
    check(rt, FULL, "too long", &log, 2, "refused\t4\t100001\t2\tplan")?;
    let log = one_edge(heap, 0, "")?;
    check(rt, FULL, "no length", &log, 2, "refused\t4\t0\t2\tplan")?;
    let log = one_edge(heap, 1, "measure\t0\t100000")?;
    check(rt, FULL, "measured longest", &log, 3, "ok")?;
    let log = one_edge(heap, 1, "measure\t0\t100001")?;
    check(
        rt,
        FULL,
        "measured too long",
        &log,
        3,
        "refused\t4\t100001\t3\tplan",
    )
}

fn counts(rt: &HostRuntime) -> io::Result<()> {
    let heap = rt.alloc();
    let log = drawn(heap, 16, 16)?;
    check(rt, FULL, "16 leave", &log, 17, "edge\t15")?;
    let log = drawn(heap, 17, 17)?;
    check(
        rt,
        FULL,
        "a 17th leaves",
        &log,
        18,
        "refused\t7\t0\t18\tplan",
    )?;
    let log = drawn(heap, 1024, 16)?;
    check(rt, FULL, "1,024 edges", &log, 1025, "edge\t1023")?;
    let log = drawn(heap, 1025, 16)?;
    check(
        rt,
        FULL,
        "one more",
        &log,
        1026,
        "refused\t2\t1024\t1026\tplan",
    )?;
    let more = Room {
        rows: 1025,
        sheet: 1024,
    };
    check(
        rt,
        more,
        "one more, and a row for it",
        &log,
        1026,
        "refused\t2\t1024\t1026\tplan",
    )
}

fn lists(rt: &HostRuntime) -> io::Result<()> {
    let heap = rt.alloc();
    let one = Room { rows: 1, sheet: 1 };
    let log = drawn(heap, 2, 16)?;
    check(rt, one, "all rows used", &log, 3, "refused\t2\t1\t3\tplan")?;
    let short = Room { rows: 2, sheet: 1 };
    let log = format!(in heap; "{log}close\t0")?;
    check(
        rt,
        short,
        "a short sheet",
        &log,
        4,
        "refused\t10\t2\t4\tplan",
    )?;
    let log = one_edge(heap, 1, "close\t0")?;
    check(rt, one, "a sheet just long enough", &log, 3, "ok")?;
    let log = one_edge(heap, 1, "open\t0")?;
    check(
        rt,
        one,
        "the sheet was cleared",
        &log,
        3,
        "refused\t9\t0\t3\tplan",
    )
}

fn sizes(rt: &HostRuntime) -> io::Result<()> {
    let heap = rt.alloc();
    let log = "\n".repeat(heap, 65_000)?;
    check(
        rt,
        FULL,
        "65,000 bytes",
        &log,
        65_000,
        "refused\t12\t1\t65000\ttext",
    )?;
    let log = "\n".repeat(heap, 65_001)?;
    check(rt, FULL, "65,001 bytes", &log, 1, "refused\t13\t0\t0\ttext")?;
    check(rt, FULL, "no bytes", "", 0, "")?;
    check(
        rt,
        FULL,
        "one empty line",
        "\n",
        1,
        "refused\t12\t1\t1\ttext",
    )?;
    check(
        rt,
        FULL,
        "no newline at the end",
        "\nsectors\t0\t0\t0",
        2,
        "ok",
    )?;
    check(
        rt,
        FULL,
        "a newline at the end",
        "\nsectors\t0\t0\t0\n",
        2,
        "ok",
    )
}

fn fields(rt: &HostRuntime) -> io::Result<()> {
    let cases = [
        ("missing", "sectors\t20\t60", "refused\t12\t4\t1\ttext"),
        (
            "surplus",
            "sectors\t20\t60\t120\t",
            "refused\t12\t5\t1\ttext",
        ),
        ("empty", "sectors\t\t60\t120", "refused\t12\t2\t1\ttext"),
        ("00", "sectors\t00\t60\t120", "refused\t12\t2\t1\ttext"),
        ("07", "sectors\t0\t07\t120", "refused\t12\t3\t1\ttext"),
        (
            "1000000",
            "sectors\t0\t7\t1000000",
            "refused\t12\t4\t1\ttext",
        ),
        ("999999", "sectors\t0\t7\t999999", "refused\t1\t3\t1\tplan"),
        ("180", "sectors\t180\t180\t180", "ok"),
        ("181", "sectors\t181\t180\t180", "refused\t1\t1\t1\tplan"),
    ];
    for (name, log, last) in cases {
        check(rt, FULL, name, log, 1, last)?;
    }
    Ok(())
}

fn main(rt: HostRuntime) -> io::Result<()> {
    lengths(&rt)?;
    counts(&rt)?;
    lists(&rt)?;
    sizes(&rt)?;
    fields(&rt)
}
