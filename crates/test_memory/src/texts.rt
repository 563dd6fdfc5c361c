//! Texts that are played.

use crate::streamed::Stream;
use std::alloc::AllocError;

/// Steps: some are recorded, one returns a fault and one waits.
pub const STEPS: &[u8] = b"aqs-steps 1 lock fair seats 2 conditions 1 cap 64\n\
0 acquire x 1\n\
1 try x 1\n\
0 await 0\n\
0 look\n\
1 signal 3\n\
end 5\n";

/// A history that is legal.
pub const HISTORY: &[u8] = b"aqs-history 1 lock fair seats 2 conditions 1 cap 64\n\
0 0 got x 1\n\
1 1 queued x 1\n\
2 0 await 0 1\n\
3 1 granted x 1\n\
4 1 signal 0 1\n\
5 1 gave x 1\n\
6 0 back 0 1 signalled\n\
end 7 5\n";

/// A history that is illegal from its second entry on.
pub const WRONG: &[u8] = b"aqs-history 1 rw fair seats 2 conditions 1 cap 16\n\
0 0 got s 1\n\
1 1 got x 1\n\
end 2 2\n";

/// A text for each stream.
pub const THROUGH: [(Stream, &[u8]); 4] = [
    (Stream::Replay, STEPS),
    (Stream::History, STEPS),
    (Stream::Audit, HISTORY),
    (Stream::Draw, HISTORY),
];

/// Steps with the greatest numbers of seats and conditions, for each object.
pub const WIDE: [&[u8]; 5] = [
    b"aqs-steps 1 lock fair seats 256 conditions 16 cap 64\n\
0 acquire x 1\n1 try x 1\n0 await 15\nend 3\n",
    b"aqs-steps 1 rw strict seats 256 conditions 16 cap 64\n\
0 acquire s 1\n1 acquire x 1\n0 give s 1\nend 3\n",
    b"aqs-steps 1 semaphore strict seats 256 permits 1 cap 64\n\
0 acquire s 1\n1 acquire s 1\nend 2\n",
    b"aqs-steps 1 latch seats 256 count 1 cap 64\n0 acquire s 1\n1 give s 1\n0 look\nend 3\n",
    b"aqs-steps 2 lock nonfair seats 256 conditions 16 cap 64\n\
0 acquire x 1\ntrim\n1 try x 1\ntrim\nend 4\n",
];

/// Texts with trims, after which some seats wait and others hold.
pub const TRIMMED: [&[u8]; 4] = [
    b"aqs-steps 2 lock fair seats 3 conditions 1 cap 16\n\
0 acquire x 1\n0 acquire x 1\n0 await 0\n1 acquire x 1\n2 acquire x 1\ntrim\ntrim\n\
1 signal 0\n1 give x 1\n2 look\ntrim\nend 11\n",
    b"aqs-steps 2 rw strict seats 3 conditions 2 cap 16\n\
0 acquire s 1\n1 acquire x 1\ntrim\n0 give s 1\n1 look\n1 await 1\ntrim\n2 acquire x 1\n\
2 signalall 1\ntrim\nend 10\n",
    b"aqs-steps 2 semaphore fair seats 2 permits 1 cap 16\n\
0 acquire s 1\n1 acquire s 2\ntrim\n0 give s 1\ntrim\n1 look\ntrim\nend 7\n",
    b"aqs-steps 2 latch seats 2 count 1 cap 16\n\
0 acquire s 1\ntrim\n1 give s 1\n0 look\ntrim\nend 5\n",
];

/// A history on a base, after which one seat waits on a condition and another owns.
pub const ON_SLEEPER: &[u8] = b"aqs-history 2 lock fair seats 2 conditions 1 cap 16\n\
base 4\nseat 0 calls 2 x 0 s 0\nseat 1 calls 1 x 1 s 0\nsleeper 0 0 2\n\
4 1 signal 0 1\n5 1 gave x 1\n6 0 back 0 2 signalled\nend 7 6\n";

/// An illegal one: a writer is granted while another seat reads.
pub const ON_READER: &[u8] = b"aqs-history 2 rw nonfair seats 3 conditions 0 cap 16\n\
base 3\nseat 0 calls 1 x 0 s 1\nseat 1 calls 0 x 0 s 0\nseat 2 calls 0 x 0 s 0\n\
line 1 queued x 1\nline 2 queued s 1\n3 1 granted x 1\nend 4 2\n";

/// One of a latch, on which a seat waits.
pub const ON_COUNT: &[u8] = b"aqs-history 2 latch seats 2 count 2 cap 64\n\
base 2 count 1\nseat 0 calls 1 x 0 s 0\nseat 1 calls 0 x 0 s 0\nline 1 queued s 1\n\
2 0 counted s 1\n3 1 granted s 1\nend 4 3\n";

/// Each possible call of each object.
pub const SCRIPT: &[u8] = br#"{"objects": [["a", "lock nonfair seats 2 conditions 1 cap 100"],
 ["b-2", "rw fair seats 2 conditions 16 cap 4294967295"],
 ["0", "semaphore fair seats 2 permits -3 cap 16"], ["-", "latch seats 2 count 7 cap 17"]],
 "threads": [{"repeat": 1000000, "calls": ["a acquire x 1", "b-2 acquire-interruptible s 4294967295",
 "0 acquire-timed s 0 4294967295", "a try x 2", "- give s 1", "a await 255", "b-2 await-interruptible 0",
 "a await-timed 1 0", "a signal 2", "a signalall 3", "0 drain", "- trim",
 "interrupt 1"]}, {"calls": [], "repeat": 1}]}
"#;

/// Appends a line `times` times.
pub fn put_times(out: &mut String, line: &str, times: u32) -> Result<(), AllocError> {
    for _ in 0..times {
        out.push_str(line)?;
    }
    Ok(())
}

/// Appends the steps of `pairs` pairs of an acquire and a release, each of which is recorded, with a look
/// after each acquire while nobody waits.
pub fn put_pairs(out: &mut String, pairs: u32) -> Result<(), AllocError> {
    out.push_str("aqs-steps 1 lock nonfair seats 2 conditions 0 cap 4294967295\n")?;
    put_times(out, "0 acquire x 1\n1 look\n0 give x 1\n", pairs)?;
    write!(out, "end {}\n", u64::from(pairs) * 3)
}

/// Appends the history of these pairs.
pub fn put_history_of_pairs(out: &mut String, pairs: u32) -> Result<(), AllocError> {
    out.push_str("aqs-history 1 lock nonfair seats 2 conditions 0 cap 4294967295\n")?;
    for pair in 0..u64::from(pairs) {
        let (got, gave) = (pair * 2, pair * 2 + 1);
        write!(out, "{got} 0 got x 1\n{gave} 0 gave x 1\n")?;
    }
    let entries = u64::from(pairs) * 2;
    write!(out, "end {entries} {entries}\n")
}

/// Appends a history on a base in which each of 256 seats sleeps, on one of 16 conditions.
pub fn put_history_of_sleepers(out: &mut String) -> Result<(), AllocError> {
    out.push_str("aqs-history 2 lock nonfair seats 256 conditions 16 cap 64\nbase 512\n")?;
    for seat in 0..256 {
        write!(out, "seat {seat} calls 1 x 0 s 0\n")?;
    }
    for place in 0..256 {
        let condition = place / 16;
        let seat = place % 16 * 16 + condition;
        write!(out, "sleeper {condition} {seat} 1\n")?;
    }
    out.push_str("end 512 256\n")
}

/// Appends a script of 256 threads, with 16 calls each.
pub fn put_wide_script(out: &mut String) -> Result<(), AllocError> {
    out.push_str(r#"{"objects":[["a","lock nonfair seats 256 conditions 0 cap 16"]],"threads":["#)?;
    for thread in 0..256 {
        out.push_str(if thread == 0 { "{" } else { ",{" })?;
        out.push_str(r#""repeat":1,"calls":["a try x 1""#)?;
        put_times(out, r#","a try x 1""#, 15)?;
        out.push_str("]}")?;
    }
    out.push_str("]}")
}
