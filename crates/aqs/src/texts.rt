//! The texts of the pages.

/// All commands.
pub const OVERVIEW: &[u8] = b"\
    aqs answers, judges, draws, explains and sums up what happens at a lock, a read-write lock, a\n\
    semaphore or a latch.\n\
    \n\
    \x20 aqs replay [--history] [FILE]          answers each step of a steps text\n\
    \x20 aqs audit [FILE]                       says whether a history is legal, and adds it up\n\
    \x20 aqs explain [--at K] [FILE]            says why an entry of a history is legal or not, or where\n\
    \x20                                        any text is wrong\n\
    \x20 aqs summary [FILE]                     sums a history up: a line for each thread\n\
    \x20 aqs draw [--from A] [--to B] [FILE]    draws a history as an SVG document\n\
    \x20 aqs draw --page [FILE]                 writes a page of HTML that steps through a history\n\
    \x20 aqs run [FILE]                         runs the threads of a script\n\
    \x20 aqs manual [COMMAND]                   writes this page, or that of a command\n\
    \x20 aqs about                              writes the version, and what is proved\n\
    \n\
    Without FILE a command reads standard input. With -o FILE one that reads a text writes to a file:\n\
    after a fault that is as it was. A name of a file does not begin with a minus sign. Nothing is\n\
    written before all is read. A fault is one line on standard error. On a terminal a line there says\n\
    how much of a long text was read, and is wiped in the end.\n\
    \n\
    Status: 0 good; 1 the history is not legal; 2 the command line; 3 the text; 4 a device or a\n\
    thread; 5 memory.\n";

/// What a replay is.
pub const REPLAY: &[u8] = b"\
    aqs replay [--history] [--output F] [FILE]\n\
    \n\
    Reads a steps text and answers each step: the number of the entry that it makes, the thread, the\n\
    entry, and the thread to wake. A thread has a number from 0, its seat.\n\
    \n\
    \x20 --history     writes the history text of the entries instead\n\
    \x20 --output F    writes to the file F in place of standard output. -o F is the same\n\
    \n\
    Example. From the text\n\
    \n\
    \x20 aqs-steps 1 lock fair seats 2 conditions 0 cap 16\n\
    \x20 0 acquire x 1\n\
    \x20 1 acquire x 1\n\
    \x20 0 give x 1\n\
    \x20 1 look\n\
    \x20 end 4\n\
    \n\
    it writes\n\
    \n\
    \x20 aqs-replay 1 lock fair seats 2 conditions 0 cap 16\n\
    \x20 0 0 got x 1\n\
    \x20 1 1 queued x 1\n\
    \x20 2 0 gave x 1 wakes 1\n\
    \x20 3 1 granted x 1\n\
    \x20 end 4 3\n\
    \n\
    The first line has the object: lock, rw, semaphore or latch, with fair, nonfair or strict. The\n\
    last line counts the steps; in the answer the entries, and those that end a call. Steps are\n\
    acquire, try, tryfair, entryinterrupt and give with a mode, x or s, and an amount; look, expire,\n\
    interrupt and drain; await, signal and signalall with a condition.\n";

/// What an audit is.
pub const AUDIT: &[u8] = b"\
    aqs audit [--json] [--output F] [FILE]\n\
    \n\
    Reads a history text and judges it: it is legal if each entry is one that a step of its thread\n\
    makes after the entries before it. A legal history is added up. For any other the first entry that\n\
    is not legal is named, and the status is 1.\n\
    \n\
    \x20 --json        writes a JSON object in place of lines\n\
    \x20 --output F    writes to the file F in place of standard output. -o F is the same\n\
    \n\
    Example. From the text\n\
    \n\
    \x20 aqs-history 1 lock fair seats 2 conditions 0 cap 16\n\
    \x20 0 0 got x 1\n\
    \x20 1 1 queued x 1\n\
    \x20 2 0 gave x 1\n\
    \x20 end 3 2\n\
    \n\
    it writes\n\
    \n\
    \x20 legal\n\
    \x20 entries 3\n\
    \x20 calls 2\n\
    \x20 holds x 0 s 0 line 1 sleepers 0\n";

/// What an explanation is.
pub const EXPLAIN: &[u8] = b"\
    aqs explain [--at K] [--json] [--output F] [FILE]\n\
    \n\
    Reads a history text and explains its first entry that is not legal, or the state at its end. It\n\
    writes the state before the entry: who holds, the queue in order, the sleepers of each condition.\n\
    Then it writes what each step of the thread would have recorded there, with the rule that decides\n\
    and its heading in the specification. The status is 1 if the history is not legal.\n\
    \n\
    Of a text that is wrong it says where: the line and the column, the word that stands there, what\n\
    was expected, and a right line. It takes steps texts and scripts too, and says if one is right.\n\
    Of a file that can't be read it says why. The status is 1 if the text is wrong or not read.\n\
    \n\
    \x20 --at K        explains entry K, but none after the first that is not legal\n\
    \x20 --json        writes a JSON object in place of lines\n\
    \x20 --output F    writes to the file F in place of standard output. -o F is the same\n\
    \n\
    Example. From the text\n\
    \n\
    \x20 aqs-history 1 lock fair seats 2 conditions 0 cap 16\n\
    \x20 0 0 got x 1\n\
    \x20 1 1 granted x 1\n\
    \x20 end 2 2\n\
    \n\
    it writes\n\
    \n\
    \x20 not legal at 1\n\
    \x20 entry 1 1 granted x 1\n\
    \x20 holds 0 x 1 s 0\n\
    \x20 could acquire x 1: queued x 1. Seat 1 could not acquire (What a seat could acquire). \
    Seat 0 owns it, with 1 hold.\n\
    \x20 could try x 1: missed x 1. Seat 1 could not acquire (What a seat could acquire). \
    Seat 0 owns it, with 1 hold.\n\
    \x20 could tryfair x 1: missed x 1. Seat 1 could not acquire (What a seat could acquire). \
    Seat 0 owns it, with 1 hold.\n\
    \x20 could entryinterrupt x 1: refused x 1 Interrupted. Seat 1 had an interrupt \
    pending at entry (Steps).\n\
    \x20 could give x 1: refused x 1 NotOwner. Seat 1 has no such hold (Steps). \
    Seat 0 owns it, with 1 hold.\n\
    \n\
    Another example. From the text\n\
    \n\
    \x20 aqs-steps 1 lock fair seats 2 conditions 0 cap 16\n\
    \x20 0 acquire x 1\n\
    \x20 1 acqire x 1\n\
    \x20 end 2\n\
    \n\
    it writes\n\
    \n\
    \x20 wrong at line 3 column 3\n\
    \x20 found \"acqire\"\n\
    \x20 expected a step (acquire, try, tryfair, entryinterrupt, give, await, signal, signalall, look, \
    expire, interrupt, drain), trim or end\n\
    \x20 example 1 acquire x 1\n";

/// What a summary is.
pub const SUMMARY: &[u8] = b"\
    aqs summary [--json] [--output F] [FILE]\n\
    \n\
    Reads a history text and sums it up, for histories that are too long to read. A history that is\n\
    not legal is summed up to its first entry that is not, and the status is 1.\n\
    \n\
    A line for each thread that made an entry has the calls that ended; the acquires that took at\n\
    once, and that waited in the queue; its longest wait, in entries, with the entry by which it began;\n\
    how often another thread took at once while this one waited; the calls that ended by a timeout or\n\
    an interrupt; and its holds at the end. A line for each condition has the awaits, the signals, and\n\
    those that moved nobody. An entry that is named can be drawn, or explained with --at.\n\
    \n\
    \x20 --json        writes a JSON object in place of lines\n\
    \x20 --output F    writes to the file F in place of standard output. -o F is the same\n\
    \n\
    Example. From the text\n\
    \n\
    \x20 aqs-history 1 lock nonfair seats 3 conditions 0 cap 16\n\
    \x20 0 0 got x 1\n\
    \x20 1 1 queued x 1\n\
    \x20 2 0 gave x 1\n\
    \x20 3 2 got x 1\n\
    \x20 4 2 gave x 1\n\
    \x20 5 1 granted x 1\n\
    \x20 end 6 5\n\
    \n\
    it writes\n\
    \n\
    \x20 legal\n\
    \x20 entries 6\n\
    \x20 handovers 1\n\
    \x20 queue 1 at 1\n\
    \x20 seat 0 calls 2 took 1 waited 0 longest 0 passed 0 timeouts 0 interrupts 0 x 0 s 0\n\
    \x20 seat 1 calls 1 took 0 waited 1 longest 4 at 1 passed 1 timeouts 0 interrupts 0 x 1 s 0\n\
    \x20 seat 2 calls 2 took 1 waited 0 longest 0 passed 0 timeouts 0 interrupts 0 x 0 s 0\n\
    \n\
    A call that takes a lock again, which its thread holds, passes nobody.\n";

/// What a drawing is.
pub const DRAW: &[u8] = b"\
    aqs draw [--page] [--names F] [--from A] [--to B] [--output F] [FILE]\n\
    \n\
    Reads a history text and draws it as an SVG document: a row for each thread that did something,\n\
    the entries from left to right, with bars while a thread holds or waits. A history that is not\n\
    legal is drawn up to its first entry that is not, which is explained. The status is then 1.\n\
    \n\
    \x20 --page        writes a page of HTML in place of the picture. It needs no network. It steps from\n\
    \x20               entry to entry, says who holds and who waits in which order, and finds entries\n\
    \x20 --names F     shows the names of threads and conditions that the file F has, on a page too. Its\n\
    \x20               lines are, in any order: 3 parser, condition 0 not-empty\n\
    \x20 --from A      draws from entry A on\n\
    \x20 --to B        draws up to entry B\n\
    \x20 --output F    writes to the file F in place of standard output. -o F is the same\n\
    \n\
    With neither --from nor --to a history of more than 5,000 entries is summed up in columns, at\n\
    most 240, with its longest waits and the --from and --to that draw each. Of a shorter history, and\n\
    on a page, the first 2,000 entries are drawn, or if it is not legal the first entry that is not\n\
    and 40, on a page 2,000, before it.\n\
    \n\
    For example: aqs draw --from 100 --to 200 -o my.svg my.history\n\
    or:          aqs draw --page --to 9999 -o my.html my.history\n";

/// What a run is.
pub const RUN: &[u8] = b"\
    aqs run [--timeout M] [--object N] [--dir D] [--unrecorded] [--output F] [FILE]\n\
    \n\
    Reads a script, which is a JSON text, and runs its threads at its objects. For each object it\n\
    writes the history, the lines of an audit of it, and how many calls ended. If the threads wait for\n\
    each other it never ends, unless it is given a time. A terminal is told after 10 seconds how they\n\
    stand.\n\
    \n\
    \x20 --timeout M   if the run has not ended after M milliseconds, writes in which call each thread\n\
    \x20               waits, what it holds, and threads that wait for each other in a circle. The\n\
    \x20               status is 1 then\n\
    \x20 --object N    writes the history of object N alone, which aqs audit and the others read\n\
    \x20 --dir D       leaves the history of each object in the folder D too, as NAME.history. None of\n\
    \x20               these files may be there before. After a fault they are removed if they can be\n\
    \x20 --unrecorded  writes a line for each answer that no history records, after the last line. It does\n\
    \x20               not go with --object\n\
    \x20 --output F    writes to the file F in place of standard output. -o F is the same\n\
    \n\
    Example. From the text\n\
    \n\
    \x20 {\"objects\": [[\"door\", \"lock fair seats 1 conditions 0 cap 16\"]],\n\
    \x20  \"threads\": [{\"repeat\": 1, \"calls\": [\"door acquire x 1\", \"door give x 1\"]}]}\n\
    \n\
    it writes\n\
    \n\
    \x20 object door\n\
    \x20 aqs-history 1 lock fair seats 1 conditions 0 cap 16\n\
    \x20 0 0 got x 1\n\
    \x20 1 0 gave x 1\n\
    \x20 end 2 2\n\
    \x20 legal\n\
    \x20 entries 2\n\
    \x20 calls 2\n\
    \x20 holds x 0 s 0 line 0 sleepers 0\n\
    \x20 shares 2\n\
    \x20 unrecorded 0\n\
    \n\
    The calls are acquire, acquire-interruptible, acquire-timed, try, give, await,\n\
    await-interruptible, await-timed, signal, signalall, drain and trim of an object, and interrupt of\n\
    a thread. An acquire and a give have a mode and an amount, a timed call has milliseconds at its\n\
    end.\n";

/// The version, the kit, and what is proved.
pub const ABOUT: &[u8] = b"\
    aqs, the program of Tunicschist 0.x\n\
    \n\
    rattle-kit-13f, logic dac8208d650f15bf, proves of its sources that\n\
    \n\
    - each answer of a replay is the one of the written rules, docs/SPECIFICATION.md;\n\
    - an audit calls a history legal if and only if each entry is one that a step of its thread makes,\n\
    \x20 and adds it up;\n\
    - a drawing has a bar for each stretch in which a thread holds or waits, and no other;\n\
    - an explanation has the state that the rules give, and each entry that the thread could have\n\
    \x20 recorded there;\n\
    - the histories of a run are legal, and have each call of the threads that an entry ended;\n\
    - a text has one reading; for any other the first fault is told, and nothing is written.\n\
    \n\
    rt ci in a clone of the sources proves them and builds the program. No program can tell of itself\n\
    that it was built so: one that rt try made of the same sources writes this page too.\n\
    \n\
    Not claimed, and not proved: that a thread that waits goes on, how fair service is, that nothing\n\
    waits for ever, and times. The proofs trust the kit, its prover and the C library.\n";
