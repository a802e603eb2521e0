// Reading to the end and writing out, with failures told: a program that reads and writes through this crate never takes a failed read for the input's
// end, nor a failed write for one that was made. No contract says what is read or written; std's readers and writers are assumed.

#![tactic(auto)]

ghost use Rattle.std.specs.Prelude.{◌≤◌, ◌≡◌, ◌+◌, length};
ghost use Rattle.std.specs.Result.{MatchResult};
ghost use Rattle.streams.specs.Outcomes.{outcome_of, behind, Moves, AtMost};

use std::io;
use std::io::{Eprint, ErrorKind, Print, Read, Write};

// What the answer of a call of `read` or `write` means: how many bytes it moved, none if a signal interrupted it, and then it is made again; and `None`
// where no byte was left to move.
#[tactic(auto, using(crate::proofs::OutcomeLaws::again, crate::proofs::OutcomeLaws::other_failed), unfolding(crate::specs::Outcomes::outcome_of))]
fn came_to(got: io::Result<usize>) -> io::Result<Option<usize>>
    ensures { result ≡ outcome_of got }
{
    match got {
        Ok(0) => Ok(None),
        Ok(n) => Ok(Some(n)),
        Err(e) if e.kind() == ErrorKind::Interrupted => Ok(Some(0)),
        Err(e) => Err(e),
    }
}

// A call that failed: why, and how many bytes the calls before it moved.
#[derive(Clone, Copy)]
pub struct Cut {
    pub count: usize,
    pub why: io::Error,
}

// How a loop of calls stands behind one that did not fail, and how many bytes are moved: it goes on, or no byte was left to move.
#[derive(Clone, Copy)]
pub enum Progress {
    On(usize),
    Ended(usize),
}

// How a loop of calls stands behind one, `count` bytes being moved before it. That no byte was left to move may be fatal, for a reason.
#[tactic(auto, unfolding(crate::specs::Outcomes::behind))]
fn after(
    count: usize,
    o: io::Result<Option<usize>>,
    fatal: Option<io::Error>,
) -> Result<Progress, Cut>
    requires { Moves o (λ n. count + n ≤ 18446744073709551615) }
    ensures { result ≡ behind count o fatal }
{
    match o {
        Ok(Some(n)) => Ok(Progress::On(count + n)),
        Ok(None) => match fatal {
            Some(why) => Err(Cut { count, why }),
            None => Ok(Progress::Ended(count)),
        },
        Err(why) => Err(Cut { count, why }),
    }
}

// One read behind the bytes that are read.
fn read_once<R: Read>(from: &mut R, buf: &mut [u8], count: usize) -> Result<Progress, Cut>
    requires { count ≤ length buf.old }
    ensures { AtMost (length buf.old) result }
{
    after(count, came_to(from.read(&mut buf[count..])), None)
}

// One write of the bytes that are not written yet. The error of a call that failed is kept; one that moved no byte has failed.
fn write_once<W: Write>(
    to: &mut W,
    buf: &[u8],
    count: usize,
    why: &mut io::Error,
) -> Result<Progress, Cut>
    requires { count ≤ length buf.now }
    ensures { AtMost (length buf.now) result }
{
    let got = to.write(&buf[count..]);
    if let Err(e) = &got {
        *why = *e;
    }
    after(count, came_to(got), Some(*why))
}

// Reads until the bytes are full, the input ends or a read fails. A proved loop has to end, and nothing says that the input does: so it has a number of
// turns, one that no run uses up.
pub fn read_full<R: Read>(from: &mut R, buf: &mut [u8]) -> Result<usize, Cut>
    ensures { MatchResult result (λ n. n ≤ length buf.old) (λ cut. cut.count ≤ length buf.old) }
{
    let mut count = 0;
    for _ in 0..u64::MAX {
        if buf.len() <= count {
            break;
        }
        match read_once(from, buf, count)? {
            Progress::On(read) => count = read,
            Progress::Ended(read) => return Ok(read),
        }
    }
    Ok(count)
}

// Writes the bytes. Of a write that took no byte the error is the one of the last call before it that was interrupted, if there was one.
fn write_full<W: Write>(to: &mut W, buf: &[u8]) -> Result<(), Cut> {
    let mut why = io::Error::from(ErrorKind::WriteZero);
    let mut count = 0;
    for _ in 0..u64::MAX {
        if buf.len() <= count {
            return Ok(());
        }
        match write_once(to, buf, count, &mut why)? {
            Progress::On(written) => count = written,
            Progress::Ended(_) => break,
        }
    }
    Err(Cut { count, why })
}

// Writes the bytes to standard output, and says whether all of them went out; a failure is told on standard error.
pub fn write_out<R: Print + Eprint>(rt: &R, buf: &[u8]) -> bool {
    match write_full(&mut io::writer(rt), buf) {
        Ok(()) => true,
        Err(cut) => {
            tell(rt, "standard output", &Some(cut.why));
            false
        }
    }
}

// An error's text, without the number that stands behind the text of one of the system's.
fn reason(text: &[u8]) -> &str {
    match str::from_utf8(text) {
        Ok(text) => match text.split_once(" (os error ") {
            Some((words, _)) => words,
            None => text,
        },
        Err(_) => "",
    }
}

// Writes a line to standard error: what failed, a colon and why. Without a reason, that a write took no byte.
pub fn tell<R: Eprint>(rt: &R, what: &str, why: &Option<io::Error>) {
    let error = why.unwrap_or(io::Error::from(ErrorKind::WriteZero));
    let mut text = [0u8; 256];
    let mut rest = &mut text[..];
    let _ = write!(rest, "{error}");
    let left = rest.len();
    let words = reason(&text[..256usize.saturating_sub(left)]);
    let _ = rt.eprintln(format_args!("{what}: {words}"));
}
