// A call of `valec` over the kinds in memory.
ghost use Rattle.std.specs.Prelude.{◌<◌};

use std::alloc::Global;
use std::test::Fail;
use std::thread::Threads;
use vale_ports::{CalmSource, FileList, MemShelf, MemSink, OpenGate};
use vale_run::valec;

/// What a call gave.
#[derive(Drop)]
pub struct Seen {
    pub status: u8,
    pub out: Vec<u8>,
    pub err: Vec<u8>,
}

impl Seen {
    pub fn is(&self, status: u8, out: &str, err: &str) -> bool {
        self.status == status
            && self.out.as_slice() == out.as_bytes()
            && self.err.as_slice() == err.as_bytes()
    }
}

/// The calls of the outside that are to fail, counted from 1, and the most bytes that `out` takes at a call.
#[derive(Clone, Copy)]
pub struct Outside<'a> {
    pub shelf_fails: &'a [u64],
    pub out_fails: &'a [u64],
    pub err_fails: &'a [u64],
    pub out_most: usize,
}

/// An outside where nothing fails.
pub const CALM: Outside<'static> = Outside {
    shelf_fails: &[],
    out_fails: &[],
    err_fails: &[],
    out_most: 4096,
};

/// What these words give with one file, and the bytes of this other one after the call.
fn run_with<R: Threads + Sync>(
    rt: &R,
    alloc: Global,
    words: &[&str],
    file: (&str, &[u8]),
    other: &str,
    outside: &Outside,
) -> Result<(Seen, Vec<u8>), Fail>
    requires { 0 < outside.now.out_most }
{
    let mut list = Vec::new(alloc);
    for word in words {
        list.push(String::from_str(alloc, word)?)?;
    }
    let mut files = FileList::new(alloc);
    let (name, bytes) = file;
    files.put(alloc, name, bytes)?;
    let mut shelf = MemShelf::new(files, outside.shelf_fails);
    let mut input = CalmSource::new(b"");
    let mut out = MemSink::new(alloc, outside.out_most, outside.out_fails);
    let mut err = MemSink::new(alloc, 4096, outside.err_fails);
    let status = valec(
        rt, alloc, &list, &mut shelf, &mut input, &mut out, &mut err, &OpenGate,
    );
    let seen = Seen {
        status: status.0,
        out: out.bytes.to_vec(alloc)?,
        err: err.bytes.to_vec(alloc)?,
    };
    let left = shelf.files.find(other).unwrap_or(&[]);
    Ok((seen, Vec::from_slice(alloc, left)?))
}

/// What these words give, with this text as the file `p`.
pub fn run_on<R: Threads + Sync>(
    rt: &R,
    alloc: Global,
    words: &[&str],
    text: &[u8],
    outside: &Outside,
) -> Result<Seen, Fail>
    requires { 0 < outside.now.out_most }
{
    let (seen, _) = run_with(rt, alloc, words, ("p", text), "p", outside)?;
    Ok(seen)
}

/// What these words give, with these bytes as the code file `c`.
pub fn run_code<R: Threads + Sync>(
    rt: &R,
    alloc: Global,
    words: &[&str],
    bytes: &[u8],
) -> Result<Seen, Fail> {
    let (seen, _) = run_with(rt, alloc, words, ("c", bytes), "c", &CALM)?;
    Ok(seen)
}

/// What the build of this text gives, and the code file that it leaves.
pub fn build<R: Threads + Sync>(
    rt: &R,
    alloc: Global,
    text: &[u8],
    outside: &Outside,
) -> Result<(Seen, Vec<u8>), Fail>
    requires { 0 < outside.now.out_most }
{
    run_with(rt, alloc, &["build", "p", "c"], ("p", text), "c", outside)
}

/// Whether these words give this status and these texts for `out` and `err`, with this text as the file `p`.
pub fn gives<R: Threads + Sync>(
    rt: &R,
    alloc: Global,
    words: &[&str],
    text: &[u8],
    expected: (u8, &str, &str),
) -> Result<bool, Fail> {
    let seen = run_on(rt, alloc, words, text, &CALM)?;
    let (status, out, err) = expected;
    Ok(seen.is(status, out, err))
}
