// 64 pages of contents, and operations of any kind run on them.
use kinds::{CONTENTS, Kind};
use sets::{contains, size};
use std::alloc::{AllocError, Global};
use std::io;

type Contents = [u8; CONTENTS];

#[derive(Drop)]
pub struct Bench {
    pages: [Contents; 64],
}

// A digest of 32 bits, by FNV-1a.
fn digest(bytes: &[u8]) -> u32 {
    bytes.iter().fold(
        2166136261,
        |h: u32, b| (h ^ u32::from(*b)).wrapping_mul(16777619),
    )
}

impl Bench {
    pub fn new() -> Self {
        Bench {
            pages: [[0; CONTENTS]; 64],
        }
    }

    // The contents of a page.
    pub fn page(&self, page: u8) -> Option<&Contents> {
        self.pages.get(usize::from(page))
    }

    // The contents of the pages of a set, rising.
    fn gather(&self, heap: Global, set: u64) -> Result<Vec<u8>, AllocError> {
        let mut old = Vec::new(heap);
        for (_, contents) in (0..64).zip(&self.pages).filter(|(p, _)| contains(set, *p)) {
            old.extend_from_slice(contents)?;
        }
        Ok(old)
    }

    // Puts new contents into the pages of a set, rising.
    fn scatter(&mut self, set: u64, new: &[u8]) {
        let pages = (0..64)
            .zip(&mut self.pages)
            .filter(|(p, _)| contains(set, *p));
        for ((_, page), contents) in pages.zip(new.chunks_exact(CONTENTS)) {
            page.copy_from_slice(contents);
        }
    }

    // Runs one operation, and prints a line of it.
    pub fn run<K: Kind>(&mut self, rt: &HostRuntime, name: &str, body: &[u8]) -> io::Result<()> {
        let (reads, writes) = match K::scope(body) {
            Ok(sets) => sets,
            Err(refusal) => {
                let code = refusal.code();
                return println!(rt; "{name}: no sets, code {code}");
            }
        };
        let old = self.gather(rt.alloc(), reads)?;
        let mut new = vec![in rt.alloc(); 0u8; CONTENTS * size(writes) as usize]?;
        match K::effect(body, &old, &mut new) {
            Ok(()) => {
                self.scatter(writes, &new);
                let d = digest(&new);
                println!(rt; "{name}: reads {reads:016x} writes {writes:016x} digest {d:08x}")
            }
            Err(refusal) => {
                let code = refusal.code();
                println!(rt; "{name}: reads {reads:016x} writes {writes:016x} code {code}")
            }
        }
    }
}

// A name, and the body that it is for.
#[derive(Clone, Copy)]
pub struct Row<'a>(pub &'a str, pub &'a [u8]);

// Runs the rows of a table in order.
pub fn play<K: Kind>(rt: &HostRuntime, b: &mut Bench, rows: &[Row]) -> io::Result<()> {
    for Row(name, body) in rows {
        b.run::<K>(rt, name, body)?;
    }
    Ok(())
}

// A row whose operation is given buffers of any lengths: those of the old and of the new contents.
#[derive(Clone, Copy)]
pub struct Misfit<'a>(pub Row<'a>, pub usize, pub usize);

impl<'a> Misfit<'a> {
    // Prints the code, and whether the reply buffer was left.
    fn run<K: Kind>(&self, rt: &HostRuntime) -> io::Result<()> {
        let Misfit(Row(name, body), old, new) = *self;
        let old = vec![in rt.alloc(); 9u8; old]?;
        let mut reply = vec![in rt.alloc(); 7u8; new]?;
        let before = digest(&reply);
        match K::effect(body, &old, &mut reply) {
            Ok(()) => println!(rt; "{name}: accepted"),
            Err(refusal) => {
                let code = refusal.code();
                let left = digest(&reply) == before;
                println!(rt; "{name}: code {code}, buffer left {left}")
            }
        }
    }
}

// Runs the rows of a table in order, and then operations whose buffers do not fit.
pub fn play_with<K: Kind>(
    rt: &HostRuntime,
    b: &mut Bench,
    rows: &[Row],
    misfits: &[Misfit],
) -> io::Result<()> {
    play::<K>(rt, b, rows)?;
    for misfit in misfits {
        misfit.run::<K>(rt)?;
    }
    Ok(())
}
