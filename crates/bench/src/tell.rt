// A call and its answer on one line.
use faults::Fault;
use kinds::Kind;
use lives::Refused;
use media::Medium;
use sets::{Number, contains};
use std::fmt::Display;
use std::{fmt, io};
use stores::PageStore;
use volume::Up;

// A number, and what it is.
#[derive(Clone, Copy)]
pub struct Figure<'a>(pub &'a str, pub u64);

impl<'a> fmt::Display for Figure<'a> {
    fn fmt<W: fmt::Write>(&self, f: &mut fmt::Formatter<W>) -> fmt::Result {
        write!(f, "{} {}", self.0, self.1)
    }
}

// A set of pages, each behind a space.
#[derive(Clone, Copy)]
struct Pages(u64);

impl fmt::Display for Pages {
    fn fmt<W: fmt::Write>(&self, f: &mut fmt::Formatter<W>) -> fmt::Result {
        for page in (0..64u32).filter(|page| contains(self.0, *page)) {
            write!(f, " {page}")?;
        }
        Ok(())
    }
}

// What a call gives, or why it is not done.
pub fn answer<T: Display + Drop, E: Into<Refused>>(
    rt: &HostRuntime,
    call: &str,
    answer: Result<T, E>,
) -> io::Result<()> {
    match answer.map_err(|e| e.into()) {
        Ok(given) => println!(rt; "  {call}: {given}"),
        Err(refused) => println!(rt; "  {call}: {refused}"),
    }
}

pub fn groups(rt: &HostRuntime, page: u32, answer: Result<(u64, u64), Fault>) -> io::Result<()> {
    match answer {
        Ok((group, before)) => {
            let (group, before) = (Pages(group), Pages(before));
            println!(rt; "  group of page {page}:{group}, directly before it:{before}")
        }
        Err(fault) => {
            let refused = Refused::from(fault);
            println!(rt; "  group of page {page}: {refused}")
        }
    }
}

// The number and the contents of a page: all bytes alike, or not.
pub fn page<K: Kind, L: Medium, S: PageStore>(
    rt: &HostRuntime,
    up: &Up<K, L, S>,
    page: u32,
) -> io::Result<()> {
    let mut image = [0u8; 256];
    if let Err(fault) = up.page(page, &mut image) {
        let refused = Refused::from(fault);
        return println!(rt; "  page {page}: {refused}");
    }
    let number = u32::read_at(&image, 0);
    let byte = image[4];
    if image[4..228].iter().all(|b| *b == byte) {
        println!(rt; "  page {page}: number {number}, all bytes {byte}")
    } else {
        println!(rt; "  page {page}: number {number}, bytes differ")
    }
}
