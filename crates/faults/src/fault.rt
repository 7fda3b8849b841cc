// Every way in which a call of the engine can be turned down.
ghost use Rattle.std.specs.Prelude.{◌≡◌, ◌↔◌, IsTrue, Some};
ghost use Rattle.faults.specs.Faults.{report, same_report, text};

use std::fmt;

// One case for each cause, with what it returns.
// Kept: what a kind refuses stands here as its code, since a fault is reported as number, place and code.
#[derive(Clone, Copy, PartialEq, Eq, Debug)]
pub enum Fault {
    // a page above 63
    NoSuchPage(u32),
    // a block at or above the medium's count
    NoSuchBlock(usize),
    // a buffer of the wrong length, or a body above 232 bytes
    WrongLength(usize),
    // the medium is dead, or died at this block
    PowerLost(usize),
    // the kind refuses the body, with its code
    BodyRefused(u8),
    // 16 records wait
    WaitingFull,
    // 128 records live
    LogFull,
    // no number is left: the next number
    NumbersSpent(u32),
    // the kind refuses the pages, with its code
    PagesRefused(u8),
    // the page is clean
    PageClean(u32),
    // another group comes first: its lowest page
    GroupBefore(u32),
    // the group has a record that still waits: the highest
    RecordWaiting(u32),
    // the log's header is not of the form, or the first number is 0
    BadHeader,
    // log or store too short
    TooShort,
    // a record is not of the form, or the kind refuses its body: number and code
    BadRecord(u32, u8),
    // a record's sets are not the kind's
    SetsDiffer(u32),
    // a record's pages are partly installed
    PartlyInstalled(u32),
    // a page's number is at or above the next number: the lowest page
    NumberAhead(u32),
    // the kind refuses at redo: number and code
    RedoRefused(u32, u8),
    // a split where the root has 26 entries
    RootFull,
    // a file page outside 32 to 63: the lowest
    NotFilePage(u8),
    // page 0 is no leaf or root, or a leaf page is no leaf
    NotTreePage(u8),
}

impl Fault {
    // The fault's number, 1 to 22.
    pub fn number(self) -> u8
        ensures { result ≡ (report self).number }
    {
        match self {
            Fault::NoSuchPage(_) => 1,
            Fault::NoSuchBlock(_) => 2,
            Fault::WrongLength(_) => 3,
            Fault::PowerLost(_) => 4,
            Fault::BodyRefused(_) => 5,
            Fault::WaitingFull => 6,
            Fault::LogFull => 7,
            Fault::NumbersSpent(_) => 8,
            Fault::PagesRefused(_) => 9,
            Fault::PageClean(_) => 10,
            Fault::GroupBefore(_) => 11,
            Fault::RecordWaiting(_) => 12,
            Fault::BadHeader => 13,
            Fault::TooShort => 14,
            Fault::BadRecord(_, _) => 15,
            Fault::SetsDiffer(_) => 16,
            Fault::PartlyInstalled(_) => 17,
            Fault::NumberAhead(_) => 18,
            Fault::RedoRefused(_, _) => 19,
            Fault::RootFull => 20,
            Fault::NotFilePage(_) => 21,
            Fault::NotTreePage(_) => 22,
        }
    }

    // The place that the fault returns: a page, a block, a length, a number or a limit.
    pub fn place(self) -> u64
        ensures { result ≡ (report self).place }
    {
        match self {
            Fault::NoSuchPage(page) => page as u64,
            Fault::NoSuchBlock(block) => block as u64,
            Fault::WrongLength(length) => length as u64,
            Fault::PowerLost(block) => block as u64,
            Fault::WaitingFull => 16,
            Fault::LogFull => 128,
            Fault::NumbersSpent(next) => next as u64,
            Fault::PageClean(page) => page as u64,
            Fault::GroupBefore(page) => page as u64,
            Fault::RecordWaiting(number) => number as u64,
            Fault::BadRecord(number, _) => number as u64,
            Fault::SetsDiffer(number) => number as u64,
            Fault::PartlyInstalled(number) => number as u64,
            Fault::NumberAhead(page) => page as u64,
            Fault::RedoRefused(number, _) => number as u64,
            Fault::RootFull => 26,
            Fault::NotFilePage(page) => page as u64,
            Fault::NotTreePage(page) => page as u64,
            _ => 0,
        }
    }

    // The code that a kind of operation gave; 0 for every other cause.
    pub fn code(self) -> u8
        ensures { result ≡ (report self).code }
    {
        match self {
            Fault::BodyRefused(code) => code,
            Fault::PagesRefused(code) => code,
            Fault::BadRecord(_, code) => code,
            Fault::RedoRefused(_, code) => code,
            _ => 0,
        }
    }

    // Two faults are equal exactly where they report the same.
    pub fn same(self, other: Fault) -> bool
        ensures tests { result ≡ same_report (report self) (report other) }
        ensures equal { IsTrue result ↔ (report self ≡ report other) }
    {
        self == other
    }
}

// `fault NUMBER PLACE CODE`
impl fmt::Display for Fault {
    ghost output = { λ f. Some (text (report f)) };

    fn fmt<W: fmt::Write>(&self, f: &mut fmt::Formatter<W>) -> fmt::Result {
        let number = self.number();
        let place = self.place();
        let code = self.code();
        write!(f, "fault {number} {place} {code}")
    }
}
