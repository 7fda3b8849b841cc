// Cuts the power at every block write of a volume's life, on both stores, and compares what a mount brings back with the book.
#![tactic(auto)]

mod book;
mod chips;
mod life;
mod lives;
mod model;
mod plan;
mod report;
mod script;
mod tally;

use chips::{Chip, Cut};
use lives::Course;
use media::Left;
use plan::Plan;
use std::ops::ControlFlow;
use std::{fmt, io};
use stores::{Journal, Shadow, Way};
use tally::Tally;

// The orders of flushes: enough for every order of the groups that may go on each day.
const ORDERS: usize = 6;

// More writes than a life has on a chip.
const MOST_WRITES: u64 = 512;

// How many writes the format makes on a chip: so many can pass before one dies outside it. None if it makes more than a life has.
fn format_writes<W: Way>(chip: Chip) -> Option<u64> {
    for write in 0..MOST_WRITES {
        let left = Left::Old;
        let cut = Cut { chip, write, left };
        if chips::run::<W>(Some(cut), &mut Plan::new(0)).is_some() {
            return Some(write);
        }
    }
    None
}

// What the sweep has seen.
#[derive(Drop)]
struct Sweep<'a> {
    rt: &'a HostRuntime,
    tally: Tally,
}

impl<'a> Sweep<'a> {
    fn new(rt: &'a HostRuntime) -> Sweep<'a> {
        Sweep {
            rt,
            tally: Tally::default(),
        }
    }

    // Enters that something was wrong.
    fn blame<T: fmt::Display>(&mut self, cut: Option<Cut>, what: &T) -> io::Result<()> {
        self.tally.blame();
        report::say(self.rt, cut, what)
    }

    // Looks at a life that is over.
    fn judge(&mut self, cut: Option<Cut>, course: &Course) -> io::Result<()> {
        if course.is_good() {
            return Ok(());
        }
        self.blame(cut, &course.trouble)
    }

    // One cut; the cuts break off where the write is no more of the life.
    fn one_cut<W: Way>(&mut self, cut: Cut, plan: &mut Plan) -> io::Result<ControlFlow<()>> {
        let Some(course) = chips::run::<W>(Some(cut), plan) else {
            self.blame(Some(cut), &"the format died")?;
            return Ok(ControlFlow::Continue(()));
        };
        let Some(place) = course.died else {
            return Ok(ControlFlow::Break(()));
        };
        self.judge(Some(cut), &course)?;
        self.tally.enter(place, cut, &course);
        Ok(ControlFlow::Continue(()))
    }

    // Every write of a chip from a write on, left old and left new.
    fn chip_cuts<W: Way>(&mut self, chip: Chip, start: u64, plan: &mut Plan) -> io::Result<()> {
        for write in start..start.saturating_add(MOST_WRITES) {
            for left in [Left::Old, Left::New] {
                let cut = Cut { chip, write, left };
                if self.one_cut::<W>(cut, plan)?.is_break() {
                    return Ok(());
                }
            }
        }
        self.blame(None, &"the life has more writes than were cut")
    }

    // The life without a cut, which makes the choices of an order; then every cut of it.
    fn one_order<W: Way>(&mut self, log: u64, pages: u64, order: usize) -> io::Result<()> {
        let mut plan = Plan::new(order);
        let Some(course) = chips::run::<W>(None, &mut plan) else {
            return self.blame(None, &"the format was refused");
        };
        self.judge(None, &course)?;
        report::order(self.rt, &plan)?;
        self.chip_cuts::<W>(Chip::Log, log, &mut plan)?;
        self.chip_cuts::<W>(Chip::Pages, pages, &mut plan)
    }

    // All orders.
    fn all_orders<W: Way>(&mut self, store: &str) -> io::Result<()> {
        let rt = self.rt;
        let log = format_writes::<W>(Chip::Log);
        let pages = format_writes::<W>(Chip::Pages);
        let (Some(log), Some(pages)) = (log, pages) else {
            return self.blame(None, &"the format has more writes than were cut");
        };
        println!(rt;
            "{store}, behind the format's {log} writes of the log and {pages} of the store"
        )?;
        for order in 0..ORDERS {
            self.one_order::<W>(log, pages, order)?;
        }
        report::table(rt, &self.tally)?;
        println!(rt; "")
    }
}

fn main(rt: HostRuntime) -> io::Result<()> {
    println!(rt; "power cut at each block write of a life of three days, left old and left new")?;
    println!(rt; "")?;
    let mut journal = Sweep::new(&rt);
    journal.all_orders::<Journal>("journal store")?;
    let mut shadow = Sweep::new(&rt);
    shadow.all_orders::<Shadow>("shadow store")?;
    let (journal, shadow) = (&journal.tally, &shadow.tally);
    let cuts = journal.cuts.saturating_add(shadow.cuts);
    let recovered = journal.recovered.saturating_add(shadow.recovered);
    let wrong = journal.wrong.saturating_add(shadow.wrong);
    println!(rt; "{cuts} cuts, {recovered} recoveries, {wrong} wrong")
}
