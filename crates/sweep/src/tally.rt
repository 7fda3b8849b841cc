// What was seen at the cuts.
use crate::chips::{Chip, Cut};
use crate::lives::{Course, Place};
use crate::script::LONGEST;
use media::Left;

// The cuts in a call, and what came after them.
#[derive(Clone, Copy, Default)]
pub struct Line {
    pub log_old: usize,
    pub log_new: usize,
    pub pages_old: usize,
    pub pages_new: usize,
    // after how many of them all was as the book says
    pub recovered: usize,
    // the fewest and the most records that were redone after one; none where there was no cut
    pub redone: Option<(u32, u32)>,
}

impl Line {
    fn enter(&mut self, cut: Cut, course: &Course) {
        let count = match (cut.chip, cut.left) {
            (Chip::Log, Left::Old) => &mut self.log_old,
            (Chip::Log, Left::New) => &mut self.log_new,
            (Chip::Pages, Left::Old) => &mut self.pages_old,
            (Chip::Pages, Left::New) => &mut self.pages_new,
        };
        *count = count.saturating_add(1);
        self.recovered = self.recovered.saturating_add(usize::from(course.is_good()));
        let redone = course.redone;
        let (least, most) = self.redone.unwrap_or((redone, redone));
        self.redone = Some((least.min(redone), most.max(redone)));
    }
}

#[derive(Default, Drop)]
pub struct Tally {
    // the calls of each day
    pub lines: [[Line; LONGEST]; 3],
    pub cuts: usize,
    pub recovered: usize,
    // the lives, with or without a cut, in which something was wrong
    pub wrong: usize,
}

impl Tally {
    // Enters that something was wrong.
    pub fn blame(&mut self) {
        self.wrong = self.wrong.saturating_add(1);
    }

    // Enters a cut in a call.
    pub fn enter(&mut self, place: Place, cut: Cut, course: &Course) {
        self.cuts = self.cuts.saturating_add(1);
        self.recovered = self.recovered.saturating_add(usize::from(course.is_good()));
        let day = self.lines.get_mut(place.day);
        if let Some(line) = day.and_then(|day| day.get_mut(place.call)) {
            line.enter(cut, course);
        }
    }
}
