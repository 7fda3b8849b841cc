// The whole life of a volume, up to the call in which the power fails, and what comes after.
use crate::book::FIRST;
use crate::life::{Life, Trouble};
use crate::plan::Plan;
use crate::script::{AFTER, Call, DAYS};
use kinds::PageKind;
use media::{Left, Medium};
use stores::PageStore;
use volume::{Down, Up};

// A call of a day, both counted from 0.
#[derive(Clone, Copy, PartialEq, Eq)]
pub struct Place {
    pub day: usize,
    pub call: usize,
}

// How a life went.
#[derive(Clone, Copy)]
pub struct Course {
    // the call in which the power failed
    pub died: Option<Place>,
    // how many records were redone by the mount after it
    pub redone: u32,
    pub trouble: Trouble,
}

impl Course {
    // Whether all was as the book says.
    pub fn is_good(&self) -> bool {
        self.trouble == Trouble::default()
    }
}

// Makes calls up to the one in which the power fails.
fn make_all<L: Medium, S: PageStore>(
    up: &mut Up<PageKind, L, S>,
    script: &[Call],
    life: &mut Life,
) -> Option<usize> {
    for (i, call) in script.iter().enumerate() {
        if life.make(up, *call).is_break() {
            return Some(i);
        }
    }
    None
}

// Mounts, makes the calls of one day and stops.
fn one_day<L: Medium + Drop, S: PageStore + Drop>(
    down: Down<PageKind, L, S>,
    script: &[Call],
    life: &mut Life,
) -> (Down<PageKind, L, S>, u32, Option<usize>) {
    let (mut up, redone) = down.mount();
    life.mounted(&up);
    let died = make_all(&mut up, script, life);
    let (down, _) = up.stop();
    (down, redone, died)
}

// All days, up to the call in which the power fails.
fn days<L: Medium + Drop, S: PageStore + Drop>(
    down: Down<PageKind, L, S>,
    life: &mut Life,
) -> (Down<PageKind, L, S>, Option<Place>) {
    let mut down = down;
    for (day, script) in DAYS.iter().enumerate() {
        let (next, _, died) = one_day(down, script, life);
        down = next;
        if let Some(call) = died {
            return (down, Some(Place { day, call }));
        }
    }
    (down, None)
}

// A life from the format on; none where the power fails in the format.
pub fn live<L: Medium + Drop, S: PageStore + Drop>(
    down: Down<PageKind, L, S>,
    plan: &mut Plan,
    left: Left,
) -> Option<Course> {
    let mut down = down;
    if down.format(FIRST).is_err() {
        return None;
    }
    let mut life = Life::new(plan, left);
    let (down, died) = days(down, &mut life);
    let (down, redone, _) = one_day(down, &AFTER, &mut life);
    let (up, _) = down.mount();
    life.mounted(&up);
    let trouble = life.trouble();
    Some(Course {
        died,
        redone,
        trouble,
    })
}
