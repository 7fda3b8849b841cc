// The lines that are printed.
use crate::chips::Cut;
use crate::lives::Place;
use crate::plan::Plan;
use crate::script::{Call, DAYS};
use crate::tally::{Line, Tally};
use std::fmt::Display;
use std::io;

// The pages whose groups were chosen, in order, three a day.
pub fn order(rt: &HostRuntime, plan: &Plan) -> io::Result<()> {
    let n = plan.order();
    print!(rt; "  order {n}: the choices were pages")?;
    for (day, choices) in plan.choices().chunks(3).enumerate() {
        if day > 0 {
            print!(rt; ",")?;
        }
        for choice in choices {
            match choice {
                Some(page) => print!(rt; " {page}")?,
                None => print!(rt; " none")?,
            }
        }
    }
    println!(rt; "")
}

// A life of which something is said that should not be.
pub fn say<T: Display>(rt: &HostRuntime, cut: Option<Cut>, what: &T) -> io::Result<()> {
    match cut {
        Some(cut) => println!(rt; "  WRONG: {cut}: {what}"),
        None => println!(rt; "  WRONG: no cut: {what}"),
    }
}

// The line of a call, with the cuts in it, if there were any.
fn line(rt: &HostRuntime, place: Place, call: Call, seen: &Line) -> io::Result<()> {
    let Some((least, most)) = seen.redone else {
        return Ok(());
    };
    let (day, i) = (place.day.saturating_add(1), place.call.saturating_add(1));
    let (a, b) = (seen.log_old, seen.log_new);
    let (c, d) = (seen.pages_old, seen.pages_new);
    let recovered = seen.recovered;
    print!(rt; "  {day:>3} {i:>4}  {call:<17} {a:>4} {b:>4} {c:>6} {d:>4}")?;
    println!(rt; " {recovered:>10} {least:>5} to {most}")
}

pub fn table(rt: &HostRuntime, tally: &Tally) -> io::Result<()> {
    println!(rt; "                             log cuts    store cuts")?;
    println!(rt; "  day call                    old  new    old  new  recovered   redone")?;
    for (day, (calls, lines)) in DAYS.iter().zip(&tally.lines).enumerate() {
        for (i, (call, seen)) in calls.iter().zip(lines).enumerate() {
            let place = Place { day, call: i };
            line(rt, place, *call, seen)?;
        }
    }
    Ok(())
}
