// The plan of a table: mark, bound, length of the search and prohibition time of each thread, and whether it is admitted.
use super::say::say;
use std::fmt;
use std::fmt::{Display, Formatter, Write};
use table::{Mark, Table};

// A number, or a dash where there is none.
#[derive(Clone, Copy, Debug, PartialEq, Eq)]
struct OrDash<T>(Option<T>);

impl<T: Display> Display for OrDash<T> {
    fn fmt<W: Write>(&self, f: &mut Formatter<W>) -> fmt::Result {
        match &self.0 {
            Some(n) => write!(f, "{n}"),
            None => write!(f, "-"),
        }
    }
}

fn say_thread(rt: &(impl Print + Eprint), t: &Table, i: u8, mark: Mark) {
    if let (Ok(search), Ok(time)) = (admission::bound_of(*t, i), admission::prohibition(*t, i)) {
        say(rt, format_args!("thread {i}"));
        say(rt, format_args!(" mark {}", OrDash(mark)));
        say(rt, format_args!(" bound {}", OrDash(search.bound)));
        say(
            rt,
            format_args!(" searched {} prohibition {time}\n", search.tried),
        );
    }
}

pub fn plan(rt: &(impl Print + Eprint), t: &Table) {
    if let Ok(marks) = table::marks(*t) {
        for i in 0..t.count.min(32) {
            say_thread(rt, t, i, marks[i as usize]);
        }
    }
    if let Ok(a) = admission::admit(*t) {
        match a.without {
            None => say(rt, "admitted\n"),
            Some(i) => say(rt, format_args!("without {i}\n")),
        }
    }
}
