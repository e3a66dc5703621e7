// BEST's answer: the first shortest session of a plan, with how many active sessions there are and how many are as
// short.
#![tactic(auto)]

use timetable::Timetable;

// The first shortest session: its variant, makespan and timetable; how many active sessions there are, and how many of
// these are as short.
#[derive(Clone, Copy)]
pub struct Best {
    pub variant: u64,
    pub makespan: u64,
    pub count: u64,
    pub shortest: u64,
    pub timetable: Timetable,
}
