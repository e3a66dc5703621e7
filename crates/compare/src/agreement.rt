// Whether the planner's answers on a file are those of the plain side. `rows` has the enumerator's rows.
use crate::areas::begins;
use crate::asked::Asked;
use crate::rows::{Row, first_shortest};
use enumerator::Enumerated;
use plain::{Judged, Plan};
use plan::Refusal;
use read::Counts;

// The largest area that LIST is lent.
pub const CELLS: usize = 65536;

// The largest cap.
pub const MOST: u32 = 4294967295;

// What stands in an area before LIST: no variant and no start is that large, and the mark is larger.
const BLANK: u32 = 4000000000;

// A refusal as the programs print it.
#[derive(Clone, Copy, PartialEq, Eq)]
pub struct Numbered {
    pub number: u64,
    pub figure: u64,
}

pub const NO_SUCH_VARIANT: Numbered = Numbered {
    number: 9,
    figure: 0,
};

const OVER_CAP: Numbered = Numbered {
    number: 7,
    figure: 0,
};

pub fn area_too_short(needed: usize) -> Numbered {
    Numbered {
        number: 8,
        figure: needed as u64,
    }
}

impl Numbered {
    pub fn of(refusal: Refusal) -> Numbered {
        Numbered {
            number: refusal.number(),
            figure: refusal.figure(),
        }
    }

    // The plain side's refusal.
    pub fn own(refusal: plain::Refusal) -> Numbered {
        Numbered {
            number: refusal.number(),
            figure: refusal.figure(),
        }
    }
}

// The enumerator's rows, if it had room for the rows of the active sessions.
pub fn rows_of(e: Enumerated, area: &[u32; CELLS]) -> Option<&[u32]> {
    area.get(..e.cells)
}

// READ has the enumerator's numbers, or its refusal.
pub fn read_agrees(file: &[u8], j: &Judged) -> bool {
    match (read::read(file), j) {
        (Ok(counts), Judged::Accepted { plan, variants }) => {
            counts
                == Counts {
                    acts: plan.acts,
                    nodes: plan.nodes,
                    variants: *variants,
                }
        }
        (Err(refusal), Judged::Refused(own)) => Numbered::of(refusal) == Numbered::own(*own),
        _ => false,
    }
}

// LIST has the enumerator's rows in their order, if they are within cap and area, and leaves every other cell.
fn list_in(file: &[u8], cap: u32, area: &mut [u32], e: Enumerated, rows: &[u32]) -> bool {
    match calls::list(file, cap, area) {
        Ok(count) => { e.count <= cap && count == u64::from(e.count) && begins(area, rows, BLANK) }
        Err(refusal) => {
            let own = if cap < e.count {
                OVER_CAP
            } else {
                area_too_short(e.cells)
            };
            let is_due = cap < e.count || area.len() < e.cells;
            is_due && Numbered::of(refusal) == own && begins(area, &[], BLANK)
        }
    }
}

pub fn list_agrees(file: &[u8], cap: u32, cells: usize, e: Enumerated, rows: &[u32]) -> bool {
    if CELLS < cells {
        return false;
    }
    let mut area = [BLANK; CELLS];
    list_in(file, cap, &mut area[..cells], e, rows)
}

// BEST has the enumerator's first shortest row, the number of rows and of the shortest, if the rows are within the cap.
// No feasible session is shorter.
fn best_agrees(file: &[u8], p: &Plan, cap: u32, e: Enumerated, rows: &[u32]) -> bool {
    match calls::best(file, cap) {
        Ok(best) => {
            let starts = best.timetable.starts;
            let row = Row {
                variant: best.variant,
                makespan: best.makespan,
                starts,
            };
            e.count <= cap
                && best.count == u64::from(e.count)
                && best.shortest == u64::from(e.shortest)
                && best.makespan == u64::from(e.makespan)
                && first_shortest(p, rows) == Some(row)
        }
        Err(refusal) => cap < e.count && Numbered::of(refusal) == OVER_CAP,
    }
}

// The calls that take a cap, with the largest area.
fn cap_agrees(file: &[u8], p: &Plan, cap: u32, e: Enumerated, rows: &[u32]) -> bool {
    list_agrees(file, cap, CELLS, e, rows) && best_agrees(file, p, cap, e, rows)
}

// LIST and BEST, on both sides of the least cap and the least area that give an answer.
fn agrees(file: &[u8], p: &Plan, e: Enumerated, rows: &[u32]) -> bool {
    if e.count == 0 || e.cells == 0 {
        return false;
    }
    cap_agrees(file, p, e.count, e, rows)
        && cap_agrees(file, p, e.count - 1, e, rows)
        && list_agrees(file, MOST, e.cells, e, rows)
        && list_agrees(file, MOST, e.cells - 1, e, rows)
}

// What the enumerator found, whether the planner agrees, and what WRITE and CHECK were asked.
#[derive(Clone, Copy)]
pub struct Comparison {
    pub found: Enumerated,
    pub agrees: bool,
    pub asked: Asked,
}

// All calls on a file; None: it could not be compared.
pub fn compared(file: &[u8]) -> Option<Comparison> {
    let mut area = [0u32; CELLS];
    let found = enumerator::enumerate(file, &mut area)?;
    let rows = rows_of(found, &area)?;
    let j = plain::judge(file);
    let Judged::Accepted { plan, variants } = &j else {
        return None;
    };
    let mut asked = Asked::none();
    asked.add_test(read_agrees(file, &j));
    crate::written::compare_variants(file, plan, *variants, &mut asked);
    crate::checked::compare_rows(file, plan, *variants, rows, &mut asked);
    Some(Comparison {
        found,
        agrees: asked.same && agrees(file, plan, found, rows),
        asked,
    })
}

// READ, WRITE and CHECK on a file that may be refused, as `plain` judges it; None: it could not be compared.
pub fn file_compared(file: &[u8], j: &Judged) -> Option<Asked> {
    let mut asked = Asked::none();
    asked.add_test(read_agrees(file, j));
    match j {
        Judged::Accepted { plan, variants } => {
            crate::written::compare_variants(file, plan, *variants, &mut asked);
            crate::checked::compare_first(file, plan, *variants, &mut asked);
        }
        Judged::Refused(own) => {
            let own = Numbered::own(*own);
            crate::written::compare_refused(file, own, &mut asked);
            crate::checked::compare_refused(file, own, &mut asked);
        }
        Judged::Unknown => return None,
    }
    Some(asked)
}
