// The campaigns whose sessions are few enough to try them all, and those that are settled without. The figures are
// those of the plain side.
use crate::agreement::{
    CELLS, MOST, Numbered, area_too_short, compared, file_compared, list_agrees, rows_of,
};
use crate::asked::Asked;
use plain::Judged;
use std::io::Write;

fn put_agree<W: Write>(out: &mut W, name: &str, agrees: bool) {
    let answer = if agrees { "yes" } else { "no" };
    let _ = write!(out, "campaign={name} agree={answer}");
}

fn put_not_compared<W: Write>(out: &mut W, name: &str) {
    let _ = writeln!(out, "campaign={name} not_compared");
}

fn put_refusal<W: Write>(out: &mut W, refusal: Numbered) {
    let Numbered { number, figure } = refusal;
    let _ = writeln!(out, " refused={number} figure={figure}");
}

// How many variants were written out, and how many timetables are sessions and how many are not.
fn put_asked<W: Write>(out: &mut W, asked: Asked) {
    let Asked {
        same: _,
        variants,
        yes,
        no,
    } = asked;
    let _ = writeln!(out, " written={variants} yes={yes} no={no}");
}

// READ, WRITE and CHECK.
fn put_file<W: Write>(out: &mut W, name: &str, file: &[u8]) {
    let j = plain::judge(file);
    let Some(asked) = file_compared(file, &j) else {
        put_not_compared(out, name);
        return;
    };
    put_agree(out, name, asked.same);
    match j {
        Judged::Accepted { variants, .. } => {
            let _ = write!(out, " variants={variants}");
            put_asked(out, asked);
        }
        Judged::Refused(refusal) => put_refusal(out, Numbered::own(refusal)),
        Judged::Unknown => {
            let _ = writeln!(out);
        }
    }
}

// LIST in an area of so many cells.
fn put_list<W: Write>(out: &mut W, name: &str, file: &[u8], cells: usize) {
    let mut area = [0u32; CELLS];
    let Some(e) = enumerator::enumerate(file, &mut area) else {
        put_not_compared(out, name);
        return;
    };
    let Some(rows) = rows_of(e, &area) else {
        put_not_compared(out, name);
        return;
    };
    put_agree(out, name, list_agrees(file, MOST, cells, e, rows));
    if cells < e.cells {
        put_refusal(out, area_too_short(e.cells));
        return;
    }
    let _ = writeln!(out, " rows={}", e.count);
}

// All calls.
fn put_all_calls<W: Write>(out: &mut W, name: &str, file: &[u8]) {
    let Some(c) = compared(file) else {
        put_not_compared(out, name);
        return;
    };
    put_agree(out, name, c.agrees);
    let _ = write!(out, " count={}", c.found.count);
    let _ = write!(out, " shortest={}", c.found.shortest);
    let _ = write!(out, " makespan={}", c.found.makespan);
    put_asked(out, c.asked);
}

fn put_dot_test<W: Write>(out: &mut W, file: &[u8]) {
    put_all_calls(out, "dot_test", file);
    put_list(out, "dot_test_in_18_cells", file, 18);
    put_list(out, "dot_test_in_17_cells", file, 17);
}

fn put_sessions<W: Write>(out: &mut W) {
    put_all_calls(out, "two_contested", &samples::two_contested());
    put_all_calls(out, "free_resource_waits", &samples::free_resource_waits());
    put_all_calls(out, "twice_under_x", &samples::twice_under_x());
    put_all_calls(out, "three_orders", &samples::three_orders());
    put_all_calls(out, "feasible_below", &samples::feasible_below());
    put_all_calls(out, "other_activities", &samples::other_activities());
    put_all_calls(out, "example_2", &samples::example_2());
    put_all_calls(out, "three_shortest", &samples::three_shortest());
}

fn put_durations<W: Write>(out: &mut W) {
    put_all_calls(out, "duration_2001", &samples::duration_2001());
    put_all_calls(out, "duration_20000", &samples::duration_20000());
    put_all_calls(out, "soak", &samples::soak());
}

// Several units to a resource, several resources to an activity or none.
fn put_units<W: Write>(out: &mut W) {
    put_all_calls(out, "two_arm_bench", &samples::two_arm_bench());
    put_all_calls(out, "two_arms", &samples::two_arms());
    put_all_calls(out, "arm_and_camera", &samples::arm_and_camera());
    put_all_calls(out, "both_arms", &samples::both_arms());
    put_all_calls(out, "shared_three_ways", &samples::shared_three_ways());
    put_all_calls(out, "without_resource", &samples::without_resource());
    put_all_calls(out, "dot_test_units", &samples::dot_test_units());
    put_all_calls(out, "units_at_capacity", &samples::units_at_capacity());
}

fn put_variants<W: Write>(out: &mut W) {
    put_file(out, "twelve_choices", &samples::twelve_choices());
    put_file(
        out,
        "twelve_choices_and_one",
        &samples::twelve_choices_and_one(),
    );
}

// A byte more than the longest file.
const LONGER: usize = 2176;

// A text with newlines behind it.
fn padded(text: &[u8]) -> [u8; LONGER] {
    let mut file = [b'\n'; LONGER];
    for (byte, own) in file.iter_mut().zip(text) {
        *byte = *own;
    }
    file
}

// The first bytes of an area, which is not shorter.
fn put_first<W: Write>(out: &mut W, name: &str, area: &[u8], bytes: usize) {
    if bytes <= area.len() {
        put_file(out, name, &area[..bytes]);
    }
}

// The longest file of each edition, and with newlines behind it.
fn put_lengths<W: Write>(out: &mut W) {
    put_file(out, "empty_file", b"");
    let file = padded(&samples::longest_edition_1());
    put_first(out, "edition_1_of_983_bytes", &file, 983);
    put_first(out, "edition_1_of_984_bytes", &file, 984);
    put_first(out, "edition_1_of_2175_bytes", &file, 2175);
    put_first(out, "edition_1_of_2176_bytes", &file, 2176);
    let file = padded(&samples::longest());
    put_first(out, "edition_2_of_2175_bytes", &file, 2175);
    put_first(out, "edition_2_of_2176_bytes", &file, 2176);
}

fn put_faults<W: Write>(out: &mut W) {
    put_file(out, "twice_under_p", &samples::twice_under_p());
    put_file(out, "leading_zero", &samples::leading_zero());
    put_file(out, "duration_20001", &samples::duration_20001());
    put_file(out, "group_of_one", &samples::group_of_one());
}

fn put_unit_faults<W: Write>(out: &mut W) {
    put_file(out, "units_over_capacity", &samples::units_over_capacity());
    put_file(out, "units_16", &samples::units_16());
    put_file(out, "units_over_and_16", &samples::units_over_and_16());
    put_file(out, "capacity_16", &samples::capacity_16());
    put_file(out, "capacity_absent", &samples::capacity_absent());
    put_file(out, "count_absent", &samples::count_absent());
    put_file(out, "count_too_many", &samples::count_too_many());
    put_file(out, "edition_3", &samples::edition_3());
}

pub fn put_all<W: Write>(out: &mut W) {
    put_dot_test(out, &samples::dot_test());
    put_sessions(out);
    put_durations(out);
    put_units(out);
    put_variants(out);
    put_lengths(out);
    put_faults(out);
    put_unit_faults(out);
}
