// READ, WRITE and CHECK on generated plans with a fault put in.
use crate::totals::Totals;
use plain::Judged;
use std::io::Write;

// The files made of each plan, and of all.
const FAULTS: u64 = 32;

const FILES: u64 = crate::PLANS * FAULTS;

// The refusals that rest on the file alone; 0 stands for none.
const NUMBERS: [u64; 9] = [0, 1, 2, 3, 4, 5, 6, 10, 11];

// How many files have each number.
fn count(files: &mut [u64; NUMBERS.len()], number: u64) {
    for (own, files) in NUMBERS.iter().zip(files.iter_mut()) {
        if *own == number {
            *files = files.wrapping_add(1);
        }
    }
}

// The file of one more seed; returns how the plain side judges it.
fn compare<W: Write>(out: &mut W, seed: u64, totals: &mut Totals) -> Judged {
    let mut file = [0u8; 1024];
    let n = generator::generate(seed / FAULTS, &mut file);
    let m = generator::damage(seed, &mut file, n);
    let j = plain::judge(&file[..m]);
    match crate::agreement::file_compared(&file[..m], &j) {
        Some(asked) => {
            totals.add(asked.same, asked);
            if !asked.same {
                let _ = writeln!(out, "fault_differs={seed}");
            }
        }
        None => {
            let _ = writeln!(out, "fault_not_compared={seed}");
        }
    }
    j
}

pub fn put_all<W: Write>(out: &mut W) {
    let mut totals = Totals::none();
    let mut files = [0u64; NUMBERS.len()];
    for seed in 0..FILES {
        match compare(out, seed, &mut totals) {
            Judged::Accepted { .. } => count(&mut files, 0),
            Judged::Refused(refusal) => count(&mut files, refusal.number()),
            Judged::Unknown => {}
        }
    }
    let _ = writeln!(out, "faults={FILES}");
    totals.put(out);
    for (number, files) in NUMBERS.iter().zip(files.iter()) {
        let _ = match number {
            0 => write!(out, "accepted"),
            _ => write!(out, "refused={number}"),
        };
        let _ = writeln!(out, " files={files}");
    }
}
