// The orders of the variants searched so far, found by their activities; whether one of them has a schedule among its
// active ones.
#![tactic(auto)]

ghost use Rattle.std.specs.Prelude.{true, ◌≡◌, ℕ, ◌+◌, ◌*◌, ◌^◌, ◌≤◌, ◌<◌, length, get_or};
ghost use Rattle.sets.specs.Sets.{most};
ghost use Rattle.schedule.specs.Schedule.{active};
ghost use Rattle.schedule.specs.Sessions.{starts_of};
ghost use Rattle.instance.specs.Table.{project_in, link_of};
ghost use Rattle.instance.specs.Instance.{Instance};
ghost use Rattle.soonest.specs.Row.{Ended, row_in};
ghost use Rattle.plan.specs.Limits.{most_variants};
ghost use Rattle.orders.specs.Book.{entry_cells, order_from, entries_of, itself, Nearest, Book, Chain, Differ};
ghost use Rattle.orders.specs.Book.{Prior, is_new_by, Compared, Written, Entered};

use instance::{LINK, Table};
use plan::MOST_ACTS;
use profile::{NEVER, Work};
use soonest::misplaced;

// The cells of an entry: its activities, a link to the entry before it in its bucket, a link to the one before it with
// the same activities, where its order differs from the one compared last, and the sets of those before each activity.
// A link is 0, or one more than the number of an entry.
pub const PRESENT: usize = 0;

pub const BUCKET: usize = 1;

pub const SAME: usize = 2;

pub const DIFFERS: usize = 3;

pub const ORDER: usize = 4;

pub const ENTRY: usize = ORDER + MOST_ACTS;

// Each bucket has a link to its last entry; behind these stands the number of entries.
pub const BUCKETS: usize = 1021;

pub type Heads = [u32; BUCKETS + 1];

// No order up to the link in the table has the schedule among its active ones. In one where activity j has the same
// before it as in one that was tried, it is misplaced again.
pub fn is_new(table: &Table, work: &Work, book: &[u32]) -> bool
    requires { Instance table.now × Ended table.now work.now × Prior table.now book.now
        × (active (project_in table.now) (starts_of (row_in table.now work.now)) ≡ true) }
    ensures { result
        ≡ is_new_by (project_in table.now) (link_of table.now) book.now
        (row_in table.now work.now) }
{
    let mut link = table[LINK] as usize;
    let mut j = 0;
    let mut before = NEVER;
    while link != 0 {
        let at = (link - 1) * ENTRY;
        link = book[at + SAME] as usize;
        if book[at + ORDER + j] != before {
            j = misplaced(table, work, book[at + DIFFERS], &book[at + ORDER..]);
            if j == MOST_ACTS {
                return false;
            }
            before = book[at + ORDER + j];
        }
    }
    true
}

// The link to the last entry with these activities.
pub fn find(heads: &Heads, book: &[u32], present: u32) -> u32
    requires { Book heads.now book.now }
    ensures { Nearest itself book.now (entries_of heads.now) present result }
{
    let mut link = heads[present as usize % BUCKETS];
    while link != 0 {
        let at = (link as usize - 1) * ENTRY;
        if book[at + PRESENT] == present {
            return link;
        }
        link = book[at + BUCKET];
    }
    0
}

// The activities before which an entry has not the same as another order.
fn differences(entry: &[u32], preds: &[u32; MOST_ACTS]) -> u32
    requires { entry_cells ≤ length entry.now }
    ensures { Differ (λ j. get_or entry.now (order_from + j) 0) (λ j. get_or preds.now j 0) result }
{
    let mut set = 0;
    for j in 0..MOST_ACTS {
        if entry[ORDER + j] != preds[j] {
            set = sets::union(set, sets::single(j));
        }
    }
    set
}

// Where an order differs from each that the link leads to; whether it is none of them.
pub fn compare(book: &mut [u32], link: u32, preds: &[u32; MOST_ACTS]) -> bool
    requires { Chain link book.old }
    ensures { Compared preds.now link book.old book.new result }
{
    let mut to = link as usize;
    while to != 0 {
        let at = (to - 1) * ENTRY;
        let set = differences(&book[at..], preds);
        if set == 0 {
            return false;
        }
        book[at + DIFFERS] = set;
        to = book[at + SAME] as usize;
    }
    true
}

// The cells of an entry but where it differs.
fn write_entry(entry: &mut [u32], present: u32, bucket: u32, same: u32, preds: &[u32; MOST_ACTS])
    requires { entry_cells ≤ length entry.old }
    ensures { Written present bucket same preds.now entry.old entry.new }
{
    entry[PRESENT] = present;
    entry[BUCKET] = bucket;
    entry[SAME] = same;
    entry[ORDER..ENTRY].copy_from_slice(preds);
}

// An order becomes an entry; the link leads to the last one with the same activities.
pub fn enter(heads: &mut Heads, book: &mut [u32], link: u32, present: u32, preds: &[u32; MOST_ACTS])
    requires { Book heads.old book.old
        × Nearest itself book.old (entries_of heads.old) present link
        × (entries_of heads.old < most_variants)
        × (entry_cells * (entries_of heads.old + 1) ≤ length book.old)
        × ((j : ℕ) → j < most → get_or preds.now j 0 < 2 ^ most) }
    ensures { Entered present preds.now heads.old book.old heads.new
        book.new }
{
    let n = heads[BUCKETS];
    let bucket = present as usize % BUCKETS;
    write_entry(
        &mut book[n as usize * ENTRY..],
        present,
        heads[bucket],
        link,
        preds,
    );
    heads[bucket] = n + 1;
    heads[BUCKETS] = n + 1;
}
