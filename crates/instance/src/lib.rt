// The table of one variant that the search reads, in two parts: what rests on the plan alone, and what rests on the
// variant.
#![tactic(auto)]

ghost use Rattle.std.specs.Prelude.{cond, ◌≡◌, ℕ, ◌+◌, ◌*◌, ◌^◌, ◌≤◌, ◌<◌, ltb, length, get_or};
ghost use Rattle.plan.specs.Limits.{most_resources};
ghost use Rattle.sets.specs.Sets.{most, has, width};
ghost use Rattle.instance.specs.Table.{words, preds_from, next_from, component_from, clash_from};
ghost use Rattle.instance.specs.Table.{capacity_from, component_at, units_at, resources_of, acts_of};
ghost use Rattle.instance.specs.Instance.{fit_together, is_tight, own_of, row_of, Given, LaidFrom, Chosen, Placed};
ghost use Rattle.instance.specs.Steps.{Passing, Filled, Held, Columns, Counted, Joined, IsComponent};
ghost use Rattle.instance.specs.Steps.{IsClash, Grouped, Apart, AllClash, Nearest, LinkedNext, Blank, Links};

use plan::{MOST_ACTS, MOST_RESOURCES, Tables};
use sets::{WIDTH, activities};

// Where the columns begin: the predecessors of each activity, those that have it as a nearest predecessor, its nearest
// predecessors, which precede no other of its predecessors, its component, and those that can never run together with
// it. The first column has the durations. Behind the columns stand the units that each activity holds, the capacities,
// and single cells.
pub const PREDS: usize = WIDTH;

pub const NEXT: usize = 2 * WIDTH;

pub const NEAR: usize = 3 * WIDTH;

pub const COMPONENT: usize = 4 * WIDTH;

pub const CLASH: usize = 5 * WIDTH;

pub const UNITS: usize = 6 * WIDTH;

// The units of one activity.
pub const ROW: usize = MOST_RESOURCES;

pub const CAPACITY: usize = UNITS + ROW * WIDTH;

pub const RESOURCES: usize = CAPACITY + ROW;

pub const TIGHT: usize = RESOURCES + 1;

pub const PRESENT: usize = RESOURCES + 2;

pub const ACTS: usize = RESOURCES + 3;

pub const CAP: usize = RESOURCES + 4;

pub const VARIANT: usize = RESOURCES + 5;

pub const LINK: usize = RESOURCES + 6;

pub const WORDS: usize = RESOURCES + 7;

pub type Table = [u32; WORDS];

// What activity i holds of resource r.
pub fn units_of(table: &Table, i: usize, r: usize) -> u32
    requires { (i < most) × (r < most_resources) }
    ensures { result ≡ units_at table.now i r }
{
    table[UNITS + ROW * i + r]
}

fn fill_durations(table: &mut Table, tables: &Tables)
    requires { length table.old ≡ words }
    ensures { Filled table.old 0 tables.now.acts (λ i x. x ≡ (row_of tables.now i).duration) table.new }
{
    for i in 0..tables.acts {
        table[i] = u32::from(tables.activity[i].duration);
    }
}

fn fill_units(table: &mut Table, tables: &Tables)
    requires { length table.old ≡ words }
    ensures { Held table.old tables.now tables.now.acts table.new }
{
    for i in 0..tables.acts {
        for r in 0..tables.resources {
            table[UNITS + ROW * i + r] = u32::from(tables.activity[i].units[r]);
        }
    }
}

fn fill_capacities(table: &mut Table, tables: &Tables)
    requires { length table.old ≡ words }
    ensures { Filled table.old capacity_from tables.now.resources
        (λ r x. x ≡ get_or tables.now.capacity r 0)
        table.new }
{
    for r in 0..tables.resources {
        table[CAPACITY + r] = u32::from(tables.capacity[r]);
    }
}

// What the plan's tables hold, in the table's columns.
fn columns(tables: &Tables) -> Table
    ensures { Columns tables.now result }
{
    let mut table = [0; WORDS];
    table[ACTS] = tables.acts as u32;
    table[RESOURCES] = tables.resources as u32;
    fill_durations(&mut table, tables);
    fill_units(&mut table, tables);
    fill_capacities(&mut table, tables);
    table
}

// Each activity is a component of its own.
fn part(table: &mut Table, acts: usize)
    requires { (length table.old ≡ words) × (acts ≤ most) }
    ensures { Filled table.old component_from acts (λ i x. x ≡ 2 ^ i) table.new }
{
    for i in 0..acts {
        table[COMPONENT + i] = sets::single(i);
    }
}

// Those that hold units of resource r.
fn users(table: &Table, acts: usize, r: usize) -> u32
    requires { (acts ≤ most) × (r < most_resources) }
    ensures { Passing acts (λ i. ltb 0 (units_at table.now i r)) result }
{
    let mut set = 0;
    for i in 0..acts {
        if units_of(table, i, r) > 0 {
            set = sets::union(set, sets::single(i));
        }
    }
    set
}

// The components of the members of a set.
fn joined(table: &Table, set: u32) -> u32
    requires { (set < 2 ^ most) × ((i : ℕ) → i < most → component_at table.now i < 2 ^ most) }
    ensures { Joined table.now set result }
{
    let mut all = 0;
    for i in activities(set) {
        all = sets::union(all, table[COMPONENT + i]);
    }
    all
}

// A set becomes the component of each of its members.
fn merge(table: &mut Table, set: u32)
    requires { (length table.old ≡ words) × (set < 2 ^ most) }
    ensures { Filled table.old component_from most
        (λ i x. x ≡ cond (has set i) set (component_at table.old i))
        table.new }
{
    for i in activities(set) {
        table[COMPONENT + i] = set;
    }
}

// The components that share a resource become one, resource by resource.
fn merge_all(table: &mut Table, acts: usize, resources: usize)
    requires { Counted acts resources table.old
        × ((i : ℕ) → i < most → component_at table.old i ≡ cond (ltb i acts) (2 ^ i) 0) }
    ensures { Filled table.old component_from most (IsComponent table.old) table.new }
{
    for r in 0..resources {
        let on = users(table, acts, r);
        let all = joined(table, on);
        merge(table, all);
    }
}

// Can the two run together? Those of two components can.
fn fit(table: &Table, resources: usize, i: usize, k: usize) -> bool
    requires { Grouped (acts_of table.now) resources table.now
        × (i < acts_of table.now)
        × (k < acts_of table.now) }
    ensures { result ≡ fit_together table.now i k }
{
    !sets::contains(table[COMPONENT + i], k)
        || (0..resources).all(|r| {
            units_of(table, i, r) + units_of(table, k, r) <= table[CAPACITY + r]
        })
}

// Those that can never run together with i.
fn clashing(table: &Table, acts: usize, resources: usize, i: usize) -> u32
    requires { Grouped acts resources table.now × (i < acts) }
    ensures { IsClash table.now i result }
{
    let mut set = 0;
    for k in 0..acts {
        if k != i && !fit(table, resources, i, k) {
            set = sets::union(set, sets::single(k));
        }
    }
    set
}

fn clash_all(table: &mut Table, acts: usize, resources: usize)
    requires { Grouped acts resources table.old }
    ensures { Filled table.old clash_from acts (IsClash table.old) table.new }
{
    for i in 0..acts {
        table[CLASH + i] = clashing(table, acts, resources, i);
    }
}

// Can no two of a set run together?
fn all_clash(table: &Table, set: u32) -> bool
    requires { set < 2 ^ most }
    ensures { AllClash table.now set result }
{
    for i in activities(set) {
        if sets::minus(set, sets::union(table[CLASH + i], sets::single(i))) != 0 {
            return false;
        }
    }
    true
}

// The activities of the components in which no two can run together.
fn tight(table: &Table, acts: usize) -> u32
    requires { Apart acts (resources_of table.now) table.now }
    ensures { Passing acts (λ i. is_tight table.now (own_of table.now i)) result }
{
    let mut set = 0;
    for i in 0..acts {
        if all_clash(table, table[COMPONENT + i]) {
            set = sets::union(set, sets::single(i));
        }
    }
    set
}

// The table of a plan, with no variant in it yet.
pub fn laid(tables: &Tables) -> Table
    requires { Given tables.now }
    ensures { LaidFrom tables.now result }
{
    let mut table = columns(tables);
    part(&mut table, tables.acts);
    merge_all(&mut table, tables.acts, tables.resources);
    clash_all(&mut table, tables.acts, tables.resources);
    table[TIGHT] = tight(&table, tables.acts);
    table
}

fn fill_preds(table: &mut Table, preds: &[u32; MOST_ACTS])
    requires { length table.old ≡ words }
    ensures { Filled table.old preds_from most (λ i x. x ≡ get_or preds.now i 0) table.new }
{
    table[PREDS..PREDS + MOST_ACTS].copy_from_slice(preds);
}

// The columns of links, with no link.
fn unlink(table: &mut Table)
    requires { length table.old ≡ words }
    ensures { Filled table.old next_from (2 * width) (λ i x. x ≡ 0) table.new }
{
    table[NEXT..COMPONENT].fill(0);
}

// The members of a set that precede no other of its members.
fn nearest(table: &Table, set: u32) -> u32
    requires { set < 2 ^ most }
    ensures { Nearest table.now set result }
{
    let mut near = set;
    for i in activities(set) {
        near = sets::minus(near, table[PREDS + i]);
    }
    near
}

// Activity j comes next after each member of a set.
fn link(table: &mut Table, set: u32, j: usize)
    requires { (length table.old ≡ words) × (set < 2 ^ most) × (j < most) }
    ensures { LinkedNext table.old set j table.new }
{
    for i in activities(set) {
        table[NEXT + i] = sets::union(table[NEXT + i], sets::single(j));
    }
}

// The columns of nearest predecessors and of what comes next.
fn link_all(table: &mut Table, acts: usize)
    requires { Blank acts table.old }
    ensures { Links table.old table.new }
{
    for j in 0..acts {
        let near = nearest(table, table[PREDS + j]);
        table[NEAR + j] = near;
        link(table, near, j);
    }
}

// The table of the variant with that number; `link` is where the orders of its activities begin.
pub fn for_variant(
    table: &mut Table,
    present: u32,
    preds: &[u32; MOST_ACTS],
    number: u32,
    cap: u32,
    link: u32,
)
    requires { Chosen table.old present preds.now }
    ensures { Placed table.old present preds.now number cap link table.new }
{
    let acts = table[ACTS] as usize;
    table[PRESENT] = present;
    table[CAP] = cap;
    table[VARIANT] = number;
    table[LINK] = link;
    fill_preds(table, preds);
    unlink(table);
    link_all(table, acts);
}
