// Plan files of both editions: the worked campaigns, and one for each kind of fault, as the programs that run them take
// them.
#![tactic(auto)]

// The dot test, whole.
pub fn dot_test() -> [u8; 149] {
    *b"plan=1\nres=3\nacts=5\n\
        act=0,4\nact=1,2\nact=1,3\nact=2,5\nact=1,6\n\
        nodes=9\nnode=s,2\nnode=x,2\nnode=a,0\nnode=p,2\nnode=a,1\nnode=a,2\nnode=p,2\nnode=a,3\nnode=a,4\n"
}

// p over two activities of duration 1 on resource 0 and two on resource 1.
pub fn two_contested() -> [u8; 105] {
    *b"plan=1\nres=2\nacts=4\n\
        act=0,1\nact=0,1\nact=1,1\nact=1,1\n\
        nodes=5\nnode=p,4\nnode=a,0\nnode=a,1\nnode=a,2\nnode=a,3\n"
}

// A free resource has to wait: the shortest session has makespan 22.
pub fn free_resource_waits() -> [u8; 116] {
    *b"plan=1\nres=2\nacts=4\n\
        act=0,10\nact=1,1\nact=0,1\nact=1,20\n\
        nodes=6\nnode=p,2\nnode=a,0\nnode=s,3\nnode=a,1\nnode=a,2\nnode=a,3\n"
}

// Document 000, Example 2, second term.
pub fn example_2() -> [u8; 210] {
    *b"plan=1\nres=4\nacts=8\n\
        act=0,1\nact=1,2\nact=2,2\nact=1,1\nact=0,1\nact=0,2\nact=3,1\nact=1,2\n\
        nodes=13\nnode=p,4\nnode=s,2\nnode=p,2\nnode=a,0\nnode=a,1\nnode=a,2\nnode=s,2\nnode=a,3\nnode=a,4\n\
        node=a,5\nnode=s,2\nnode=a,6\nnode=a,7\n"
}

// p over activity 1 and the sequence of 2 and 0, all of duration 1 on one resource: three sessions, equally long.
pub fn three_shortest() -> [u8; 97] {
    *b"plan=1\nres=1\nacts=3\n\
        act=0,1\nact=0,1\nact=0,1\n\
        nodes=5\nnode=p,2\nnode=a,1\nnode=s,2\nnode=a,2\nnode=a,0\n"
}

// Soak tests, two sequences side by side and one more after both: four sessions, and the third is the shortest, of
// makespan 88000.
pub fn soak() -> [u8; 191] {
    *b"plan=1\nres=2\nacts=6\n\
        act=0,16000\nact=0,12000\nact=0,20000\nact=1,20000\nact=0,20000\nact=1,20000\n\
        nodes=10\nnode=s,2\nnode=p,2\nnode=s,2\nnode=a,0\nnode=a,1\nnode=s,3\nnode=a,2\nnode=a,3\nnode=a,4\nnode=a,5\n"
}

// x over activity 0 twice.
pub fn twice_under_x() -> [u8; 63] {
    *b"plan=1\nres=1\nacts=1\n\
        act=0,1\n\
        nodes=3\nnode=x,2\nnode=a,0\nnode=a,0\n"
}

// x over two activities in both sequences and side by side, on one resource: three variants, two sessions.
pub fn three_orders() -> [u8; 135] {
    *b"plan=1\nres=1\nacts=2\n\
        act=0,1\nact=0,2\n\
        nodes=10\nnode=x,3\nnode=s,2\nnode=a,0\nnode=a,1\nnode=s,2\nnode=a,1\nnode=a,0\nnode=p,2\nnode=a,0\n\
        node=a,1\n"
}

// x over two activities side by side and in sequence: the session in sequence is feasible for both variants, but active
// for variant 1 alone.
pub fn feasible_below() -> [u8; 107] {
    *b"plan=1\nres=2\nacts=2\n\
        act=0,1\nact=1,2\n\
        nodes=7\nnode=x,2\nnode=p,2\nnode=a,0\nnode=a,1\nnode=s,2\nnode=a,0\nnode=a,1\n"
}

// x over two activities: sessions with equal starts of other activities.
pub fn other_activities() -> [u8; 71] {
    *b"plan=1\nres=1\nacts=2\n\
        act=0,1\nact=0,1\n\
        nodes=3\nnode=x,2\nnode=a,0\nnode=a,1\n"
}

// p over activity 0 twice.
pub fn twice_under_p() -> [u8; 63] {
    *b"plan=1\nres=1\nacts=1\n\
        act=0,1\n\
        nodes=3\nnode=p,2\nnode=a,0\nnode=a,0\n"
}

// p over twelve x of two distinct activities: 4096 variants.
pub fn twelve_choices() -> [u8; 570] {
    *b"plan=1\nres=1\nacts=24\n\
        act=0,1\nact=0,1\nact=0,1\nact=0,1\nact=0,1\nact=0,1\nact=0,1\nact=0,1\nact=0,1\nact=0,1\nact=0,1\n\
        act=0,1\nact=0,1\nact=0,1\nact=0,1\nact=0,1\nact=0,1\nact=0,1\nact=0,1\nact=0,1\nact=0,1\nact=0,1\n\
        act=0,1\nact=0,1\n\
        nodes=37\nnode=p,12\nnode=x,2\nnode=a,0\nnode=a,1\nnode=x,2\nnode=a,2\nnode=a,3\nnode=x,2\n\
        node=a,4\nnode=a,5\nnode=x,2\nnode=a,6\nnode=a,7\nnode=x,2\nnode=a,8\nnode=a,9\nnode=x,2\n\
        node=a,10\nnode=a,11\nnode=x,2\nnode=a,12\nnode=a,13\nnode=x,2\nnode=a,14\nnode=a,15\nnode=x,2\n\
        node=a,16\nnode=a,17\nnode=x,2\nnode=a,18\nnode=a,19\nnode=x,2\nnode=a,20\nnode=a,21\nnode=x,2\n\
        node=a,22\nnode=a,23\n"
}

// One of these x with its first activity a second time: 6144 variants.
pub fn twelve_choices_and_one() -> [u8; 579] {
    *b"plan=1\nres=1\nacts=24\n\
        act=0,1\nact=0,1\nact=0,1\nact=0,1\nact=0,1\nact=0,1\nact=0,1\nact=0,1\nact=0,1\nact=0,1\nact=0,1\n\
        act=0,1\nact=0,1\nact=0,1\nact=0,1\nact=0,1\nact=0,1\nact=0,1\nact=0,1\nact=0,1\nact=0,1\nact=0,1\n\
        act=0,1\nact=0,1\n\
        nodes=38\nnode=p,12\nnode=x,3\nnode=a,0\nnode=a,1\nnode=a,0\nnode=x,2\nnode=a,2\nnode=a,3\n\
        node=x,2\nnode=a,4\nnode=a,5\nnode=x,2\nnode=a,6\nnode=a,7\nnode=x,2\nnode=a,8\nnode=a,9\nnode=x,2\n\
        node=a,10\nnode=a,11\nnode=x,2\nnode=a,12\nnode=a,13\nnode=x,2\nnode=a,14\nnode=a,15\nnode=x,2\n\
        node=a,16\nnode=a,17\nnode=x,2\nnode=a,18\nnode=a,19\nnode=x,2\nnode=a,20\nnode=a,21\nnode=x,2\n\
        node=a,22\nnode=a,23\n"
}

// A value with a leading zero, on line 4.
pub fn leading_zero() -> [u8; 46] {
    *b"plan=1\nres=1\nacts=1\n\
        act=0,04\n\
        nodes=1\nnode=a,0\n"
}

// A duration of 2001, within range.
pub fn duration_2001() -> [u8; 48] {
    *b"plan=1\nres=1\nacts=1\n\
        act=0,2001\n\
        nodes=1\nnode=a,0\n"
}

// The longest duration.
pub fn duration_20000() -> [u8; 49] {
    *b"plan=1\nres=1\nacts=1\n\
        act=0,20000\n\
        nodes=1\nnode=a,0\n"
}

// A duration out of range, on line 4.
pub fn duration_20001() -> [u8; 49] {
    *b"plan=1\nres=1\nacts=1\n\
        act=0,20001\n\
        nodes=1\nnode=a,0\n"
}

// A group with a single child, on line 6.
pub fn group_of_one() -> [u8; 54] {
    *b"plan=1\nres=1\nacts=1\n\
        act=0,1\n\
        nodes=2\nnode=s,1\nnode=a,0\n"
}

// Line 6, the only node, is absent.
pub fn node_absent() -> [u8; 36] {
    *b"plan=1\nres=1\nacts=1\n\
        act=0,1\n\
        nodes=1\n"
}

// A well-formed line follows the last one, which is line 6.
pub fn line_too_many() -> [u8; 54] {
    *b"plan=1\nres=1\nacts=1\n\
        act=0,1\n\
        nodes=1\nnode=a,0\nnode=a,0\n"
}

// A p that lacks its second child.
pub fn child_absent() -> [u8; 54] {
    *b"plan=1\nres=1\nacts=1\n\
        act=0,1\n\
        nodes=2\nnode=p,2\nnode=a,0\n"
}

// p over eight activities of duration 1 on one resource: 40320 sessions.
pub fn eight_in_parallel() -> [u8; 173] {
    *b"plan=1\nres=1\nacts=8\n\
        act=0,1\nact=0,1\nact=0,1\nact=0,1\nact=0,1\nact=0,1\nact=0,1\nact=0,1\n\
        nodes=9\nnode=p,8\nnode=a,0\nnode=a,1\nnode=a,2\nnode=a,3\nnode=a,4\nnode=a,5\nnode=a,6\nnode=a,7\n"
}

// p over ten of them: 3628800 sessions.
pub fn ten_in_parallel() -> [u8; 210] {
    *b"plan=1\nres=1\nacts=10\n\
        act=0,1\nact=0,1\nact=0,1\nact=0,1\nact=0,1\nact=0,1\nact=0,1\nact=0,1\nact=0,1\nact=0,1\n\
        nodes=11\nnode=p,10\nnode=a,0\nnode=a,1\nnode=a,2\nnode=a,3\nnode=a,4\nnode=a,5\nnode=a,6\n\
        node=a,7\nnode=a,8\nnode=a,9\n"
}

// Two arms and a camera, with activities that hold an arm, an arm and the camera, both arms or the camera: nine
// sessions, two of them shortest, of makespan 9.
pub fn two_arm_bench() -> [u8; 153] {
    *b"plan=2\nres=2\ncap=2\ncap=1\nacts=5\n\
        act=4,1,0\nact=3,1,1\nact=2,2,0\nact=5,1,0\nact=2,0,1\n\
        nodes=7\nnode=p,4\nnode=s,2\nnode=a,0\nnode=a,2\nnode=a,1\nnode=a,3\nnode=a,4\n"
}

// p over four activities, each on one of two arms: eleven sessions, four of them shortest, of makespan 4.
pub fn two_arms() -> [u8; 111] {
    *b"plan=2\nres=1\ncap=2\nacts=4\n\
        act=3,1\nact=2,1\nact=2,1\nact=1,1\n\
        nodes=5\nnode=p,4\nnode=a,0\nnode=a,1\nnode=a,2\nnode=a,3\n"
}

// An activity that holds an arm and the camera, beside one on the camera, one on an arm and one on both arms: four
// sessions.
pub fn arm_and_camera() -> [u8; 125] {
    *b"plan=2\nres=2\ncap=2\ncap=1\nacts=4\n\
        act=2,1,1\nact=3,0,1\nact=1,1,0\nact=2,2,0\n\
        nodes=5\nnode=p,4\nnode=a,0\nnode=a,1\nnode=a,2\nnode=a,3\n"
}

// An activity that needs both arms, and two that need one each: three sessions.
pub fn both_arms() -> [u8; 94] {
    *b"plan=2\nres=1\ncap=2\nacts=3\n\
        act=3,2\nact=2,1\nact=4,1\n\
        nodes=4\nnode=p,3\nnode=a,0\nnode=a,1\nnode=a,2\n"
}

// Three units, held by three activities at once or by one of two units and another: seven sessions.
pub fn shared_three_ways() -> [u8; 111] {
    *b"plan=2\nres=1\ncap=3\nacts=4\n\
        act=2,1\nact=3,1\nact=1,1\nact=2,2\n\
        nodes=5\nnode=p,4\nnode=a,0\nnode=a,1\nnode=a,2\nnode=a,3\n"
}

// An activity that holds no resource, beside two that share one: two sessions.
pub fn without_resource() -> [u8; 94] {
    *b"plan=2\nres=1\ncap=1\nacts=3\n\
        act=2,1\nact=3,1\nact=4,0\n\
        nodes=4\nnode=p,3\nnode=a,0\nnode=a,1\nnode=a,2\n"
}

// The dot test in edition 2.
pub fn dot_test_units() -> [u8; 187] {
    *b"plan=2\nres=3\ncap=1\ncap=1\ncap=1\nacts=5\n\
        act=4,1,0,0\nact=2,0,1,0\nact=3,0,1,0\nact=5,0,0,1\nact=6,0,1,0\n\
        nodes=9\nnode=s,2\nnode=x,2\nnode=a,0\nnode=p,2\nnode=a,1\nnode=a,2\nnode=p,2\nnode=a,3\nnode=a,4\n"
}

// As many units as the resource has.
pub fn units_at_capacity() -> [u8; 53] {
    *b"plan=2\nres=1\ncap=15\nacts=1\n\
        act=1,15\n\
        nodes=1\nnode=a,0\n"
}

// One unit more than the resource has, on line 5.
pub fn units_over_capacity() -> [u8; 53] {
    *b"plan=2\nres=1\ncap=14\nacts=1\n\
        act=1,15\n\
        nodes=1\nnode=a,0\n"
}

// A unit count out of range, on line 5; it is also more than the resource has.
pub fn units_16() -> [u8; 53] {
    *b"plan=2\nres=1\ncap=15\nacts=1\n\
        act=1,16\n\
        nodes=1\nnode=a,0\n"
}

// One unit count above its resource's units and the next out of range, on line 6.
pub fn units_over_and_16() -> [u8; 61] {
    *b"plan=2\nres=2\ncap=1\ncap=15\nacts=1\n\
        act=1,2,16\n\
        nodes=1\nnode=a,0\n"
}

// A capacity out of range, on line 3.
pub fn capacity_16() -> [u8; 52] {
    *b"plan=2\nres=1\ncap=16\nacts=1\n\
        act=1,1\n\
        nodes=1\nnode=a,0\n"
}

// The second of two capacities is absent, on line 4.
pub fn capacity_absent() -> [u8; 53] {
    *b"plan=2\nres=2\ncap=1\nacts=1\n\
        act=1,1,1\n\
        nodes=1\nnode=a,0\n"
}

// One unit count for two resources, on line 6.
pub fn count_absent() -> [u8; 57] {
    *b"plan=2\nres=2\ncap=1\ncap=1\nacts=1\n\
        act=1,1\n\
        nodes=1\nnode=a,0\n"
}

// Two unit counts for one resource, on line 5.
pub fn count_too_many() -> [u8; 53] {
    *b"plan=2\nres=1\ncap=1\nacts=1\n\
        act=1,1,1\n\
        nodes=1\nnode=a,0\n"
}

// Another edition, on line 1.
pub fn edition_3() -> [u8; 51] {
    *b"plan=3\nres=1\ncap=1\nacts=1\n\
        act=1,1\n\
        nodes=1\nnode=a,0\n"
}

// The longest file of edition 1.
pub fn longest_edition_1() -> [u8; 983] {
    *b"plan=1\nres=16\nacts=24\n\
        act=15,20000\nact=15,20000\nact=15,20000\nact=15,20000\nact=15,20000\nact=15,20000\n\
        act=15,20000\nact=15,20000\nact=15,20000\nact=15,20000\nact=15,20000\nact=15,20000\n\
        act=15,20000\nact=15,20000\nact=15,20000\nact=15,20000\nact=15,20000\nact=15,20000\n\
        act=15,20000\nact=15,20000\nact=15,20000\nact=15,20000\nact=15,20000\nact=15,20000\n\
        nodes=64\nnode=x,63\nnode=a,23\nnode=a,23\nnode=a,23\nnode=a,23\nnode=a,23\nnode=a,23\nnode=a,23\n\
        node=a,23\nnode=a,23\nnode=a,23\nnode=a,23\nnode=a,23\nnode=a,23\nnode=a,23\nnode=a,23\n\
        node=a,23\nnode=a,23\nnode=a,23\nnode=a,23\nnode=a,23\nnode=a,23\nnode=a,23\nnode=a,23\n\
        node=a,23\nnode=a,23\nnode=a,23\nnode=a,23\nnode=a,23\nnode=a,23\nnode=a,23\nnode=a,23\n\
        node=a,23\nnode=a,23\nnode=a,23\nnode=a,23\nnode=a,23\nnode=a,23\nnode=a,23\nnode=a,23\n\
        node=a,23\nnode=a,23\nnode=a,23\nnode=a,23\nnode=a,23\nnode=a,23\nnode=a,23\nnode=a,23\n\
        node=a,23\nnode=a,23\nnode=a,23\nnode=a,23\nnode=a,23\nnode=a,23\nnode=a,23\nnode=a,23\n\
        node=a,23\nnode=a,23\nnode=a,23\nnode=a,23\nnode=a,23\nnode=a,23\nnode=a,23\nnode=a,23\n"
}

// The longest file of any edition.
pub fn longest() -> [u8; 2175] {
    *b"plan=2\nres=16\ncap=15\ncap=15\ncap=15\ncap=15\ncap=15\ncap=15\ncap=15\ncap=15\ncap=15\ncap=15\ncap=15\n\
        cap=15\ncap=15\ncap=15\ncap=15\ncap=15\nacts=24\n\
        act=20000,15,15,15,15,15,15,15,15,15,15,15,15,15,15,15,15\n\
        act=20000,15,15,15,15,15,15,15,15,15,15,15,15,15,15,15,15\n\
        act=20000,15,15,15,15,15,15,15,15,15,15,15,15,15,15,15,15\n\
        act=20000,15,15,15,15,15,15,15,15,15,15,15,15,15,15,15,15\n\
        act=20000,15,15,15,15,15,15,15,15,15,15,15,15,15,15,15,15\n\
        act=20000,15,15,15,15,15,15,15,15,15,15,15,15,15,15,15,15\n\
        act=20000,15,15,15,15,15,15,15,15,15,15,15,15,15,15,15,15\n\
        act=20000,15,15,15,15,15,15,15,15,15,15,15,15,15,15,15,15\n\
        act=20000,15,15,15,15,15,15,15,15,15,15,15,15,15,15,15,15\n\
        act=20000,15,15,15,15,15,15,15,15,15,15,15,15,15,15,15,15\n\
        act=20000,15,15,15,15,15,15,15,15,15,15,15,15,15,15,15,15\n\
        act=20000,15,15,15,15,15,15,15,15,15,15,15,15,15,15,15,15\n\
        act=20000,15,15,15,15,15,15,15,15,15,15,15,15,15,15,15,15\n\
        act=20000,15,15,15,15,15,15,15,15,15,15,15,15,15,15,15,15\n\
        act=20000,15,15,15,15,15,15,15,15,15,15,15,15,15,15,15,15\n\
        act=20000,15,15,15,15,15,15,15,15,15,15,15,15,15,15,15,15\n\
        act=20000,15,15,15,15,15,15,15,15,15,15,15,15,15,15,15,15\n\
        act=20000,15,15,15,15,15,15,15,15,15,15,15,15,15,15,15,15\n\
        act=20000,15,15,15,15,15,15,15,15,15,15,15,15,15,15,15,15\n\
        act=20000,15,15,15,15,15,15,15,15,15,15,15,15,15,15,15,15\n\
        act=20000,15,15,15,15,15,15,15,15,15,15,15,15,15,15,15,15\n\
        act=20000,15,15,15,15,15,15,15,15,15,15,15,15,15,15,15,15\n\
        act=20000,15,15,15,15,15,15,15,15,15,15,15,15,15,15,15,15\n\
        act=20000,15,15,15,15,15,15,15,15,15,15,15,15,15,15,15,15\n\
        nodes=64\nnode=x,63\nnode=a,23\nnode=a,23\nnode=a,23\nnode=a,23\nnode=a,23\nnode=a,23\nnode=a,23\nnode=a,23\n\
        node=a,23\nnode=a,23\nnode=a,23\nnode=a,23\nnode=a,23\nnode=a,23\nnode=a,23\nnode=a,23\nnode=a,23\n\
        node=a,23\nnode=a,23\nnode=a,23\nnode=a,23\nnode=a,23\nnode=a,23\nnode=a,23\nnode=a,23\nnode=a,23\n\
        node=a,23\nnode=a,23\nnode=a,23\nnode=a,23\nnode=a,23\nnode=a,23\nnode=a,23\nnode=a,23\nnode=a,23\n\
        node=a,23\nnode=a,23\nnode=a,23\nnode=a,23\nnode=a,23\nnode=a,23\nnode=a,23\nnode=a,23\nnode=a,23\n\
        node=a,23\nnode=a,23\nnode=a,23\nnode=a,23\nnode=a,23\nnode=a,23\nnode=a,23\nnode=a,23\nnode=a,23\n\
        node=a,23\nnode=a,23\nnode=a,23\nnode=a,23\nnode=a,23\nnode=a,23\nnode=a,23\nnode=a,23\nnode=a,23\n\
        node=a,23\n"
}
