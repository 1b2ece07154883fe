// K3, the condition on groups: its test, and the search for the first parse state and scan state at which it fails.
#![tactic(auto)]

ghost use Rattle.std.specs.Prelude.{◌≡◌, true, false, ◌<◌};
ghost use Rattle.sets.specs.Sets.{several};
ghost use Rattle.pack.specs.Image.{scan_states};
ghost use Rattle.pack.specs.Laid.{Laid};
ghost use Rattle.conditions.specs.Conditions.{is_group, settled};
ghost use Rattle.conditions.specs.Check.{c3, finding_of, find};
ghost use Rattle.groupcheck.specs.Together.{Together};

use pack::image;

// Whether the set is that of a group.
fn is_group(img: &[u16], set: u64) -> bool
    requires { Laid img.now }
    ensures { result ≡ is_group img.now set }
{
    for g in 0..image::groups(img) {
        if image::group_set(img, g) == set {
            return true;
        }
    }
    false
}

// Whether what q accepts of the set is at most one terminal, or a group.
#[tactic(auto, unfolding(conditions::specs::Conditions::settled, conditions::specs::Tests::implies))]
fn settled(img: &[u16], q: usize, v: u64) -> bool
    requires laid { Laid img.now }
    requires q_bound { q < scan_states img.now }
    ensures { result ≡ settled img.now q v }
{
    let both = image::acc(img, q) & v;
    !sets::several(both) || is_group(img, both)
}

// The set, where there is more than one terminal in it.
fn crowd(set: u64) -> u64
    ensures { (several set ≡ true → result ≡ set) × (several set ≡ false → result ≡ 0) }
{
    if sets::several(set) { set } else { 0 }
}

// The terminals that some scan state accepts together with others.
fn together(img: &[u16]) -> u64
    requires { Laid img.now }
    ensures { Together img.now (scan_states img.now) result }
{
    let mut set: u64 = 0;
    for q in 0..image::scan_states(img) {
        set = set | crowd(image::acc(img, q));
    }
    set
}

// How many of n scan states are to be looked at for a set of terminals: none where they are fewer than two.
fn to_look_at(v: u64, n: usize) -> usize
    ensures { (several v ≡ true → result ≡ n) × (several v ≡ false → result ≡ 0) }
{
    if sets::several(v) { n } else { 0 }
}

// The first parse state and scan state at which K3 fails. It walks parse states s, inside it scan states q, and stops at the first pair. Of what
// s allows and layout only those terminals count that are accepted together with others; where they are fewer than two, no scan state is
// looked at.
pub fn find_k3(img: &[u16]) -> Option<(usize, usize)>
    requires { Laid img.now }
    ensures { finding_of result ≡ find c3 img.now }
{
    let nq = image::scan_states(img);
    let crowded = together(img);
    let mut found = None;
    'states: for s in 0..image::states(img) {
        let v = (image::valid_set(img, s) | image::layout(img)) & crowded;
        'scans: for q in 0..to_look_at(v, nq) {
            if !settled(img, q, v) {
                found = Some((s, q));
                break 'states;
            }
        }
    }
    found
}
