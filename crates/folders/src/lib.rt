// The links of a table by folder: for each link the next one of the same folder, and the first one of what it holds.
//
// The links are gone through once, from the last to the first. `heads` has of every folder met so far the link that now stands first in
// it, sorted by folder, so that a folder is found by halving. specs/Lines.antt says what the lines of a tree are.
// Call: `index_all`; the crate tree makes it, and lines and counts go by what it makes.
#![tactic(auto)]

ghost use Rattle.std.specs.Prelude.{◌≡◌, ◌+◌, ◌<◌, ◌≤◌, length};
ghost use Rattle.folders.specs.inner.Folders.{NextIn, Chained, Opened, Sorted, Heads, FindsHead, Indexed};
ghost use Rattle.folders.specs.inner.OneHead.{one_head};
ghost use Rattle.std.proofs.Props.{props};

// The links of a table by folder.
#[derive(Clone, Copy)]
pub struct Index<'a> {
    // The folder that each link stands in, and the one that it leads to.
    pub parents: &'a [u64],
    pub children: &'a [u64],
    // For each link the next one of its folder, and the first one of what it holds; where there is none, the number of the links,
    // which takes four bytes, and an Option eight.
    pub nexts: &'a [u32],
    pub firsts: &'a [u32],
    // The first link of each folder, sorted by folder.
    pub heads: &'a [u32],
    ghost indexed: { Indexed parents.now children.now nexts.now firsts.now },
    ghost headed: { Heads parents.now heads.now (length heads.now) 0 } by { Prim.hlevel (props, one_head) },
}

impl Index<'_> {
    // Internal: the first link of a folder, or the number of the links where it has none, as in `firsts`: lines and counts begin
    // at either.
    pub fn first_of(&self, folder: u64) -> usize
        ensures { NextIn self.now.parents.now folder 0 result }
    {
        first_of(self.parents, self.heads, folder)
    }
}

// Where the head of a folder stands, or else where it belongs.
fn find_head(parents: &[u64], heads: &[u32], folder: u64) -> Result<usize, usize>
    requires { Sorted parents.now heads.now (length heads.now) }
    ensures { FindsHead parents.now heads.now folder result }
{
    let place = order::place_of(heads, |head| parents[head as usize] < folder);
    match heads.get(place) {
        Some(&head) if parents[head as usize] == folder => Ok(place),
        _ => Err(place),
    }
}

// The first link of a folder, or the number of the links where it has none.
fn first_of(parents: &[u64], heads: &[u32], folder: u64) -> usize
    requires { Heads parents.now heads.now (length heads.now) 0 }
    ensures { NextIn parents.now folder 0 result }
{
    match find_head(parents, heads, folder) {
        Ok(place) => heads[place] as usize,
        Err(_) => parents.len(),
    }
}

// Puts the link at place `i` before those behind it, and answers how many heads there are then.
fn add_link(parents: &[u64], heads: &mut [u32], nexts: &mut [u32], count: usize, i: usize) -> usize
    requires parents_len_bound { (length parents.now ≤ 4096) × ((length parents.now ≤ length heads.old) × (length parents.now ≤ length nexts.old)) }
    requires i_in_bounds { (i < length parents.now) × (Heads parents.now heads.old count (i + 1) × Chained parents.now nexts.old (i + 1)) }
    ensures { Heads parents.now heads.new result i × Chained parents.now nexts.new i }
{
    match find_head(parents, &heads[..count], parents[i]) {
        Ok(place) => {
            nexts[i] = heads[place];
            heads[place] = i as u32;
            count
        }
        Err(place) => {
            nexts[i] = parents.len() as u32;
            order::insert(heads, count, place, i as u32);
            count + 1
        }
    }
}

// Puts all links in, and answers how many heads there are.
fn chain_all(parents: &[u64], heads: &mut [u32], nexts: &mut [u32]) -> usize
    requires { (length parents.now ≤ 4096) × ((length parents.now ≤ length heads.old) × (length parents.now ≤ length nexts.old)) }
    ensures { Heads parents.now heads.new result 0 × Chained parents.now nexts.new 0 }
{
    let mut count = 0;
    for i in (0..parents.len()).rev() {
        count = add_link(parents, heads, nexts, count, i);
    }
    count
}

// For each link the first one of what it holds.
fn open_all(parents: &[u64], children: &[u64], heads: &[u32], firsts: &mut [u32])
    requires parents_len_bound { (length parents.now ≤ 4096) × (length children.now ≤ length firsts.old) }
    requires heads { Heads parents.now heads.now (length heads.now) 0 }
    ensures { Opened parents.now children.now firsts.new (length children.now) }
{
    for (i, child) in children.iter().enumerate() {
        firsts[i] = first_of(parents, heads, *child) as u32;
    }
}

// Internal: makes the index of all links, in the arrays that are lent for it.
pub fn index_all<'a>(
    parents: &'a [u64],
    children: &'a [u64],
    heads: &'a mut [u32],
    nexts: &'a mut [u32],
    firsts: &'a mut [u32],
) -> Index<'a>
    requires parents_len_bound { (length parents.now ≤ 4096) × (length children.now ≡ length parents.now) }
    requires parents_in_bounds { (length parents.now ≤ length heads.old) × ((length parents.now ≤ length nexts.old) × (length parents.now ≤ length firsts.old)) }
    ensures parents { result.parents.now ≡ parents.now }
    ensures children { result.children.now ≡ children.now }
{
    let count = chain_all(parents, heads, nexts);
    let heads = &heads[..count];
    open_all(parents, children, heads, firsts);
    Index {
        parents,
        children,
        nexts,
        firsts,
        heads,
    }
}
