// A walk from the root over all pages that are linked, by the words alone. Each page is tested on the way.
use crate::pages::Page;
use std::alloc::Global;
use std::test::Fail;

// From this depth on a full leaf goes on at its next page.
const CHAINED: usize = 5;

// The first codes of a row.
#[derive(Clone, Copy, Debug, PartialEq, Eq, Drop)]
pub(crate) struct Path {
    pub(crate) codes: [u64; 5],
    pub(crate) depth: usize,
}

impl Path {
    fn below(self, code: u64) -> Result<Path, Fail> {
        let mut path = self;
        match path.codes.get_mut(self.depth) {
            Some(place) => *place = code,
            None => return Err("an inner page at depth 5".into()),
        }
        path.depth = self.depth.saturating_add(1);
        Ok(path)
    }
}

// A page that is to be visited: its number, and where it must stand. Behind another page it must be of the same kind.
#[derive(Clone, Copy, Drop)]
struct Visit {
    page: u64,
    path: Path,
    rank: u64,
    leaf: Option<bool>,
}

// An entry of a leaf, and the path of the leaf.
#[derive(Clone, Copy, Drop)]
pub(crate) struct Entry {
    pub(crate) word: u64,
    pub(crate) path: Path,
}

// What a walk finds: how many pages of each kind, the entries, and the path of each code.
#[derive(Drop)]
pub(crate) struct Walk {
    pub(crate) visited: Vec<bool>,
    pub(crate) inner: usize,
    pub(crate) leaves: usize,
    pub(crate) entries: Vec<Entry>,
    pub(crate) branches: Vec<Path>,
    left: Vec<Visit>,
}

const ROOT: Visit = Visit {
    page: 1,
    path: Path {
        codes: [0; 5],
        depth: 0,
    },
    rank: 0,
    leaf: Some(false),
};

// The page is one of the board's, is busy, and was not visited before.
fn visited_first(walk: &mut Walk, pages: &[Page], number: u64) -> Result<Page, Fail> {
    let index = number.checked_sub(1).ok_or("page 0")? as usize;
    let page = pages.get(index).ok_or("a page past the last")?;
    let visited = walk.visited.get_mut(index).ok_or("a page past the last")?;
    if *visited {
        return Err("a page twice".into());
    }
    *visited = true;
    if page.state != 1 {
        return Err("a linked page that is not busy".into());
    }
    Ok(*page)
}

// Whether the header is that of a leaf. The kind, the depth and the rank must be those of the place, and nothing else.
fn is_leaf(header: u64, visit: &Visit) -> Result<bool, Fail> {
    let place = (visit.path.depth as u64)
        .saturating_mul(4)
        .saturating_add(visit.rank.saturating_mul(32));
    let leaf = match header.checked_sub(place) {
        Some(1) => true,
        Some(2) => false,
        _ => return Err("a header of another place".into()),
    };
    match visit.leaf {
        Some(kind) if kind != leaf => Err("a chain of both kinds".into()),
        _ => Ok(leaf),
    }
}

// The words other than 0 stand before all others. Answers how many they are.
fn filled(words: &[u64]) -> Result<usize, Fail> {
    let mut count = 0usize;
    let mut ended = false;
    for word in words {
        match (*word, ended) {
            (0, _) => ended = true,
            (_, true) => return Err("a word behind a 0".into()),
            _ => count = count.saturating_add(1),
        }
    }
    Ok(count)
}

fn visit_leaf(walk: &mut Walk, words: &[u64; 16], visit: &Visit) -> Result<bool, Fail> {
    let entries = &words[2..16];
    let count = filled(entries)?;
    for word in entries {
        if *word != 0 {
            walk.entries.push(Entry {
                word: *word,
                path: visit.path,
            })?;
        }
    }
    if words[1] != 0 && visit.path.depth < CHAINED {
        return Err("a leaf that goes on above the depth of chains".into());
    }
    Ok(count == 14)
}

// One pair of a code and a link.
fn visit_pair(walk: &mut Walk, code: u64, link: u64, visit: &Visit) -> Result<(), Fail> {
    if code == 0 {
        return match link {
            0 => Ok(()),
            _ => Err("a link without a code".into()),
        };
    }
    let path = visit.path.below(code)?;
    walk.branches.push(path)?;
    if link != 0 {
        walk.left.push(Visit {
            page: link,
            path,
            rank: 0,
            leaf: None,
        })?;
    }
    Ok(())
}

fn visit_inner(walk: &mut Walk, words: &[u64; 16], visit: &Visit) -> Result<bool, Fail> {
    let mut codes = [0u64; 7];
    for pair in 0..7usize {
        codes[pair] = words[2 + 2 * pair];
        visit_pair(walk, words[2 + 2 * pair], words[3 + 2 * pair], visit)?;
    }
    Ok(filled(&codes)? == 7)
}

// One page: its own words are tested, and the pages that it names are to be visited.
fn visit_page(walk: &mut Walk, pages: &[Page], visit: &Visit) -> Result<(), Fail> {
    let page = visited_first(walk, pages, visit.page)?;
    let leaf = is_leaf(page.words[0], visit)?;
    let full = if leaf {
        walk.leaves = walk.leaves.saturating_add(1);
        visit_leaf(walk, &page.words, visit)?
    } else {
        walk.inner = walk.inner.saturating_add(1);
        visit_inner(walk, &page.words, visit)?
    };
    let more = page.words[1];
    if more != 0 {
        if !full {
            return Err("a chain that goes on where there is room".into());
        }
        walk.left.push(Visit {
            page: more,
            path: visit.path,
            rank: visit.rank.saturating_add(1),
            leaf: Some(leaf),
        })?;
    }
    Ok(())
}

// The whole walk. No page is visited twice, so there are no more visits than pages.
pub(crate) fn walk_of(alloc: Global, pages: &[Page]) -> Result<Walk, Fail> {
    let mut walk = Walk {
        visited: vec![in alloc; false; pages.len()]?,
        inner: 0,
        leaves: 0,
        entries: Vec::new(alloc),
        branches: Vec::new(alloc),
        left: vec![in alloc; ROOT]?,
    };
    for _ in 0..pages.len() {
        match walk.left.pop() {
            Some(visit) => visit_page(&mut walk, pages, &visit)?,
            None => return Ok(walk),
        }
    }
    match walk.left.pop() {
        Some(_) => Err("more visits than pages".into()),
        None => Ok(walk),
    }
}
