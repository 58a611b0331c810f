// What a query asks of the order of its atoms, laid out once.
ghost use Rattle.std.specs.Prelude.{◌≡◌, ◌≤◌, length};
ghost use Rattle.htss_defs.specs.QueryGraph.{query_shape};
ghost use Rattle.embed.specs.Anchors.{IsLead, IsPlan};

use htss_defs::{Adjacency, Query};

/// For each atom of the query the link of its first bond to one before it, or 0 where it has none.
pub fn plan_of(query: &Query, asked: &Adjacency) -> [u16; 64]
    requires shape { asked.now ≡ query_shape query.now }
    ensures { IsPlan query.now asked.now result }
{
    let mut plan = [0; 64];
    for i in 0..query.atoms().len() {
        plan[i] = lead_of(query, asked, i as u16 + 1);
    }
    plan
}

// Walks the bonds at atom n.
fn lead_of(query: &Query, asked: &Adjacency, n: u16) -> u16
    requires shape { asked.now ≡ query_shape query.now }
    requires within { n ≤ length query.now.atoms }
    ensures { IsLead query.now asked.now n result }
{
    let bonds = query.bonds();
    let mut link = asked.last_link(n);
    while link != 0 {
        let bond = bonds[(link as usize - 1) / 2];
        if bond.first.max(bond.second) == n {
            return link;
        }
        link = asked.link_before(link);
    }
    0
}
