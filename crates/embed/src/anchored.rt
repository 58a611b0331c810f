// The bond of the query that leads to its next atom.
ghost use Rattle.std.specs.Prelude.{◌≡◌, ◌<◌, length, IfSome, IfNone};
ghost use Rattle.embed.specs.Anchors.{IsAnchor, AsksNoBond};

use crate::extend::place;
use crate::placed::Placed;
use crate::target::Target;
use htss_defs::QueryBond;

/// A bond of the query from its next atom to one before it.
#[derive(Clone, Copy)]
pub struct Anchor {
    /// Where that one stands.
    pub place: u16,
    pub asked: QueryBond,
    /// The link before the bond's at the next atom, by which its other bonds are reached.
    pub rest: u16,
}

/// The one that the plan has, and where the earlier atom stands.
pub fn find_anchor(target: &Target<'_>, map: &Placed) -> Option<Anchor>
    requires { length map.now < length target.now.query.now.atoms }
    ensures some { IfSome result (λ a. IsAnchor target.now.query.now target.now.asked.now map.now a) }
    ensures none { IfNone result (AsksNoBond target.now.query.now map.now) }
{
    let bonds = target.query.bonds();
    let link = target.plan[map.len()];
    if link == 0 {
        return None;
    }
    let asked = bonds[(link as usize - 1) / 2];
    // the other end stands before, wherever the next atom will
    let place = place(map, 0, asked.first.min(asked.second));
    let rest = target.asked.link_before(link);
    Some(Anchor { place, asked, rest })
}
