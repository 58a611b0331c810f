// The whole cost of a search: that of all maps that keep their tests, whether or not an embedding was found before.
ghost use Rattle.std.specs.Prelude.{◌≡◌, ℕ, ◌+◌, ◌<◌, length, true, false};
ghost use Rattle.htss_defs.specs.Cost.{cost};
ghost use Rattle.embed.specs.Partial.{IsPartial};

use crate::candidates::{choose, next_place};
use crate::placed::Placed;
use crate::places::PlaceSet;
use crate::target::Target;

/// Takes the cost of going on from a map that keeps all tests from what is left; false exactly where it is more than
/// that. Where the answer is true, the map is as it was.
pub fn count(target: &Target<'_>, left: &mut u64, map: &mut Placed) -> bool
    requires partial { IsPartial target.now.query.now target.now.mol.now map.old }
    requires price { target.now.price ≡ length target.now.mol.now.atoms }
    ensures paid { let cost = cost target.now.query.now target.now.mol.now map.old in
        result ≡ true → left.old ≡ left.new + cost }
    ensures short { let cost = cost target.now.query.now target.now.mol.now map.old in
        result ≡ false → left.old < cost }
    ensures same { result ≡ true → map.new ≡ map.old }
{
    if map.len() == target.query.atoms().len() {
        return true;
    }
    if *left < target.price {
        return false;
    }
    *left -= target.price;
    let mut fitting = PlaceSet::new();
    let chosen = choose(target, map, &mut fitting);
    let mut after = 0;
    while let Some(p) = next_place(target, map, chosen, &fitting, after) {
        map.push(p);
        if !count(target, left, map) {
            return false;
        }
        map.pop();
        after = p;
    }
    true
}
