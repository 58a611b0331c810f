// The bonds of molecules and queries as pairs of places.
ghost use Rattle.std.specs.Prelude.{◌≡◌, ℕ, ◌≤◌, ◌↔◌, IsTrue};
ghost use Rattle.htss_defs.specs.Graph.{AreEnds, joins};

/// The two places that a bond joins. Places count from 1.
#[derive(Clone, Copy, Debug, Default, PartialEq, Eq)]
pub struct Ends {
    pub first: u16,
    pub second: u16,
}

/// Whether these are the two places, in either order.
pub fn joins(ends: Ends, x: u16, y: u16) -> bool
    ensures { result ≡ joins ends x y }
{
    (ends.first == x && ends.second == y) || (ends.first == y && ends.second == x)
}

/// Whether these are two different places among so many atoms.
pub fn are_ends(ends: Ends, atoms: usize) -> bool
    ensures { IsTrue result ↔ AreEnds atoms ends }
{
    1 <= ends.first
        && ends.first as usize <= atoms
        && 1 <= ends.second
        && ends.second as usize <= atoms
        && ends.first != ends.second
}
