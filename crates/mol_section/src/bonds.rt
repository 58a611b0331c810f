// What a bond line says.
ghost use Rattle.std.specs.Prelude.{◌≡◌, ◌<◌, not, true, false, All, Some, length, IfOk, IfErr};
ghost use Rattle.htss_defs.specs.Graph.{AreApart, AreEnds};
ghost use Rattle.htss_defs.specs.Adjacency.{with_bond};
ghost use Rattle.mol_section.specs.SectionLines.{is_place};
ghost use Rattle.mol_section.specs.BondLines.{SaysBond, graph_refusal, is_taken};

use crate::fields::{field, number_of};
use htss_defs::{Adjacency, Ends};

/// Whether there is such a place among so many atoms.
pub fn is_place(atoms: u16, place: u16) -> bool
    ensures { result ≡ is_place atoms place }
{
    1 <= place && place <= atoms
}

/// What a bond line says: the places that it joins, and its type.
#[derive(Clone, Copy, Debug)]
pub struct ReadBond {
    pub ends: Ends,
    pub kind: u8,
}

/// What a bond line says, whose bond is added to the graph, or the code of its refusal. Types are 1 to `most`.
#[tactic(auto, unfolding(crate::specs::BondLines::graph_refusal))]
pub fn bond_line(line: &[u8], most: u8, graph: &mut Adjacency) -> Result<ReadBond, u8>
    requires room { length graph.old.bonds < 999 }
    ensures refused { IfErr result (λ code. graph_refusal most graph.old line.now ≡ Some code) }
    ensures accepted { IfOk result (λ says. SaysBond most graph.old line.now says) }
    ensures added { IfOk result (λ says. graph.new ≡ with_bond graph.old says.ends) }
    ensures same { IfErr result (λ _. graph.new ≡ graph.old) }
{
    let Some(first) = number_of(field(line, 1, 3)) else {
        return Err(7);
    };
    let Some(second) = number_of(field(line, 4, 6)) else {
        return Err(7);
    };
    let Some(kind) = number_of(field(line, 7, 9)) else {
        return Err(7);
    };
    let atoms = graph.atoms();
    if !is_place(atoms, first) || !is_place(atoms, second) || first == second {
        return Err(8);
    }
    if kind < 1 || kind > most as u16 {
        return Err(9);
    }
    let ends = Ends { first, second };
    if !add_new(graph, ends) {
        return Err(10);
    }
    Ok(ReadBond {
        ends,
        kind: kind as u8,
    })
}

// Adds a bond unless one joins its places already, and answers whether it did.
fn add_new(graph: &mut Adjacency, ends: Ends) -> bool
    requires ends { AreEnds graph.old.atoms ends }
    requires room { length graph.old.bonds < 999 }
    ensures new { result ≡ not (is_taken graph.old.bonds ends) }
    ensures apart { result ≡ true → All (λ e. AreApart e ends) graph.old.bonds }
    ensures added { result ≡ true → graph.new ≡ with_bond graph.old ends }
    ensures same { result ≡ false → graph.new ≡ graph.old }
{
    graph.add_new(ends)
}
