// What a bond line of a query says.
ghost use Rattle.std.specs.Prelude.{◌≡◌, ◌<◌, ◌≤◌, Some, length, IfOk, IfErr, IfSome};
ghost use Rattle.htss_defs.specs.Adjacency.{with_bond};
ghost use Rattle.htss_defs.specs.QueryGraph.{query_bond_ends};
ghost use Rattle.query_mol.specs.QueryLines.{topology_value};
ghost use Rattle.query_mol.specs.LineFacts.{SaysQueryBond, query_graph_refusal};

use htss_defs::{Adjacency, QueryBond};
use mol_section::{bond_line, count_of, field};

/// The bond of a bond line, which is added to the graph, or the code of its refusal.
#[tactic(auto, unfolding(crate::specs::LineFacts::query_graph_refusal))]
pub fn bond_of(line: &[u8], graph: &mut Adjacency) -> Result<QueryBond, u8>
    requires room { length graph.old.bonds < 999 }
    ensures refused { IfErr result (λ code. query_graph_refusal graph.old line.now ≡ Some code) }
    ensures accepted { IfOk result (λ bond. SaysQueryBond graph.old line.now bond) }
    ensures added { IfOk result (λ bond. graph.new ≡ with_bond graph.old (query_bond_ends bond)) }
{
    let says = bond_line(line, 8, graph)?;
    let Some(topology) = topology_value(field(line, 16, 18)) else {
        return Err(22);
    };
    Ok(QueryBond {
        first: says.ends.first,
        second: says.ends.second,
        kind: says.kind,
        topology,
        ring: false,
    })
}

#[tactic(auto, unfolding(mol_section::specs::Fields::count_of))]
fn topology_value(text: &[u8]) -> Option<u8>
    requires { length text.now ≤ 3 }
    ensures value { result ≡ topology_value text.now }
    ensures small { IfSome result (λ topology. topology ≤ 2) }
{
    let value = count_of(text)?;
    if value <= 2 { Some(value as u8) } else { None }
}
