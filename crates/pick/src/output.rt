// The nodes of a variant, written one after another.
ghost use Rattle.std.specs.Prelude.{◌≡◌, ◌+◌, ◌≤◌, ◌<◌, take};
ghost use Rattle.plan.specs.Limits.{most_nodes};

use plan::{MOST_NODES, Node};

// The nodes of one variant. What stands past their count means nothing.
#[derive(Clone, Copy)]
pub struct Picked {
    pub nodes: usize,
    pub node: [Node; MOST_NODES],
    pub ghost held: { nodes ≤ most_nodes },
}

impl Picked {
    pub fn all_nodes(&self) -> &[Node]
        ensures { result.now ≡ take self.now.nodes self.now.node }
    {
        &self.node[..self.nodes]
    }

    // Room for one node, which is put there once its children are written.
    pub(crate) fn leave_room(&mut self) -> usize
        requires { self.old.nodes < most_nodes }
        ensures place { result ≡ self.old.nodes }
        ensures nodes_after { self.new.nodes ≡ self.old.nodes + 1 }
        ensures node_after { self.new.node ≡ self.old.node }
    {
        let at = self.nodes;
        self.nodes += 1;
        at
    }
}
