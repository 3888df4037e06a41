//! Graphs whose edges have labels.

ghost use Rattle.std.specs.Prelude.{◌≡◌, ◌<◌};
ghost use Rattle.state_pairs.specs.Goals.{GoalGraph};

/// A graph of nodes from 0, some of which are goals. From a node each label, by its number from 0,
/// leads to a node or to none.
pub trait Graph {
    /// The graph, as contracts see it.
    ghost graph: { Self → GoalGraph };

    /// The number of nodes.
    fn node_count(&self) -> u32
        ensures { result ≡ (graph self.now).node_count };

    /// The number of labels.
    fn label_count(&self) -> u32
        ensures { result ≡ (graph self.now).label_count };

    /// The node to which the label of this number leads from the node, or none.
    fn step(&self, node: u32, label: u32) -> Option<u32>
        requires node { node < (graph self.now).node_count }
        requires label { label < (graph self.now).label_count }
        ensures { result ≡ (graph self.now).leads node label };

    /// Whether the node is a goal.
    fn is_goal(&self, node: u32) -> bool
        requires { node < (graph self.now).node_count }
        ensures { result ≡ (graph self.now).is_goal node };
}
