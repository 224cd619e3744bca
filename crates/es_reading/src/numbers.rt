// Which numbers the nodes get.

/// Which numbers the nodes of a tree that is read get.
#[derive(Debug, Clone, Copy, PartialEq, Eq)]
pub enum Numbers {
    /// 0, 1, .. in preorder.
    Preorder,
    /// Those of the members `node`.
    Given,
}
