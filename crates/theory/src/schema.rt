// The laws of the schema.
ghost use Rattle.theory.specs.Schema.{AttributesApart, ChildrenApart, NamesPlain, ChildrenReachable, OneParent};

/// No two attributes of a node have one name.
pub fn attributes_are_apart() -> bool
    ensures { AttributesApart }
{
    true
}

/// No two children that may stand under a node have one tag.
pub fn children_are_apart() -> bool
    ensures { ChildrenApart }
{
    true
}

/// Every tag and attribute name is a name, every fixed text is admitted by its kind and has no `|`, and none of them needs an escape or is changed by keeping.
pub fn names_are_plain() -> bool
    ensures { NamesPlain }
{
    true
}

/// Every beginning of a complete list of children begins an allowed list, and some list is complete under every node.
pub fn children_are_reachable() -> bool
    ensures { ChildrenReachable }
{
    true
}

/// Each node is a child of its parent and of no other, and the root alone has none.
pub fn each_node_has_one_parent() -> bool
    ensures { OneParent }
{
    true
}
