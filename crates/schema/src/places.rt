// The places of the nodes: their tags, their children and their parents.
ghost use Rattle.std.specs.Prelude.{◌≡◌, map};
ghost use Rattle.rules.specs.Schema.{tag as tag_of, is, needs_child as needs_child_of};
ghost use Rattle.rules.specs.Values.{under as under_of, placed as placed_of};
ghost use Rattle.schema.specs.Meant.{child_meant};
ghost use Rattle.theory.specs.Schema.{parent as parent_of};

use rules::Node;

/// A child that a node may have, with its least and greatest count.
#[derive(Clone, Copy)]
pub struct Child {
    pub node: Node,
    pub least: usize,
    pub most: usize,
}

// from so many to so many children of one node
macro_rules! child {
    ($node:expr, $least:expr, $most:expr) => {
        Child { node: $node, least: $least, most: $most }
    };
}

/// The children that may stand under a node, in order; `None` is the document's own level.
pub fn children(under: Option<Node>) -> &'static [Child]
    ensures { map child_meant result.now ≡ under_of under }
{
    match under {
        None => &[child!(Node::Comprobante, 1, 1)],
        Some(Node::Comprobante) => &[
            child!(Node::Emisor, 1, 1),
            child!(Node::Receptor, 1, 1),
            child!(Node::Conceptos, 1, 1),
            child!(Node::Impuestos, 0, 1),
        ],
        Some(Node::Conceptos) => &[child!(Node::Concepto, 1, 256)],
        Some(Node::Concepto) => &[child!(Node::ConceptoImpuestos, 0, 1)],
        Some(Node::ConceptoImpuestos) => &[
            child!(Node::ConceptoTraslados, 0, 1),
            child!(Node::ConceptoRetenciones, 0, 1),
        ],
        Some(Node::ConceptoTraslados) => &[child!(Node::ConceptoTraslado, 1, 8)],
        Some(Node::ConceptoRetenciones) => &[child!(Node::ConceptoRetencion, 1, 8)],
        Some(Node::Impuestos) => &[
            child!(Node::Retenciones, 0, 1),
            child!(Node::Traslados, 0, 1),
        ],
        Some(Node::Retenciones) => &[child!(Node::Retencion, 1, 32)],
        Some(Node::Traslados) => &[child!(Node::Traslado, 1, 32)],
        Some(
            Node::Emisor
            | Node::Receptor
            | Node::ConceptoTraslado
            | Node::ConceptoRetencion
            | Node::Retencion
            | Node::Traslado,
        ) => &[],
    }
}

/// The name that a node's tags carry.
pub fn tag(node: Node) -> &'static [u8]
    ensures { result.now ≡ tag_of node }
{
    match node {
        Node::Comprobante => b"cfdi:Comprobante",
        Node::Emisor => b"cfdi:Emisor",
        Node::Receptor => b"cfdi:Receptor",
        Node::Conceptos => b"cfdi:Conceptos",
        Node::Concepto => b"cfdi:Concepto",
        Node::ConceptoImpuestos => b"cfdi:Impuestos",
        Node::ConceptoTraslados => b"cfdi:Traslados",
        Node::ConceptoTraslado => b"cfdi:Traslado",
        Node::ConceptoRetenciones => b"cfdi:Retenciones",
        Node::ConceptoRetencion => b"cfdi:Retencion",
        Node::Impuestos => b"cfdi:Impuestos",
        Node::Retenciones => b"cfdi:Retenciones",
        Node::Retencion => b"cfdi:Retencion",
        Node::Traslados => b"cfdi:Traslados",
        Node::Traslado => b"cfdi:Traslado",
    }
}

/// Whether two nodes are of one kind.
pub fn same_node(a: Node, b: Node) -> bool
    ensures { result ≡ is a b }
{
    a == b
}

/// Whether a node must have some child at all, whichever it is.
pub fn needs_child(node: Node) -> bool
    ensures { result ≡ needs_child_of node }
{
    matches!(node, Node::ConceptoImpuestos)
}

/// The node that a node stands under; the Comprobante stands at the document's own level.
pub fn parent(node: Node) -> Option<Node>
    ensures { result ≡ parent_of node }
{
    match node {
        Node::Comprobante => None,
        Node::Emisor => Some(Node::Comprobante),
        Node::Receptor => Some(Node::Comprobante),
        Node::Conceptos => Some(Node::Comprobante),
        Node::Concepto => Some(Node::Conceptos),
        Node::ConceptoImpuestos => Some(Node::Concepto),
        Node::ConceptoTraslados => Some(Node::ConceptoImpuestos),
        Node::ConceptoTraslado => Some(Node::ConceptoTraslados),
        Node::ConceptoRetenciones => Some(Node::ConceptoImpuestos),
        Node::ConceptoRetencion => Some(Node::ConceptoRetenciones),
        Node::Impuestos => Some(Node::Comprobante),
        Node::Retenciones => Some(Node::Impuestos),
        Node::Retencion => Some(Node::Retenciones),
        Node::Traslados => Some(Node::Impuestos),
        Node::Traslado => Some(Node::Traslados),
    }
}

/// The node that a name means under another.
pub fn placed(under: Option<Node>, name: &[u8]) -> Option<Node>
    ensures { result ≡ placed_of under name.now }
{
    children(under)
        .iter()
        .find(|child| tag(child.node) == name)
        .map(|child| child.node)
}
