// The attributes of each node.
ghost use Rattle.std.specs.Prelude.{◌≡◌, map};
ghost use Rattle.rules.specs.Grounds.{rows as rows_of};
ghost use Rattle.rules.specs.Kinds.{fixed_text};
ghost use Rattle.schema.specs.Meant.{row_meant};

use rules::{Catalogue, FixedText, Kind, Node};

/// An attribute of a node: its name, its kind, whether it is required, and whether it is part of the cadena.
#[derive(Clone, Copy)]
pub struct Row {
    pub name: &'static [u8],
    pub kind: Kind,
    pub required: bool,
    pub in_cadena: bool,
}

// a required attribute
macro_rules! must {
    ($name:expr, $kind:expr) => {
        Row { name: $name, kind: $kind, required: true, in_cadena: true }
    };
}

// an optional attribute
macro_rules! may {
    ($name:expr, $kind:expr) => {
        Row { name: $name, kind: $kind, required: false, in_cadena: true }
    };
}

// a seal or a certificate, which is required and no part of the cadena
macro_rules! sealed {
    ($name:expr) => {
        Row { name: $name, kind: Kind::Seal, required: true, in_cadena: false }
    };
}

/// The attributes that a node may have: those that fix the namespaces, then the others in the order of the cadena.
pub fn rows(node: Node) -> &'static [Row]
    ensures { map row_meant result.now ≡ rows_of node }
{
    match node {
        Node::Comprobante => &[
            must!(b"xmlns:cfdi", Kind::Fixed(FixedText::CfdiNamespace)),
            must!(b"xmlns:xsi", Kind::Fixed(FixedText::XsiNamespace)),
            must!(
                b"xsi:schemaLocation",
                Kind::Fixed(FixedText::SchemaLocation)
            ),
            must!(b"Version", Kind::Fixed(FixedText::Version)),
            may!(b"Serie", Kind::Text(25)),
            may!(b"Folio", Kind::Text(40)),
            must!(b"Fecha", Kind::DateTime),
            may!(b"FormaPago", Kind::Code(Catalogue::FormaPago)),
            must!(b"NoCertificado", Kind::Digits(20)),
            may!(b"CondicionesDePago", Kind::Text(1000)),
            must!(b"SubTotal", Kind::Amount),
            may!(b"Descuento", Kind::Amount),
            must!(b"Moneda", Kind::Code(Catalogue::Moneda)),
            may!(b"TipoCambio", Kind::Positive),
            must!(b"Total", Kind::Amount),
            must!(
                b"TipoDeComprobante",
                Kind::Code(Catalogue::TipoDeComprobante)
            ),
            must!(b"Exportacion", Kind::Code(Catalogue::Exportacion)),
            may!(b"MetodoPago", Kind::Code(Catalogue::MetodoPago)),
            must!(b"LugarExpedicion", Kind::Code(Catalogue::CodigoPostal)),
            may!(b"Confirmacion", Kind::Mark),
            sealed!(b"Sello"),
            sealed!(b"Certificado"),
        ],
        Node::Emisor => &[
            must!(b"Rfc", Kind::Rfc),
            must!(b"Nombre", Kind::Text(254)),
            must!(b"RegimenFiscal", Kind::Code(Catalogue::RegimenFiscal)),
            may!(b"FacAtrAdquirente", Kind::Digits(10)),
        ],
        Node::Receptor => &[
            must!(b"Rfc", Kind::Rfc),
            must!(b"Nombre", Kind::Text(254)),
            must!(b"DomicilioFiscalReceptor", Kind::Digits(5)),
            may!(b"ResidenciaFiscal", Kind::Code(Catalogue::ResidenciaFiscal)),
            may!(b"NumRegIdTrib", Kind::Text(40)),
            must!(
                b"RegimenFiscalReceptor",
                Kind::Code(Catalogue::RegimenFiscal)
            ),
            must!(b"UsoCFDI", Kind::Code(Catalogue::UsoCFDI)),
        ],
        Node::Concepto => &[
            must!(b"ClaveProdServ", Kind::Code(Catalogue::ClaveProdServ)),
            may!(b"NoIdentificacion", Kind::Text(100)),
            must!(b"Cantidad", Kind::Positive),
            must!(b"ClaveUnidad", Kind::Code(Catalogue::ClaveUnidad)),
            may!(b"Unidad", Kind::Text(20)),
            must!(b"Descripcion", Kind::Text(1000)),
            must!(b"ValorUnitario", Kind::Amount),
            must!(b"Importe", Kind::Amount),
            may!(b"Descuento", Kind::Amount),
            must!(b"ObjetoImp", Kind::Code(Catalogue::ObjetoImp)),
        ],
        Node::ConceptoTraslado => &[
            must!(b"Base", Kind::Positive),
            must!(b"Impuesto", Kind::Code(Catalogue::Impuesto)),
            must!(b"TipoFactor", Kind::Code(Catalogue::TipoFactor)),
            may!(b"TasaOCuota", Kind::Amount),
            may!(b"Importe", Kind::Amount),
        ],
        Node::ConceptoRetencion => &[
            must!(b"Base", Kind::Positive),
            must!(b"Impuesto", Kind::Code(Catalogue::Impuesto)),
            must!(b"TipoFactor", Kind::Code(Catalogue::TipoFactor)),
            must!(b"TasaOCuota", Kind::Amount),
            must!(b"Importe", Kind::Amount),
        ],
        Node::Impuestos => &[
            may!(b"TotalImpuestosRetenidos", Kind::Amount),
            may!(b"TotalImpuestosTrasladados", Kind::Amount),
        ],
        Node::Retencion => &[
            must!(b"Impuesto", Kind::Code(Catalogue::Impuesto)),
            must!(b"Importe", Kind::Amount),
        ],
        Node::Traslado => &[
            must!(b"Base", Kind::Amount),
            must!(b"Impuesto", Kind::Code(Catalogue::Impuesto)),
            must!(b"TipoFactor", Kind::Code(Catalogue::TipoFactor)),
            may!(b"TasaOCuota", Kind::Amount),
            may!(b"Importe", Kind::Amount),
        ],
        Node::Conceptos
        | Node::ConceptoImpuestos
        | Node::ConceptoTraslados
        | Node::ConceptoRetenciones
        | Node::Retenciones
        | Node::Traslados => &[],
    }
}
